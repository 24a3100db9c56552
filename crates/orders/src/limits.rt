/// The most bytes that a file may have.
pub const MOST_BYTES: usize = 65_536;
