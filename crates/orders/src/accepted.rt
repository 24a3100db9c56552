/// What an accepted file is answered.
#[derive(Clone, Copy, PartialEq, Eq, Debug)]
pub struct Accepted {
    /// How many orders the file has.
    pub orders: usize,
}
