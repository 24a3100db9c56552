// The numbers in the fields of a body, highest byte first.
ghost use Rattle.std.specs.Prelude.{◌≡◌, ℕ, ◌+◌, ◌≤◌, length, take, drop};
ghost use Rattle.orders.specs.Kinds.{number_at};

/// A number that a field can hold.
pub(crate) trait Field: Sized {
    /// How many bytes a field for it takes.
    ghost width: { ℕ };

    /// The number that a value is.
    ghost number: { Self → ℕ };

    // A body and a place, and no struct of the two: each kind of order holds its body as a plain part of the file.
    /// The number in the field at a place of a body.
    fn at(body: &[u8], from: usize) -> Self
        requires { from + width ≤ length body.now }
        ensures { number result ≡ number_at body.now from width };
}

impl Field for u8 {
    ghost width = { 1 };

    ghost number = { λ n. n };

    fn at(body: &[u8], from: usize) -> u8 {
        body[from]
    }
}

impl Field for u16 {
    ghost width = { 2 };

    ghost number = { λ n. n };

    fn at(body: &[u8], from: usize) -> u16 {
        u16::from_be_bytes(bytes_at(body, from))
    }
}

impl Field for u32 {
    ghost width = { 4 };

    ghost number = { λ n. n };

    fn at(body: &[u8], from: usize) -> u32 {
        u32::from_be_bytes(bytes_at(body, from))
    }
}

impl Field for u64 {
    ghost width = { 8 };

    ghost number = { λ n. n };

    fn at(body: &[u8], from: usize) -> u64 {
        u64::from_be_bytes(bytes_at(body, from))
    }
}

/// The bytes from a place of a body on, as many as are asked for.
fn bytes_at<const N: usize>(body: &[u8], from: usize) -> [u8; N]
    requires { from + N ≤ length body.now }
    ensures { result ≡ take N (drop from body.now) }
{
    *body[from..].first_chunk().unwrap()
}

// Not a `Field` of its own: an account is one byte in a file and a wider number in a call.
/// The account that the field of one byte at a place of a body names.
pub(crate) fn account_at(body: &[u8], from: usize) -> u16
    requires { from + 1 ≤ length body.now }
    ensures { result ≡ number_at body.now from 1 }
{
    u16::from(u8::at(body, from))
}
