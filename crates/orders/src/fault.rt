ghost use Rattle.std.specs.Prelude.{◌≡◌};
ghost use Rattle.orders.specs.Reading.{fault};

use rules::refusal::Refusal;

/// Why a whole file is refused, and at which place: counted in bytes from 0, or in orders where the answer list is too
/// short for them.
#[derive(Clone, Copy, PartialEq, Eq, Debug)]
pub struct FileFault {
    pub refusal: Refusal,
    pub place: usize,
}

impl FileFault {
    /// A refusal at a place.
    pub(crate) fn new(refusal: Refusal, place: usize) -> Self
        ensures { result ≡ fault refusal place }
    {
        FileFault { refusal, place }
    }
}
