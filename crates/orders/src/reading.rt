ghost use Rattle.std.specs.Prelude.{◌≡◌, ◌+◌, ◌≤◌, length};
ghost use Rattle.std.specs.Iterator.{at_most};
ghost use Rattle.orders.specs.Reading.{most_bytes};

use crate::fault::FileFault;
use crate::file_order::FileOrder;
use crate::limits::MOST_BYTES;
use rules::refusal::Refusal;

/// A file that is not too long.
#[derive(Clone, Copy)]
pub(crate) struct OrderFile<'a> {
    bytes: &'a [u8],
    ghost short: { length bytes.now ≤ most_bytes },
}

impl<'a> OrderFile<'a> {
    ghost use Rattle.orders.specs.Reading.{reading};
    ghost use Rattle.orders.specs.Walks.{file_read, orders_in, left};

    /// Takes the bytes of a file, unless there are too many.
    pub(crate) fn new(bytes: &'a [u8]) -> Result<Self, FileFault>
        ensures { file_read result ≡ reading bytes.now }
    {
        if bytes.len() > MOST_BYTES {
            return Err(FileFault::new(Refusal::FileTooLong, MOST_BYTES));
        }
        Ok(OrderFile { bytes })
    }

    /// The orders of the file, from the first on.
    pub(crate) fn orders(self) -> Orders<'a>
        ensures { left result ≡ orders_in self.entry }
    {
        Orders {
            place: 0,
            rest: self.bytes,
        }
    }
}

/// Gives the orders of a file one after the other, from a place on. At a fault it gives that, and nothing more.
#[derive(Drop)]
pub(crate) struct Orders<'a> {
    place: usize,
    rest: &'a [u8],
    ghost within: { place + length rest.now ≤ most_bytes },
}

impl<'a> Iterator for Orders<'a> {
    ghost use Rattle.orders.specs.Walks.{Gives};

    type Item = Result<FileOrder<'a>, FileFault>;

    ghost next_gives = { Gives };

    ghost remaining = { λ orders. at_most (length orders.rest.now) };

    #[tactic(auto, using(crate::proofs::Walk::one_step, crate::proofs::Walk::step_on, crate::proofs::Walk::none_left), unfolding(crate::specs::Reading::orders_from))]
    fn next(&mut self) -> Option<Result<FileOrder<'a>, FileFault>> {
        let (kind, bytes) = self.rest.split_first()?;
        match FileOrder::read_first(*kind, bytes) {
            Ok((order, rest)) => {
                self.place += self.rest.len() - rest.len();
                self.rest = rest;
                Some(Ok(order))
            }
            Err(refusal) => {
                self.rest = &[];
                Some(Err(FileFault::new(refusal, self.place)))
            }
        }
    }
}
