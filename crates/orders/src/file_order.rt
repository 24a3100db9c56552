ghost use Rattle.std.specs.Prelude.{◌≡◌, ◌≤◌, length, IfOk};
ghost use Rattle.rules.specs.Orders.{step};
ghost use Rattle.rules.specs.Refusals.{outcome_number};
ghost use Rattle.orders.specs.RawOrders.{meant, Whole};

use crate::fields::{Field, account_at};
use crate::order_kind::OrderKind;
use crate::raw_order::RawOrder;
use book::orders::MarginBook;
use rules::refusal::Refusal;

/// An order of a file, with a body that has all of its bytes.
#[derive(Clone, Copy)]
pub(crate) struct FileOrder<'a> {
    raw: RawOrder<'a>,
    ghost whole: { Whole raw },
}

impl<'a> FileOrder<'a> {
    ghost use Rattle.orders.specs.Kinds.{kinds, found};
    ghost use Rattle.orders.specs.Walks.{first_order, first_read};

    /// Reads an order by its kind byte and the bytes that follow that, and hands on the bytes after the order; or tells
    /// what is wrong with it.
    pub(crate) fn read_first(kind: u8, bytes: &'a [u8]) -> Result<(Self, &'a [u8]), Refusal>
        ensures reads { first_read result ≡ first_order (found kind kinds) bytes.now }
        ensures shorter { IfOk result (λ first. length first.1.now ≤ length bytes.now) }
    {
        let kind = OrderKind::try_from(kind)?;
        let Some((body, rest)) = bytes.split_at_checked(kind.body_size()) else {
            return Err(Refusal::BodyCutShort);
        };
        let raw = kind.order(body);
        Ok((FileOrder { raw }, rest))
    }

    // That the terms stay the same, here and in each call that gives a book orders: no law of the trait can speak of a
    // book before and after.
    /// Gives the order to a book.
    fn ask<B: MarginBook>(self, book: &mut B) -> Result<(), Refusal>
        ensures step { (result, B.MarginBook.state book.new) ≡ step (B.MarginBook.terms book.old) (B.MarginBook.state book.old) (meant self.entry.raw) }
        ensures same { B.MarginBook.terms book.new ≡ B.MarginBook.terms book.old }
    {
        match self.raw {
            RawOrder::Open(b) => book.open(account_at(b, 0), u8::at(b, 1)),
            RawOrder::Mark(b) => book.mark(u8::at(b, 0), u32::at(b, 1), u16::at(b, 5)),
            RawOrder::Position(b) => {
                book.position(account_at(b, 0), u8::at(b, 1), u32::at(b, 2), u32::at(b, 6))
            }
            RawOrder::Declare(b) => {
                book.declare(
                    account_at(b, 0),
                    u64::at(b, 1),
                    u64::at(b, 9),
                    u64::at(b, 17),
                )
            }
            RawOrder::Deposit(b) => {
                book.deposit(account_at(b, 0), u8::at(b, 1), u8::at(b, 2), u64::at(b, 3))
            }
            RawOrder::Withdraw(b) => {
                book.withdraw(account_at(b, 0), u8::at(b, 1), u8::at(b, 2), u64::at(b, 3))
            }
            RawOrder::Suspend(b) => book.suspend(u8::at(b, 0)),
            RawOrder::Settle(b) => book.settle(u8::at(b, 0)),
            RawOrder::Seize(b) => book.seize(
                u8::at(b, 0),
                account_at(b, 1),
                u8::at(b, 2),
                u8::at(b, 3),
                account_at(b, 4),
                u64::at(b, 5),
            ),
        }
    }

    /// Performs the order on a book, and tells its outcome by the number for an answer list.
    pub(crate) fn perform<B: MarginBook>(self, book: &mut B) -> u8
        ensures number { result ≡ outcome_number (step (B.MarginBook.terms book.old) (B.MarginBook.state book.old) (meant self.entry.raw)).0 }
        ensures state { B.MarginBook.state book.new ≡ (step (B.MarginBook.terms book.old) (B.MarginBook.state book.old) (meant self.entry.raw)).1 }
        ensures same { B.MarginBook.terms book.new ≡ B.MarginBook.terms book.old }
    {
        number(self.ask(book))
    }
}

// A number and not the outcome itself, since an answer list is bytes that the caller lends.
/// The number by which an outcome is told in an answer list: 0 for accepted.
fn number(outcome: Result<(), Refusal>) -> u8
    ensures { result ≡ outcome_number outcome }
{
    match outcome {
        Ok(()) => 0,
        Err(refusal) => refusal.number(),
    }
}
