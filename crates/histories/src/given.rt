use book::orders::MarginBook;
use rules::refusal::Refusal;
use std::process::Abort;

/// An order with its numbers, in the order of the call's parameters. They have no names, so that a history reads as a
/// table with a line for each order.
#[derive(Clone, Copy)]
pub enum Given {
    Open(u16, u8),
    Mark(u8, u32, u16),
    Position(u16, u8, u32, u32),
    Declare(u16, u64, u64, u64),
    Deposit(u16, u8, u8, u64),
    Withdraw(u16, u8, u8, u64),
    Suspend(u8),
    Settle(u8),
    Seize(u8, u16, u8, u8, u16, u64),
}

/// An order and what it must be answered.
pub type Step = (Given, Result<(), Refusal>);

/// Gives one order to a book.
pub fn give<B: MarginBook>(book: &mut B, given: Given) -> Result<(), Refusal> {
    match given {
        Given::Open(account, participant) => book.open(account, participant),
        Given::Mark(asset, price, haircut) => book.mark(asset, price, haircut),
        Given::Position(account, contract, long, short) => {
            book.position(account, contract, long, short)
        }
        Given::Declare(account, margin, customer, participant) => {
            book.declare(account, margin, customer, participant)
        }
        Given::Deposit(account, pocket, asset, units) => {
            book.deposit(account, pocket, asset, units)
        }
        Given::Withdraw(account, pocket, asset, units) => {
            book.withdraw(account, pocket, asset, units)
        }
        Given::Suspend(participant) => book.suspend(participant),
        Given::Settle(participant) => book.settle(participant),
        Given::Seize(side, paying, pocket, asset, paid, units) => {
            book.seize(side, paying, pocket, asset, paid, units)
        }
    }
}

// The runtime and the book are passed on as they are, here and in the histories: a struct of both would be taken apart
// in each function.

/// Gives orders one after the other and compares each answer.
pub fn walk<B: MarginBook>(rt: &impl Abort, book: &mut B, steps: &[Step]) {
    for (given, expected) in steps {
        assert_eq!(rt; give(book, *given), *expected);
    }
}
