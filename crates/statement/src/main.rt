// A small default case from beginning to end: a book is made, orders are given to it, and every party's claim is told.
//
// Participant 0 has one customer, on account 8. It placed replacement margin of 300 yen for the customer, whose own
// margin with it is 200 yen; the customer owes it 50 yen, and it owes the clearing house 120 yen on that account. Its
// house account has 30 yen deposited and 20 yen owed.
#![tactic(auto)]

mod entry;
mod parties;

use book::book::Book;
use book::orders::MarginBook;
use custody::register::NumberRegister;
use entry::Entry;
use margin::net::NetMargin;
use parties::Parties;
use rules::sizes::{BOXES, CONTRACTS};

/// Yen of margin for a lot of each contract. (No account here has an open lot.)
const RATES: [u32; CONTRACTS] = [60_000; CONTRACTS];

/// Works through the case on a fresh book, and prints each order with its answer and then all claims.
fn work_through<B: MarginBook>(rt: &HostRuntime, book: &mut B) -> anyhow::Result<()> {
    let entries = [
        Entry {
            order: "open account 8 under participant 0",
            answer: book.open(8, 0),
        },
        Entry {
            order: "deposit 300 yen as replacement margin of account 8",
            answer: book.deposit(8, 1, 0, 300),
        },
        Entry {
            order: "declare on account 8: customer margin 200, customer's debt 50, participant's debt 120",
            answer: book.declare(8, 200, 50, 120),
        },
        Entry {
            order: "deposit 30 yen in house account 0",
            answer: book.deposit(0, 0, 0, 30),
        },
        Entry {
            order: "declare on house account 0: participant's debt 20",
            answer: book.declare(0, 0, 0, 20),
        },
        Entry {
            order: "deposit 30 yen as replacement margin of house account 0",
            answer: book.deposit(0, 1, 0, 30),
        },
    ];
    for entry in &entries {
        rt.println(entry)?;
    }
    rt.print(&Parties { book })?;
    Ok(())
}

fn main(rt: HostRuntime) -> anyhow::Result<()> {
    let mut memory = [0; BOXES];
    let method = NetMargin::new(RATES);
    let mut book = Book::new(NumberRegister::new(&mut memory), method, method);
    work_through(&rt, &mut book)
}
