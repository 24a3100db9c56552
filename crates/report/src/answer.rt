ghost use Rattle.std.specs.Prelude.{◌≡◌, ℕ, IfOk, string_bytes};
ghost use Rattle.report.specs.ProgramTerms.{program_terms};
ghost use Rattle.report.specs.Printed.{printed};

use crate::printing::print_run;
use book::book::Book;
use custody::custodian::Custodian;
use custody::page::BytePage;
use custody::register::NumberRegister;
use custody::split::SplitCustodian;
use margin::gross::GrossMargin;
use margin::net::NetMargin;
use rules::sizes::{BOXES, CONTRACTS};
use std::alloc::{AllocError, Global};

/// Yen of margin for a lot of each contract.
const RATES: [u32; CONTRACTS] = [60_000; CONTRACTS];

/// Runs a file on a fresh book over a custodian with all the room that boxes can have, and tells what is printed of it.
fn print_fresh<Custody: Custodian + Drop>(
    heap: Global,
    custody: Custody,
    file: &[u8],
) -> Result<String, AllocError>
    requires { (b : ℕ) → (Custody.Custodian.boxes custody).limit b ≡ program_terms.limit b }
    ensures { IfOk result (λ s. string_bytes s ≡ printed file.now) }
{
    let mut book = Book::new(custody, NetMargin::new(RATES), GrossMargin::new(RATES));
    print_run(heap, &mut book, file)
}

/// What the program prints of an order file, whole: it is run on a fresh book over a register for yen and a page for
/// all other assets, both with room for every box, net margin for house accounts and gross margin for customers'. Only
/// want of memory keeps it from an answer.
pub fn answer(heap: Global, file: &[u8]) -> Result<Vec<u8>, AllocError>
    ensures { IfOk result (λ v. v.items ≡ printed file.now) }
{
    let mut numbers = vec![in heap; 0u64; BOXES]?;
    let mut bytes = vec![in heap; 0u8; BOXES * 8]?;
    let custody = SplitCustodian::new(NumberRegister::new(&mut numbers), BytePage::new(&mut bytes));
    Ok(print_fresh(heap, custody, file)?.into_bytes())
}
