ghost use Rattle.std.specs.Prelude.{◌≡◌, Some, IfOk, string_bytes};
ghost use Rattle.report.specs.Reports.{report};
ghost use Rattle.report.specs.Outcomes.{outcome_lines, AllAnswered};
ghost use Rattle.report.specs.Printed.{printed_from};

use crate::sections::{AccountLines, FaultLine, OrderLines, ParticipantLines};
use book::orders::MarginBook;
use orders::accepted::Accepted;
use orders::fault::FileFault;
use orders::run::run;
use std::alloc::{AllocError, Global};
use std::fmt;

/// Places for the answers to any file: no order is shorter than two bytes, and no file longer than 65,536.
const PLACES: usize = 32_768;

/// The report of a run, given its answers and the book after it.
#[derive(Drop)]
struct Report<'a, B> {
    answers: &'a [u8],
    book: &'a B,
}

impl<B: MarginBook> fmt::Display for Report<'_, B> {
    ghost output = { λ told. Some (report told.answers.now (B.MarginBook.state told.book.now)) };

    fn fmt<W: fmt::Write>(&self, f: &mut fmt::Formatter<W>) -> fmt::Result {
        let orders = OrderLines {
            answers: self.answers,
        };
        let accounts = AccountLines { book: self.book };
        let participants = ParticipantLines { book: self.book };
        write!(f, "{orders}{accounts}{participants}")
    }
}

/// What is printed of a file that was run, given the answer list and the book after it.
fn print_outcome<B: MarginBook>(
    heap: Global,
    outcome: Result<Accepted, FileFault>,
    answers: &[u8],
    book: &B,
) -> Result<String, AllocError>
    requires { AllAnswered outcome answers.now }
    ensures { IfOk result (λ s. string_bytes s ≡ outcome_lines outcome answers.now (B.MarginBook.state book.now)) }
{
    match outcome {
        Ok(Accepted { orders }) => Report {
            answers: &answers[..orders],
            book,
        }
        .to_string(heap),
        Err(fault) => FaultLine { fault }.to_string(heap),
    }
}

/// Runs a file on a book, and tells what is printed of it.
pub(crate) fn print_run<B: MarginBook>(
    heap: Global,
    book: &mut B,
    file: &[u8],
) -> Result<String, AllocError>
    ensures { IfOk result (λ s. string_bytes s ≡ printed_from (B.MarginBook.terms book.old) (B.MarginBook.state book.old) file.now) }
{
    // a run works without a heap, so it fills places that it is lent and answers how many it filled
    let mut places = vec![in heap; 0u8; PLACES]?;
    let answers = places.as_mut_slice();
    let outcome = run(book, file, answers);
    print_outcome(heap, outcome, answers, book)
}
