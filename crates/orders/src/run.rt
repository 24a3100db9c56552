ghost use Rattle.std.specs.Prelude.{◌≡◌, true, length, is_ok};
ghost use Rattle.orders.specs.Runs.{with_places, admitted, answered, state_after, list_after};
ghost use Rattle.orders.specs.Walks.{orders_in};

use crate::accepted::Accepted;
use crate::fault::FileFault;
use crate::reading::OrderFile;
use book::orders::MarginBook;
use rules::refusal::Refusal;

/// Looks through a file that is to be answered in so many places, and tells why it is refused, if it is.
fn check(file: OrderFile, places: usize) -> Result<Accepted, FileFault>
    ensures { result ≡ answered (with_places places (orders_in file.entry)) }
{
    // Not by `try_fold`, whose closure the check did not prove callable: a `for` with `?` tells the first fault.
    let mut orders = 0;
    for order in file.orders() {
        order?;
        orders += 1;
    }
    if places < orders {
        return Err(FileFault::new(Refusal::AnswerListTooShort, orders));
    }
    Ok(Accepted { orders })
}

/// Performs the orders of an admitted file one after the other, and answers each in its place of the list.
#[tactic(auto, using(crate::proofs::Going::done, crate::proofs::Going::no_more))]
fn perform_all<B: MarginBook>(book: &mut B, file: OrderFile, answers: &mut [u8])
    requires { is_ok (with_places (length answers.old) (orders_in file)) ≡ true }
    ensures state { B.MarginBook.state book.new ≡ state_after (B.MarginBook.terms book.old) (B.MarginBook.state book.old) (orders_in file.entry) }
    ensures list { answers.new ≡ list_after (B.MarginBook.terms book.old) (B.MarginBook.state book.old) answers.old (orders_in file.entry) }
    ensures same { B.MarginBook.terms book.new ≡ B.MarginBook.terms book.old }
{
    let mut orders = file.orders();
    // The orders are not zipped with the list: the check has no proof yet for an iterator that holds a `&mut` beside a
    // struct with a ghost field.
    for answer in answers.iter_mut() {
        // An admitted file has no fault, so where no order comes it is at its end.
        let Some(Ok(order)) = orders.next() else {
            break;
        };
        *answer = order.perform(book);
    }
}

// Answers as bytes and not as outcomes: the list is the caller's, who may print it or send it on.
/// Runs a whole file on a book.
///
/// The file is looked through first. It is refused, and then nothing is changed at all, with
/// - `FileTooLong` and place 65,536 where it has more bytes than that;
/// - `UnknownKind` or `BodyCutShort`, whichever comes first, and the place of that order's kind byte;
/// - `AnswerListTooShort` and the number of orders where `answers` has fewer places than that.
///
/// Else each order is performed in turn, whether or not those before it were accepted, and the number of its outcome is
/// written to its place of `answers`. Further places stay as they are.
pub fn run<B: MarginBook>(
    book: &mut B,
    file: &[u8],
    answers: &mut [u8],
) -> Result<Accepted, FileFault>
    ensures answer { result ≡ answered (admitted file.now (length answers.old)) }
    ensures state { B.MarginBook.state book.new ≡ state_after (B.MarginBook.terms book.old) (B.MarginBook.state book.old) (admitted file.now (length answers.old)) }
    ensures list { answers.new ≡ list_after (B.MarginBook.terms book.old) (B.MarginBook.state book.old) answers.old (admitted file.now (length answers.old)) }
    ensures same { B.MarginBook.terms book.new ≡ B.MarginBook.terms book.old }
{
    let file = OrderFile::new(file)?;
    let accepted = check(file, answers.len())?;
    perform_all(book, file, answers);
    Ok(accepted)
}
