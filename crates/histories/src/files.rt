use book::book::Book;
use book::orders::MarginBook;
use custody::register::NumberRegister;
use margin::net::NetMargin;
use orders::accepted::Accepted;
use orders::fault::FileFault;
use orders::run::run;
use rules::refusal::Refusal;
use std::process::Abort;
use std::test::Fail;

/// Opens account 8 under participant 0, deposits 150 yen there, and withdraws a yen of account 9, which nobody opened.
const FILE: [u8; 27] = [
    1, 8, 0, 5, 8, 0, 0, 0, 0, 0, 0, 0, 0, 0, 150, 6, 9, 0, 0, 0, 0, 0, 0, 0, 0, 0, 1,
];

/// The answer to an accepted file of so many orders.
fn of_orders(orders: usize) -> Result<Accepted, FileFault> {
    Ok(Accepted { orders })
}

/// The answer to a refused file.
fn faulty(refusal: Refusal, place: usize) -> Result<Accepted, FileFault> {
    Err(FileFault { refusal, place })
}

// The house account of participant 1 has 7 yen, which no refused file may touch.
fn untouched<B: MarginBook>(rt: &impl Abort, book: &B) {
    assert_eq!(rt; book.customer(8), Err(Refusal::WrongAccount));
    assert_eq!(rt; book.held(64), 0);
    assert_eq!(rt; book.held(8), 7);
}

// Files that are refused, each on a book in use and with a list that must stay as it is.
fn refused<B: MarginBook>(rt: &impl Abort, book: &mut B) {
    let mut answers = [99; 2];
    assert_eq!(rt;
        run(book, &FILE, &mut answers),
        faulty(Refusal::AnswerListTooShort, 3)
    );
    assert_eq!(rt; answers, [99; 2]);
    untouched(rt, book);
    let mut places = [99; 4];
    assert_eq!(rt;
        run(book, &FILE[0..26], &mut places),
        faulty(Refusal::BodyCutShort, 15)
    );
    assert_eq!(rt;
        run(book, &[1, 8, 0, 10], &mut places),
        faulty(Refusal::UnknownKind, 3)
    );
    assert_eq!(rt;
        run(book, &[1; 65_537], &mut places),
        faulty(Refusal::FileTooLong, 65_536)
    );
    assert_eq!(rt; places, [99; 4]);
    untouched(rt, book);
}

// A list with just enough places is filled, and one with more keeps the rest; a file goes on after a refused order.
fn accepted<B: MarginBook>(rt: &impl Abort, book: &mut B) {
    let mut places = [99; 4];
    assert_eq!(rt; run(book, &FILE, &mut places[0..3]), of_orders(3));
    assert_eq!(rt; places, [0, 0, 5, 99]);
    assert_eq!(rt; book.customer(8), Ok((150, 0)));
    assert_eq!(rt; run(book, &[], &mut []), of_orders(0));
    assert_eq!(rt; run(book, &[7, 1, 7, 1], &mut places), of_orders(2));
    assert_eq!(rt; places, [0, 10, 5, 99]);
}

#[test]
fn files_and_answer_lists(rt: HostRuntime) -> Result<(), Fail> {
    let mut memory = [0; 512];
    let method = NetMargin::new([60_000; 8]);
    let mut book = Book::new(NumberRegister::new(&mut memory), method, method);
    book.deposit(1, 0, 0, 7)?;
    refused(&rt, &mut book);
    accepted(&rt, &mut book);
    Ok(())
}
