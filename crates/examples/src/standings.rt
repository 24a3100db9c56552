#[cfg(test)]
mod tests {
    use book::book::Book;
    use book::orders::MarginBook;
    use custody::register::NumberRegister;
    use margin::net::NetMargin;
    use rules::refusal::Refusal;
    use std::process::Abort;

    const MOST: u32 = 1_000_000;

    // The runtime and the book are passed on as they are: a struct of both would be taken apart in each function.

    // A default from beginning to end.
    fn default_run<B: MarginBook>(rt: &impl Abort, book: &mut B) {
        assert_eq!(rt; book.open(8, 0), Ok(()));
        assert_eq!(rt; book.position(8, 0, 5, 0), Ok(()));
        assert_eq!(rt; book.settle(0), Err(Refusal::WrongStanding));
        assert_eq!(rt; book.suspend(0), Ok(()));
        assert_eq!(rt; book.suspend(0), Err(Refusal::WrongStanding));
        assert_eq!(rt; book.position(8, 0, 5, 5), Err(Refusal::WrongStanding));
        assert_eq!(rt; book.settle(0), Err(Refusal::OpenPositions));
        assert_eq!(rt; book.position(8, 0, 0, 0), Ok(()));
        assert_eq!(rt; book.settle(0), Ok(()));
        assert_eq!(rt; book.settle(0), Err(Refusal::WrongStanding));
        assert_eq!(rt; book.suspend(0), Err(Refusal::WrongStanding));
        assert_eq!(rt; book.open(9, 0), Err(Refusal::WrongStanding));
    }

    // What a settled participant's accounts may still be given.
    fn settled<B: MarginBook>(rt: &impl Abort, book: &mut B) {
        assert_eq!(rt; book.position(8, 0, 0, 0), Err(Refusal::WrongStanding));
        assert_eq!(rt; book.position(8, 0, MOST + 1, 0), Err(Refusal::OutOfRange));
        assert_eq!(rt; book.deposit(8, 0, 0, 5), Ok(()));
        assert_eq!(rt; book.declare(8, 0, 2, 2), Ok(()));
        assert_eq!(rt; book.customer(8), Ok((3, 2)));
    }

    // Limits of positions, and a participant whose house account alone has a lot.
    fn limits<B: MarginBook>(rt: &impl Abort, book: &mut B) {
        assert_eq!(rt; book.position(1, 7, MOST, MOST), Ok(()));
        assert_eq!(rt; book.position(1, 8, 0, 0), Err(Refusal::OutOfRange));
        assert_eq!(rt; book.position(1, 0, 0, MOST + 1), Err(Refusal::OutOfRange));
        assert_eq!(rt;
            book.position(65_535, 255, 0, 0),
            Err(Refusal::WrongAccount)
        );
        assert_eq!(rt; book.suspend(1), Ok(()));
        assert_eq!(rt; book.settle(1), Err(Refusal::OpenPositions));
        assert_eq!(rt; book.suspend(8), Err(Refusal::WrongParticipant));
        assert_eq!(rt; book.settle(255), Err(Refusal::WrongParticipant));
    }

    #[test]
    fn standings(rt: HostRuntime) {
        let mut memory = [0; 512];
        let method = NetMargin::new([60_000; 8]);
        let mut book = Book::new(NumberRegister::new(&mut memory), method, method);
        default_run(&rt, &mut book);
        settled(&rt, &mut book);
        limits(&rt, &mut book);
    }
}
