#[cfg(test)]
mod tests {
    use book::book::Book;
    use book::orders::MarginBook;
    use custody::register::NumberRegister;
    use margin::net::NetMargin;
    use rules::refusal::Refusal;
    use std::process::Abort;
    use std::test::Fail;

    // One yen above the most that an amount can be.
    const TOO_MUCH: u64 = 1_000_000_000_000_001;

    // The runtime and the book are passed on as they are: a struct of both would be taken apart in each function.

    // The figures of the case that bad input must leave as they are.
    fn as_before<B: MarginBook>(rt: &impl Abort, book: &B) {
        assert_eq!(rt; book.customer(8), Ok((50, 100)));
        assert_eq!(rt; book.participant(0), Ok((20, 80)));
        assert_eq!(rt; book.held(64), 150);
    }

    fn bad_openings<B: MarginBook>(rt: &impl Abort, book: &mut B) {
        assert_eq!(rt; book.open(7, 0), Err(Refusal::WrongAccount));
        assert_eq!(rt; book.open(64, 0), Err(Refusal::WrongAccount));
        assert_eq!(rt; book.open(65_535, 255), Err(Refusal::WrongAccount));
        assert_eq!(rt; book.open(8, 1), Err(Refusal::WrongAccount));
        assert_eq!(rt; book.open(9, 8), Err(Refusal::WrongParticipant));
    }

    fn bad_marks<B: MarginBook>(rt: &impl Abort, book: &mut B) {
        assert_eq!(rt; book.mark(0, 100_001, 1_001), Err(Refusal::WrongAsset));
        assert_eq!(rt; book.mark(4, 0, 0), Err(Refusal::WrongAsset));
        assert_eq!(rt; book.mark(1, 100_001, 0), Err(Refusal::OutOfRange));
        assert_eq!(rt; book.mark(3, 0, 1_001), Err(Refusal::OutOfRange));
    }

    fn bad_declarations<B: MarginBook>(rt: &impl Abort, book: &mut B) {
        assert_eq!(rt;
            book.declare(65_535, TOO_MUCH, 0, 0),
            Err(Refusal::WrongAccount)
        );
        assert_eq!(rt; book.declare(9, 0, 0, 0), Err(Refusal::WrongAccount));
        assert_eq!(rt; book.declare(8, TOO_MUCH, 0, 0), Err(Refusal::OutOfRange));
        assert_eq!(rt; book.declare(8, 0, TOO_MUCH, 0), Err(Refusal::OutOfRange));
        assert_eq!(rt; book.declare(8, 0, 0, u64::MAX), Err(Refusal::OutOfRange));
        assert_eq!(rt; book.declare(0, 1, 0, 0), Err(Refusal::OutOfRange));
        assert_eq!(rt; book.declare(0, 0, 1, 0), Err(Refusal::OutOfRange));
    }

    fn bad_deposits<B: MarginBook>(rt: &impl Abort, book: &mut B) {
        assert_eq!(rt;
            book.deposit(65_535, 255, 255, 0),
            Err(Refusal::WrongAccount)
        );
        assert_eq!(rt; book.deposit(8, 255, 255, 0), Err(Refusal::WrongPocket));
        assert_eq!(rt; book.deposit(0, 1, 0, 1), Err(Refusal::WrongPocket));
        assert_eq!(rt; book.deposit(8, 0, 4, 0), Err(Refusal::WrongAsset));
        assert_eq!(rt; book.deposit(8, 0, 0, 0), Err(Refusal::OutOfRange));
        assert_eq!(rt; book.deposit(8, 0, 0, u64::MAX), Err(Refusal::OutOfRange));
        assert_eq!(rt;
            book.deposit(8, 0, 0, 100_000_000_000),
            Err(Refusal::OverLimit)
        );
    }

    fn bad_questions<B: MarginBook>(rt: &impl Abort, book: &B) {
        assert_eq!(rt; book.customer(0), Err(Refusal::WrongAccount));
        assert_eq!(rt; book.customer(9), Err(Refusal::WrongAccount));
        assert_eq!(rt; book.customer(65_535), Err(Refusal::WrongAccount));
        assert_eq!(rt; book.participant(8), Err(Refusal::WrongParticipant));
        assert_eq!(rt; book.held(512), 0);
        assert_eq!(rt; book.held(usize::MAX), 0);
    }

    #[test]
    fn bad_input_changes_nothing(rt: HostRuntime) -> Result<(), Fail> {
        let mut memory = [0; 512];
        let method = NetMargin::new([60_000; 8]);
        let mut book = Book::new(NumberRegister::new(&mut memory), method, method);
        book.open(8, 0)?;
        book.deposit(8, 0, 0, 150)?;
        book.declare(8, 0, 100, 80)?;
        bad_openings(&rt, &mut book);
        bad_marks(&rt, &mut book);
        bad_declarations(&rt, &mut book);
        bad_deposits(&rt, &mut book);
        bad_questions(&rt, &book);
        as_before(&rt, &book);
        Ok(())
    }

    // Without memory every deposit is refused, and nothing else is.
    #[test]
    fn empty_memory(rt: HostRuntime) {
        let mut memory = [];
        let method = NetMargin::new([60_000; 8]);
        let mut book = Book::new(NumberRegister::new(&mut memory), method, method);
        assert_eq!(rt; book.deposit(0, 0, 0, 1), Err(Refusal::OverLimit));
        assert_eq!(rt; book.declare(0, 0, 0, 5), Ok(()));
        assert_eq!(rt; book.participant(0), Ok((0, 0)));
    }
}
