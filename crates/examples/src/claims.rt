#[cfg(test)]
mod tests {
    use book::book::Book;
    use book::orders::MarginBook;
    use custody::register::NumberRegister;
    use margin::net::NetMargin;
    use std::process::Abort;
    use std::test::Fail;

    // A direct deposit of yen on account 8, under participant 0, with a customer's and a participant's debt, and what
    // the customer question and the participant question then answer.
    struct DirectDeposit {
        yen: u64,
        customer_debt: u64,
        participant_debt: u64,
        customer: (u64, u64),
        participant: (u64, u64),
    }

    fn compare(rt: &impl Abort, case: &DirectDeposit) -> Result<(), Fail> {
        let mut memory = [0; 512];
        let method = NetMargin::new([60_000; 8]);
        let mut book = Book::new(NumberRegister::new(&mut memory), method, method);
        book.open(8, 0)?;
        book.deposit(8, 0, 0, case.yen)?;
        book.declare(8, 0, case.customer_debt, case.participant_debt)?;
        assert_eq!(rt; book.customer(8), Ok(case.customer));
        assert_eq!(rt; book.participant(0), Ok(case.participant));
        Ok(())
    }

    // A test for each case, so that a run which fails names it.
    #[test]
    fn both_debts(rt: HostRuntime) -> Result<(), Fail> {
        compare(
            &rt,
            &DirectDeposit {
                yen: 150,
                customer_debt: 100,
                participant_debt: 80,
                customer: (50, 100),
                participant: (20, 80),
            },
        )
    }

    #[test]
    fn more_owed_than_deposited(rt: HostRuntime) -> Result<(), Fail> {
        compare(
            &rt,
            &DirectDeposit {
                yen: 60,
                customer_debt: 100,
                participant_debt: 0,
                customer: (0, 60),
                participant: (60, 0),
            },
        )
    }

    // Replacement margin beyond the customer margin, a house deposit and debts on both accounts; and a price.
    #[test]
    fn replacement_and_house(rt: HostRuntime) -> Result<(), Fail> {
        let mut memory = [0; 512];
        let method = NetMargin::new([60_000; 8]);
        let mut book = Book::new(NumberRegister::new(&mut memory), method, method);
        book.open(8, 0)?;
        book.deposit(8, 1, 0, 300)?;
        book.declare(8, 200, 50, 120)?;
        book.deposit(0, 0, 0, 30)?;
        book.declare(0, 0, 0, 20)?;
        assert_eq!(rt; book.customer(8), Ok((150, 50)));
        assert_eq!(rt; book.participant(0), Ok((40, 140)));
        assert_eq!(rt; book.participant(1), Ok((0, 0)));
        assert_eq!(rt; book.held(68), 300);
        book.mark(3, 1_234, 50)?;
        book.deposit(8, 0, 3, 7)?;
        assert_eq!(rt; book.customer(8), Ok((150 + 863, 50)));
        Ok(())
    }
}
