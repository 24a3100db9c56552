use crate::given::{Given, Step, walk};
use book::book::Book;
use book::orders::MarginBook;
use custody::page::BytePage;
use custody::register::NumberRegister;
use custody::split::SplitCustodian;
use margin::gross::GrossMargin;
use margin::net::NetMargin;
use rules::refusal::Refusal::{
    BelowMaintenance, BeyondEntitlement, OpenPositions, OutOfRange, TooFewUnits, WrongAccount,
    WrongAsset, WrongParticipant, WrongPocket, WrongStanding,
};
use std::process::Abort;
use std::test::Fail;

const LIMIT: u64 = 1_000_000_000_000_000;

const MOST: u32 = 1_000_000;

/// One history: its orders with their answers, and then the claim on account 8 and the claim and the sum retained of
/// participant 0.
struct History<'a> {
    steps: &'a [Step],
    claim: u64,
    participant: (u64, u64),
}

// Each on a fresh book over a split of a register and a page, both over used memory.
fn work_all(rt: &impl Abort, histories: &[History]) -> Result<(), Fail> {
    for history in histories {
        let mut numbers = [7; 512];
        let mut bytes = [7; 4096];
        let custody = SplitCustodian::new(
            NumberRegister::new(&mut numbers),
            BytePage::new(&mut bytes),
        );
        let rates = [60_000; 8];
        let mut book = Book::new(custody, NetMargin::new(rates), GrossMargin::new(rates));
        walk(rt, &mut book, history.steps);
        assert_eq!(rt;
            book.customer(8).map_or(0, |(claim, _)| claim),
            history.claim
        );
        assert_eq!(rt; book.participant(0)?, history.participant);
    }
    Ok(())
}

#[test]
fn withdrawals(rt: HostRuntime) -> Result<(), Fail> {
    work_all(
        &rt,
        &[
            // one yen more than the customer may claim, and what it may
            History {
                steps: &[
                    (Given::Open(8, 0), Ok(())),
                    (Given::Deposit(8, 0, 0, 150), Ok(())),
                    (Given::Declare(8, 0, 100, 80), Ok(())),
                    (Given::Withdraw(8, 0, 0, 51), Err(BeyondEntitlement)),
                    (Given::Withdraw(0, 0, 0, 20), Err(TooFewUnits)),
                    (Given::Withdraw(8, 1, 0, 20), Err(TooFewUnits)),
                    (Given::Withdraw(8, 0, 0, 50), Ok(())),
                ],
                claim: 0,
                participant: (20, 80),
            },
            // 41 yen of replacement margin are too much, and 40 are not
            History {
                steps: &[
                    (Given::Open(8, 0), Ok(())),
                    (Given::Deposit(8, 1, 0, 300), Ok(())),
                    (Given::Declare(8, 200, 50, 120), Ok(())),
                    (Given::Deposit(0, 0, 0, 30), Ok(())),
                    (Given::Declare(0, 0, 0, 20), Ok(())),
                    (Given::Withdraw(8, 1, 0, 41), Err(BeyondEntitlement)),
                    (Given::Withdraw(8, 1, 0, 40), Ok(())),
                ],
                claim: 150,
                participant: (0, 140),
            },
            // the maintenance amount before the debts, the holding before both
            History {
                steps: &[
                    (Given::Open(8, 0), Ok(())),
                    (Given::Deposit(8, 0, 0, 60_000), Ok(())),
                    (Given::Position(8, 0, 1, 0), Ok(())),
                    (Given::Declare(8, 0, 60_000, 0), Ok(())),
                    (Given::Withdraw(8, 0, 0, 60_001), Err(TooFewUnits)),
                    (Given::Withdraw(8, 0, 0, 1), Err(BelowMaintenance)),
                ],
                claim: 0,
                participant: (60_000, 0),
            },
            // replacement margin that does not exceed the customer margin stays, but what is worth nothing may leave
            History {
                steps: &[
                    (Given::Open(8, 0), Ok(())),
                    (Given::Mark(3, 5, 0), Ok(())),
                    (Given::Deposit(8, 1, 3, 3), Ok(())),
                    (Given::Declare(8, 200, 0, 0), Ok(())),
                    (Given::Withdraw(8, 1, 3, 1), Ok(())),
                    (Given::Withdraw(8, 1, 3, 1), Err(BeyondEntitlement)),
                ],
                claim: 1,
                participant: (0, 0),
            },
            // of yen not even one may leave
            History {
                steps: &[
                    (Given::Open(8, 0), Ok(())),
                    (Given::Deposit(8, 1, 0, 100), Ok(())),
                    (Given::Declare(8, 200, 0, 0), Ok(())),
                    (Given::Withdraw(8, 1, 0, 1), Err(BeyondEntitlement)),
                ],
                claim: 100,
                participant: (0, 0),
            },
            // units without a price leave in spite of debts
            History {
                steps: &[
                    (Given::Open(8, 0), Ok(())),
                    (Given::Deposit(8, 0, 3, 10), Ok(())),
                    (Given::Declare(8, 0, 100, 100), Ok(())),
                    (Given::Withdraw(8, 0, 3, 10), Ok(())),
                ],
                claim: 0,
                participant: (0, 0),
            },
        ],
    )
}

#[test]
fn seizures(rt: HostRuntime) -> Result<(), Fail> {
    work_all(
        &rt,
        &[
            // one share out of two at 5 takes 1 yen, though one share alone is worth nothing
            History {
                steps: &[
                    (Given::Open(8, 0), Ok(())),
                    (Given::Mark(3, 5, 0), Ok(())),
                    (Given::Deposit(8, 0, 3, 2), Ok(())),
                    (Given::Declare(8, 0, 1, 1), Ok(())),
                    (Given::Suspend(0), Ok(())),
                    (Given::Seize(0, 8, 0, 3, 8, 1), Ok(())),
                ],
                claim: 0,
                participant: (0, 0),
            },
            // one share out of two at 15 takes 2 yen, though one share alone is worth 1
            History {
                steps: &[
                    (Given::Open(8, 0), Ok(())),
                    (Given::Mark(3, 15, 0), Ok(())),
                    (Given::Deposit(8, 0, 3, 2), Ok(())),
                    (Given::Declare(8, 0, 1, 1), Ok(())),
                    (Given::Suspend(0), Ok(())),
                    (Given::Seize(0, 8, 0, 3, 8, 1), Err(BeyondEntitlement)),
                ],
                claim: 2,
                participant: (0, 1),
            },
            // a house account pays for itself, up to its own debt
            History {
                steps: &[
                    (Given::Deposit(0, 0, 0, 50), Ok(())),
                    (Given::Declare(0, 0, 0, 30), Ok(())),
                    (Given::Seize(1, 0, 0, 0, 0, 30), Err(WrongStanding)),
                    (Given::Suspend(0), Ok(())),
                    (Given::Seize(1, 0, 0, 0, 0, 31), Err(BeyondEntitlement)),
                    (Given::Seize(1, 0, 0, 0, 0, 30), Ok(())),
                ],
                claim: 0,
                participant: (20, 0),
            },
            // replacement margin pays for the rest of its own account, up to its excess
            History {
                steps: &[
                    (Given::Open(8, 0), Ok(())),
                    (Given::Deposit(8, 1, 0, 100), Ok(())),
                    (Given::Declare(8, 40, 0, 70), Ok(())),
                    (Given::Suspend(0), Ok(())),
                    (Given::Seize(1, 8, 1, 0, 8, 61), Err(BeyondEntitlement)),
                    (Given::Seize(1, 8, 1, 0, 8, 60), Ok(())),
                ],
                claim: 40,
                participant: (0, 0),
            },
            // an account pays for itself out of what stands in for customer margin, and no more
            History {
                steps: &[
                    (Given::Open(8, 0), Ok(())),
                    (Given::Deposit(8, 0, 0, 100), Ok(())),
                    (Given::Deposit(8, 1, 0, 50), Ok(())),
                    (Given::Declare(8, 20, 80, 80), Ok(())),
                    (Given::Suspend(0), Ok(())),
                    (Given::Seize(0, 8, 1, 0, 8, 21), Err(BeyondEntitlement)),
                    (Given::Seize(0, 8, 1, 0, 8, 20), Ok(())),
                ],
                claim: 40,
                participant: (30, 60),
            },
            // and no more than is kept of it
            History {
                steps: &[
                    (Given::Open(8, 0), Ok(())),
                    (Given::Deposit(8, 1, 0, 50), Ok(())),
                    (Given::Declare(8, 50, 30, 10), Ok(())),
                    (Given::Suspend(0), Ok(())),
                    (Given::Seize(0, 8, 1, 0, 8, 11), Err(BeyondEntitlement)),
                    (Given::Seize(0, 8, 1, 0, 8, 10), Ok(())),
                ],
                claim: 20,
                participant: (20, 0),
            },
            // another account's replacement margin pays 2 yen with one share of two
            History {
                steps: &[
                    (Given::Open(8, 0), Ok(())),
                    (Given::Open(9, 0), Ok(())),
                    (Given::Mark(3, 15, 0), Ok(())),
                    (Given::Deposit(9, 1, 3, 2), Ok(())),
                    (Given::Declare(8, 0, 0, 10), Ok(())),
                    (Given::Suspend(0), Ok(())),
                    (Given::Seize(1, 9, 1, 3, 8, 1), Ok(())),
                ],
                claim: 0,
                participant: (0, 1),
            },
            // and 1 yen with one share of three
            History {
                steps: &[
                    (Given::Open(8, 0), Ok(())),
                    (Given::Open(9, 0), Ok(())),
                    (Given::Mark(3, 15, 0), Ok(())),
                    (Given::Deposit(9, 1, 3, 3), Ok(())),
                    (Given::Declare(8, 0, 0, 10), Ok(())),
                    (Given::Suspend(0), Ok(())),
                    (Given::Seize(1, 9, 1, 3, 8, 1), Ok(())),
                ],
                claim: 0,
                participant: (0, 3),
            },
            // two participants before a wrong side, and two accounts on side 0
            History {
                steps: &[
                    (Given::Open(8, 0), Ok(())),
                    (Given::Open(9, 1), Ok(())),
                    (Given::Open(10, 0), Ok(())),
                    (Given::Seize(2, 8, 0, 0, 9, 1), Err(WrongParticipant)),
                    (Given::Seize(2, 8, 0, 0, 10, 1), Err(WrongPocket)),
                    (Given::Seize(0, 8, 0, 0, 10, 1), Err(WrongPocket)),
                    (Given::Seize(0, 0, 0, 0, 0, 1), Err(WrongPocket)),
                    (Given::Seize(1, 8, 0, 0, 8, 1), Err(WrongPocket)),
                    (Given::Seize(0, 8, 0, 4, 8, 0), Err(WrongAsset)),
                    (Given::Seize(0, 8, 0, 0, 8, 0), Err(OutOfRange)),
                    (Given::Seize(0, 8, 0, 0, 11, 1), Err(WrongAccount)),
                    (Given::Seize(0, 65_535, 255, 255, 8, 0), Err(WrongAccount)),
                    (Given::Suspend(0), Ok(())),
                    (Given::Seize(0, 8, 0, 0, 8, 1), Err(TooFewUnits)),
                ],
                claim: 0,
                participant: (0, 0),
            },
        ],
    )
}

#[test]
fn limits_and_standings(rt: HostRuntime) -> Result<(), Fail> {
    work_all(
        &rt,
        &[
            History {
                steps: &[
                    (Given::Mark(0, 100_001, 1_001), Err(WrongAsset)),
                    (Given::Mark(4, 100_001, 0), Err(WrongAsset)),
                    (Given::Mark(1, 100_001, 0), Err(OutOfRange)),
                    (Given::Mark(1, 100_000, 1_000), Ok(())),
                    (Given::Declare(0, 1, 0, 0), Err(OutOfRange)),
                    (Given::Declare(0, 0, 1, 0), Err(OutOfRange)),
                    (Given::Declare(0, 0, 0, LIMIT + 1), Err(OutOfRange)),
                    (Given::Declare(0, 0, 0, LIMIT), Ok(())),
                ],
                claim: 0,
                participant: (0, 0),
            },
            History {
                steps: &[
                    (Given::Open(8, 0), Ok(())),
                    (Given::Position(8, 7, MOST, MOST), Ok(())),
                    (Given::Position(8, 8, 0, 0), Err(OutOfRange)),
                    (Given::Position(8, 0, MOST + 1, 0), Err(OutOfRange)),
                    (Given::Suspend(0), Ok(())),
                    (Given::Withdraw(8, 0, 0, 1), Err(WrongStanding)),
                    (Given::Position(8, 7, MOST, MOST), Ok(())),
                    (Given::Position(8, 7, 0, 0), Ok(())),
                    (Given::Settle(0), Ok(())),
                    (Given::Position(8, 0, 0, 0), Err(WrongStanding)),
                    (Given::Position(8, 0, MOST + 1, 0), Err(OutOfRange)),
                ],
                claim: 0,
                participant: (0, 0),
            },
            // a default from beginning to end, and what is still done after it
            History {
                steps: &[
                    (Given::Open(8, 0), Ok(())),
                    (Given::Position(8, 0, 5, 0), Ok(())),
                    (Given::Settle(0), Err(WrongStanding)),
                    (Given::Suspend(0), Ok(())),
                    (Given::Suspend(0), Err(WrongStanding)),
                    (Given::Position(8, 0, 5, 5), Err(WrongStanding)),
                    (Given::Settle(0), Err(OpenPositions)),
                    (Given::Position(8, 0, 0, 0), Ok(())),
                    (Given::Settle(0), Ok(())),
                    (Given::Settle(0), Err(WrongStanding)),
                    (Given::Suspend(0), Err(WrongStanding)),
                    (Given::Open(9, 0), Err(WrongStanding)),
                    (Given::Deposit(8, 0, 0, 5), Ok(())),
                    (Given::Withdraw(8, 0, 0, 1), Ok(())),
                    (Given::Declare(8, 0, 2, 2), Ok(())),
                    (Given::Seize(0, 8, 0, 0, 8, 2), Ok(())),
                ],
                claim: 2,
                participant: (0, 0),
            },
        ],
    )
}
