use crate::given::{Given, Step, give};
use book::book::Book;
use book::orders::MarginBook;
use custody::page::BytePage;
use custody::register::NumberRegister;
use custody::split::SplitCustodian;
use margin::gross::GrossMargin;
use margin::net::NetMargin;
use rules::refusal::Refusal::{
    BelowMaintenance, BeyondEntitlement, OpenPositions, WrongAccount, WrongPocket, WrongStanding,
};
use std::process::Abort;
use std::test::Fail;

/// What a control account knows of one account: who it is under, once it is open, and its units, pocket by pocket and
/// in each asset by asset.
#[derive(Clone, Copy)]
struct Holding {
    owner: Option<u8>,
    units: [u64; 8],
}

impl Holding {
    /// The units of an asset in a pocket.
    fn units_of(&mut self, pocket: u8, asset: u8) -> Option<&mut u64> {
        self.units
            .get_mut(usize::from(pocket) * 4 + usize::from(asset))
    }
}

/// A control account in plain arithmetic: who is under whom, prices, and the units that orders moved.
#[derive(Drop)]
struct Control {
    holdings: [Holding; 64],
    prices: [u64; 4],
}

impl Control {
    fn new() -> Control {
        let mut holdings = [Holding {
            owner: None,
            units: [0; 8],
        }; 64];
        for (house, participant) in holdings.iter_mut().zip(0..8) {
            house.owner = Some(participant);
        }
        Control {
            holdings,
            prices: [1, 0, 0, 0],
        }
    }

    /// Enters an accepted order.
    fn enter(&mut self, given: Given) {
        match given {
            Given::Open(account, participant) => {
                if let Some(holding) = self.holdings.get_mut(usize::from(account)) {
                    holding.owner = Some(participant);
                }
            }
            Given::Mark(asset, price, _) => {
                if let Some(marked) = self.prices.get_mut(usize::from(asset)) {
                    *marked = u64::from(price);
                }
            }
            Given::Deposit(account, pocket, asset, more) => {
                if let Some(holding) = self.holdings.get_mut(usize::from(account))
                    && let Some(units) = holding.units_of(pocket, asset)
                {
                    *units = units.wrapping_add(more);
                }
            }
            Given::Withdraw(account, pocket, asset, fewer)
            | Given::Seize(_, account, pocket, asset, _, fewer) => {
                if let Some(holding) = self.holdings.get_mut(usize::from(account))
                    && let Some(units) = holding.units_of(pocket, asset)
                {
                    *units = units.wrapping_sub(fewer);
                }
            }
            _ => {}
        }
    }

    /// What the units in a pocket are worth: yen, foreign currency, bonds and shares.
    fn worth(&self, units: &[u64]) -> u64 {
        let mut sum: u64 = 0;
        for ((units, price), scale) in units.iter().zip(&self.prices).zip([1, 10_000, 10_000, 10]) {
            sum = sum.wrapping_add(units.wrapping_mul(*price) / scale);
        }
        sum
    }

    /// What the boxes of a participant's accounts are worth.
    fn total(&self, participant: u8) -> u64 {
        let mut sum: u64 = 0;
        for holding in &self.holdings {
            if holding.owner == Some(participant) {
                for pocket in holding.units.chunks_exact(4) {
                    sum = sum.wrapping_add(self.worth(pocket));
                }
            }
        }
        sum
    }
}

/// What the book answers for all parties under a participant, added up.
fn answered<B: MarginBook>(book: &B, control: &Control, participant: u8) -> Result<u64, Fail> {
    let (claim, retained) = book.participant(participant)?;
    let mut sum = claim.wrapping_add(retained);
    for (account, holding) in (8..).zip(&control.holdings[8..]) {
        if holding.owner == Some(participant) {
            let (customer, _) = book.customer(account)?;
            sum = sum.wrapping_add(customer);
        }
    }
    Ok(sum)
}

/// Gives orders one after the other, compares each answer, and after each of them compares what all parties are told
/// with the control account.
fn balanced_walk<B: MarginBook>(rt: &impl Abort, book: &mut B, steps: &[Step]) -> Result<(), Fail> {
    let mut control = Control::new();
    for (given, expected) in steps {
        let answer = give(book, *given);
        assert_eq!(rt; answer, *expected);
        if answer.is_ok() {
            control.enter(*given);
        }
        for participant in 0..8 {
            assert_eq!(rt;
                answered(book, &control, participant)?,
                control.total(participant)
            );
        }
    }
    Ok(())
}

// Two participants, one of which defaults: every kind of order, refused and accepted, with prices that move between.
#[test]
fn default_in_balance(rt: HostRuntime) -> Result<(), Fail> {
    let mut numbers = [7; 512];
    let mut bytes = [7; 4096];
    let custody = SplitCustodian::new(NumberRegister::new(&mut numbers), BytePage::new(&mut bytes));
    let rates = [60_000; 8];
    let mut book = Book::new(custody, NetMargin::new(rates), GrossMargin::new(rates));
    balanced_walk(
        &rt,
        &mut book,
        &[
            (Given::Open(8, 0), Ok(())),
            (Given::Open(9, 0), Ok(())),
            (Given::Open(10, 1), Ok(())),
            (Given::Open(8, 1), Err(WrongAccount)),
            (Given::Mark(1, 15_025, 50), Ok(())),
            (Given::Mark(3, 1_234, 300), Ok(())),
            (Given::Deposit(8, 0, 1, 12_345), Ok(())),
            (Given::Deposit(8, 1, 0, 300), Ok(())),
            (Given::Deposit(9, 1, 3, 7), Ok(())),
            (Given::Deposit(10, 0, 0, 150), Ok(())),
            (Given::Deposit(0, 0, 0, 30), Ok(())),
            (Given::Deposit(0, 1, 0, 30), Err(WrongPocket)),
            (Given::Declare(8, 200, 5_000, 9_120), Ok(())),
            (Given::Declare(9, 500, 0, 40), Ok(())),
            (Given::Declare(0, 0, 0, 20), Ok(())),
            (Given::Declare(10, 0, 100, 80), Ok(())),
            (Given::Position(9, 0, 1, 0), Ok(())),
            (Given::Withdraw(8, 0, 1, 100), Ok(())),
            (Given::Withdraw(9, 1, 3, 1), Err(BelowMaintenance)),
            (Given::Withdraw(10, 0, 0, 51), Err(BeyondEntitlement)),
            (Given::Withdraw(10, 0, 0, 50), Ok(())),
            (Given::Suspend(0), Ok(())),
            (Given::Withdraw(8, 0, 1, 100), Err(WrongStanding)),
            (Given::Mark(1, 9_999, 50), Ok(())),
            (Given::Seize(0, 8, 0, 1, 8, 1_000), Ok(())),
            (Given::Seize(0, 8, 1, 0, 8, 201), Err(BeyondEntitlement)),
            (Given::Seize(0, 8, 1, 0, 8, 200), Ok(())),
            (Given::Seize(1, 0, 0, 0, 9, 30), Ok(())),
            (Given::Seize(1, 9, 1, 3, 8, 2), Ok(())),
            (Given::Seize(1, 8, 0, 0, 8, 1), Err(WrongPocket)),
            (Given::Settle(0), Err(OpenPositions)),
            (Given::Position(9, 0, 0, 0), Ok(())),
            (Given::Settle(0), Ok(())),
            (Given::Mark(3, 5, 300), Ok(())),
            (Given::Withdraw(8, 0, 1, 1), Ok(())),
        ],
    )
}
