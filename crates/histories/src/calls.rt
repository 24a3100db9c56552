use crate::given::{Given, walk};
use book::book::Book;
use custody::custodian::{Custodian, PutRefusal, TakeRefusal};
use custody::register::NumberRegister;
use margin::gross::GrossMargin;
use rules::refusal::Refusal::{BelowMaintenance, BeyondEntitlement, TooFewUnits};

/// A custodian that counts the calls which may change its boxes. What it holds is with another.
#[derive(Drop)]
struct Counting<'a, Custody> {
    custody: Custody,
    puts: &'a mut u64,
    takes: &'a mut u64,
}

impl<Custody: Custodian> Custodian for Counting<'_, Custody> {
    ghost boxes = { λ counting. Custody.Custodian.boxes counting.custody };

    ghost laws = { record { bounded = λ counting. Custody.Custodian.laws.bounded counting.custody; none_beyond = λ counting. Custody.Custodian.laws.none_beyond counting.custody; within = λ counting. Custody.Custodian.laws.within counting.custody } };

    fn clear(&mut self) {
        self.custody.clear();
    }

    fn held(&self, box_number: usize) -> u64 {
        self.custody.held(box_number)
    }

    fn limit(&self, box_number: usize) -> u64 {
        self.custody.limit(box_number)
    }

    // Put and take count apart, as the two calls of the trait are apart.
    fn put(&mut self, box_number: usize, units: u64) -> Result<(), PutRefusal> {
        *self.puts = self.puts.wrapping_add(1);
        self.custody.put(box_number, units)
    }

    fn take(&mut self, box_number: usize, units: u64) -> Result<(), TakeRefusal> {
        *self.takes = self.takes.wrapping_add(1);
        self.custody.take(box_number, units)
    }
}

// Refused withdrawals and seizures never reach the boxes: nothing is taken and put back. Accepted ones take once.
#[test]
fn refused_before_taken(rt: HostRuntime) {
    let mut memory = [0; 512];
    let mut puts = 0;
    let mut takes = 0;
    let counting = Counting {
        custody: NumberRegister::new(&mut memory),
        puts: &mut puts,
        takes: &mut takes,
    };
    let method = GrossMargin::new([60_000; 8]);
    let mut book = Book::new(counting, method, method);
    walk(
        &rt,
        &mut book,
        &[
            (Given::Open(8, 0), Ok(())),
            (Given::Deposit(8, 0, 0, 60_150), Ok(())),
            (Given::Position(8, 0, 1, 0), Ok(())),
            (Given::Declare(8, 0, 60_100, 60_080), Ok(())),
            (Given::Withdraw(8, 0, 0, 60_151), Err(TooFewUnits)),
            (Given::Withdraw(8, 0, 0, 151), Err(BelowMaintenance)),
            (Given::Withdraw(8, 0, 0, 51), Err(BeyondEntitlement)),
            (Given::Withdraw(8, 0, 0, 50), Ok(())),
            (Given::Suspend(0), Ok(())),
            (Given::Seize(0, 8, 0, 0, 8, 60_101), Err(TooFewUnits)),
            (Given::Seize(0, 8, 0, 0, 8, 60_081), Err(BeyondEntitlement)),
            (Given::Seize(0, 8, 0, 0, 8, 60_080), Ok(())),
        ],
    );
    assert_eq!(rt; puts, 1);
    assert_eq!(rt; takes, 2);
}
