ghost use Rattle.std.specs.Prelude.{◌≡◌};
ghost use Rattle.custody.specs.CustodyLaws.{split_lawful};
ghost use Rattle.custody.specs.Splits.{of_yen, split as split_of};

use crate::custodian::{Custodian, PutRefusal, TakeRefusal};
use rules::sizes::ASSETS_LEN;

/// Two custodians as one: the first has the boxes of yen, the second all others. Either may be a split itself.
#[derive(Drop)]
pub struct SplitCustodian<First, Second> {
    first: First,
    second: Second,
}

/// Whether a box is one of yen.
fn of_yen(box_number: usize) -> bool
    ensures { result ≡ of_yen box_number }
{
    box_number % ASSETS_LEN == 0
}

impl<First: Custodian, Second: Custodian> SplitCustodian<First, Second> {
    /// Takes both custodians as they are; making a split clears neither.
    pub fn new(first: First, second: Second) -> Self
        ensures first { result.first ≡ first }
        ensures second { result.second ≡ second }
    {
        SplitCustodian { first, second }
    }
}

impl<First: Custodian, Second: Custodian> Custodian for SplitCustodian<First, Second> {
    ghost boxes = { λ both. split_of (First.Custodian.boxes both.first) (Second.Custodian.boxes both.second) };

    ghost laws = { split_lawful (λ both. both.first) (λ both. both.second) First.Custodian.boxes Second.Custodian.boxes First.Custodian.laws Second.Custodian.laws };

    fn clear(&mut self) {
        self.first.clear();
        self.second.clear();
    }

    // Each call chooses its side itself: the sides differ in type, so a helper would take every call twice, as two
    // closures.
    fn held(&self, box_number: usize) -> u64 {
        if of_yen(box_number) {
            self.first.held(box_number)
        } else {
            self.second.held(box_number)
        }
    }

    fn limit(&self, box_number: usize) -> u64 {
        if of_yen(box_number) {
            self.first.limit(box_number)
        } else {
            self.second.limit(box_number)
        }
    }

    fn put(&mut self, box_number: usize, units: u64) -> Result<(), PutRefusal> {
        if of_yen(box_number) {
            self.first.put(box_number, units)
        } else {
            self.second.put(box_number, units)
        }
    }

    fn take(&mut self, box_number: usize, units: u64) -> Result<(), TakeRefusal> {
        if of_yen(box_number) {
            self.first.take(box_number, units)
        } else {
            self.second.take(box_number, units)
        }
    }
}
