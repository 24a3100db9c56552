ghost use Rattle.std.specs.Prelude.{◌≡◌};
ghost use Rattle.rules.specs.Sizes.{box};
ghost use Rattle.figures.specs.Views.{without, without_bounded};

use crate::ledger::Ledger;
use rules::boxes::DepositBox;
use rules::row::AccountRow;

/// A ledger as it would be with some units gone from a box.
#[derive(Drop)]
pub(crate) struct After<'a, L> {
    ledger: &'a L,
    box_number: usize,
    units: u64,
}

impl<'a, L: Ledger> After<'a, L> {
    // A box and units, here and where they are handed on: the two are tried apart, so a struct would be taken apart
    // again.
    /// A ledger as it would be with some units gone from a box.
    pub(crate) fn new(ledger: &'a L, place: DepositBox, units: u64) -> Self
        ensures ledger { result.ledger.now ≡ ledger.now }
        ensures place { result.box_number ≡ box place.account place.pocket place.asset }
        ensures units { result.units ≡ units }
    {
        After {
            ledger,
            box_number: place.number(),
            units,
        }
    }
}

impl<L: Ledger> Ledger for After<'_, L> {
    ghost state = { λ after. without (L.Ledger.state after.ledger.now) after.box_number after.units };

    ghost laws = { without_bounded (λ after. after.ledger.now) (λ after. after.box_number) (λ after. after.units) L.Ledger.state L.Ledger.laws };

    ghost cuts = { λ after asset. L.Ledger.cuts after.ledger.now asset };

    fn row(&self, account: u16) -> AccountRow {
        self.ledger.row(account)
    }

    fn owner(&self, account: u16) -> Option<u8> {
        self.ledger.owner(account)
    }

    fn price(&self, asset: u8) -> u32 {
        self.ledger.price(asset)
    }

    fn haircut(&self, asset: u8) -> u16 {
        self.ledger.haircut(asset)
    }

    fn units(&self, box_number: usize) -> u64 {
        let held = self.ledger.units(box_number);
        if box_number == self.box_number {
            held.saturating_sub(self.units)
        } else {
            held
        }
    }
}
