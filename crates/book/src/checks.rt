ghost use Rattle.std.specs.Prelude.{◌≡◌, not, [], ◌∷◌, nat_lt};
ghost use Rattle.rules.specs.declared.refusal.Refusal.TheVariants.{WrongAccount, WrongPocket, WrongAsset, OutOfRange};
ghost use Rattle.rules.specs.Sizes.{assets};
ghost use Rattle.rules.specs.States.{known};
ghost use Rattle.rules.specs.Refusals.{answered};
ghost use Rattle.rules.specs.Figures.{maintenance_amount};
ghost use Rattle.rules.specs.Orders.{no_such_pocket, units_out_of_range, tests, taken, leaving, withdraw, seize};

use crate::book::Book;
use crate::limits::{check_units, no_such_pocket, wrong_side};
use crate::orders::MarginBook;
use custody::custodian::Custodian;
use figures::coverage::covering_after;
use figures::owners::participant_over;
use figures::seizures::{is_seizure_barred, value_leaving};
use figures::withdrawals::is_withdrawal_barred;
use margin::method::MarginMethod;
use rules::accounts::is_house;
use rules::boxes::DepositBox;
use rules::refusal::Refusal;
use rules::seizure::Seizure;
use rules::standing::Standing;

impl<Custody: Custodian, HouseMethod: MarginMethod, CustomerMethod: MarginMethod> Book<
    Custody,
    HouseMethod,
    CustomerMethod,
> {
    /// What an account has to be covered by, by the method for its kind.
    #[tactic(auto, unfolding(rules::specs::Figures::maintenance_amount))]
    fn maintenance_amount(&self, account: u16) -> u64
        ensures { let s = ⟦<Self as MarginBook>⟧.state self.now in let T = ⟦<Self as MarginBook>⟧.terms self.now in result ≡ maintenance_amount T s account }
    {
        let counts = self.records.table.counts(account);
        if is_house(account) {
            self.house.maintenance_amount(&counts)
        } else {
            self.customers.maintenance_amount(&counts)
        }
    }

    /// Tries the refusals that a deposit and a withdrawal begin with, in their order: of the account, its pocket, the
    /// asset and the units.
    pub(crate) fn check_box(&self, place: DepositBox, units: u64) -> Result<(), Refusal>
        ensures { let s = ⟦<Self as MarginBook>⟧.state self.now in result ≡ answered ((WrongAccount, not (known s place.account)) ∷ ((WrongPocket, no_such_pocket place.account place.pocket) ∷ ((WrongAsset, not (nat_lt place.asset assets)) ∷ ((OutOfRange, units_out_of_range units) ∷ [])))) tt }
    {
        if !self.knows(place.account) {
            return Err(Refusal::WrongAccount);
        }
        if no_such_pocket(place.account, place.pocket) {
            return Err(Refusal::WrongPocket);
        }
        check_units(place.asset, units)
    }

    /// Tries the refusals of a withdrawal in their order. Nothing is taken before all have been tried.
    pub(crate) fn check_withdrawal(&self, place: DepositBox, units: u64) -> Result<(), Refusal>
        ensures { let s = ⟦<Self as MarginBook>⟧.state self.now in let T = ⟦<Self as MarginBook>⟧.terms self.now in result ≡ answered (tests T s (withdraw place.account place.pocket place.asset units)) tt }
    {
        self.check_box(place, units)?;
        let account = place.account;
        if self.standing_over(account) == Standing::Suspended {
            return Err(Refusal::WrongStanding);
        }
        if self.custody.held(place.number()) < units {
            return Err(Refusal::TooFewUnits);
        }
        if covering_after(self, place, units) < self.maintenance_amount(account) {
            return Err(Refusal::BelowMaintenance);
        }
        if is_withdrawal_barred(self, place, units) {
            return Err(Refusal::BeyondEntitlement);
        }
        Ok(())
    }

    /// Tries the refusals of a seizure in their order, and answers the market value that it would take out of the box.
    /// Nothing is taken before all have been tried.
    pub(crate) fn check_seizure(&self, seizure: Seizure) -> Result<u64, Refusal>
        ensures { let s = ⟦<Self as MarginBook>⟧.state self.now in let T = ⟦<Self as MarginBook>⟧.terms self.now in result ≡ answered (tests T s (seize seizure.side seizure.from.account seizure.from.pocket seizure.from.asset seizure.paid seizure.units)) (leaving s (taken s seizure.from.account seizure.from.pocket seizure.from.asset seizure.units) seizure.from.account seizure.from.pocket seizure.from.asset) }
    {
        let Seizure {
            from,
            units,
            paid,
            ..
        } = seizure;
        let DepositBox {
            account: paying,
            pocket,
            asset,
        } = from;
        if !self.knows(paying) || !self.knows(paid) {
            return Err(Refusal::WrongAccount);
        }
        if participant_over(self, paying) != participant_over(self, paid) {
            return Err(Refusal::WrongParticipant);
        }
        if no_such_pocket(paying, pocket) || wrong_side(seizure) {
            return Err(Refusal::WrongPocket);
        }
        check_units(asset, units)?;
        if self.standing_over(paying) == Standing::Active {
            return Err(Refusal::WrongStanding);
        }
        if self.custody.held(from.number()) < units {
            return Err(Refusal::TooFewUnits);
        }
        let value = value_leaving(self, from, units);
        if is_seizure_barred(self, seizure, value) {
            return Err(Refusal::BeyondEntitlement);
        }
        Ok(value)
    }
}
