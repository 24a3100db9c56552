ghost use Rattle.std.specs.Prelude.{◌≡◌};
ghost use Rattle.rules.specs.Figures.{covering_value as covering_value_of};
ghost use Rattle.rules.specs.Orders.{taken};

use crate::after::After;
use crate::ledger::Ledger;
use crate::values::applied_pocket;
use rules::accounts::is_house;
use rules::boxes::DepositBox;
use rules::pocket::Pocket;

/// What an account's margin is measured by: the applied value of all its boxes.
#[tactic(auto, unfolding(rules::specs::Figures::covering_value, rules::specs::Figures::applied_pocket))]
fn covering_value<L: Ledger>(ledger: &L, account: u16) -> u64
    ensures { result ≡ covering_value_of (L.Ledger.state ledger.now) account }
{
    let direct = applied_pocket(ledger, account, Pocket::Direct);
    if is_house(account) {
        return direct;
    }
    direct + applied_pocket(ledger, account, Pocket::Replacement)
}

/// What an account's margin would be measured by once some units had left one of its boxes.
pub fn covering_after<L: Ledger>(ledger: &L, place: DepositBox, units: u64) -> u64
    ensures { result ≡ covering_value_of (taken (L.Ledger.state ledger.now) place.account place.pocket place.asset units) place.account }
{
    let after = After::new(ledger, place, units);
    covering_value(&after, place.account)
}
