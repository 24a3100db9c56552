ghost use Rattle.std.specs.Prelude.{◌≡◌, if◌then◌else◌, nat_lt};
ghost use Rattle.rules.specs.Sizes.{assets};
ghost use Rattle.rules.specs.Orders.{taken, leaving, seizure_barred};

use crate::after::After;
use crate::ledger::Ledger;
use crate::owners::participant_over;
use crate::parts::account_parts;
use crate::pool::pool_falls_short;
use crate::shares::{customer_shares, excess_value, replaced_value};
use crate::values::box_value;
use rules::boxes::DepositBox;
use rules::pocket::Pocket;
use rules::seizure::{Seizure, Side};
use rules::sizes::ASSETS;

/// The market value that leaves a box with some units: what the box is worth before, less what it is worth after.
/// (0 for an asset that there is not.)
pub fn value_leaving<L: Ledger>(ledger: &L, place: DepositBox, units: u64) -> u64
    ensures { result ≡ (if nat_lt place.asset assets then leaving (L.Ledger.state ledger.now) (taken (L.Ledger.state ledger.now) place.account place.pocket place.asset units) place.account place.pocket place.asset else 0) }
{
    if place.asset >= ASSETS {
        return 0;
    }
    let after = After::new(ledger, place, units);
    box_value(ledger, place).saturating_sub(box_value(&after, place))
}

// The value stands beside the seizure, as it does where it is paid: it is worked out once, and is no part of the order.
/// Whether a value may not be seized: there is none, or it passes what the clearing house keeps of the paying account
/// (side 0), or from the pool for the rest of the paid account's debt (side 1).
#[tactic(auto, unfolding(rules::specs::Orders::seizure_barred))]
pub fn is_seizure_barred<L: Ledger>(ledger: &L, seizure: Seizure, value: u64) -> bool
    ensures { result ≡ seizure_barred (L.Ledger.state ledger.now) seizure.side seizure.from.account seizure.from.pocket seizure.paid value }
{
    let DepositBox {
        account: paying,
        pocket,
        ..
    } = seizure.from;
    if value == 0 {
        return true;
    }
    if seizure.side == Side::Itself as u8 {
        return customer_shares(ledger, paying).kept < value
            || pocket == Pocket::Replacement as u8 && replaced_value(ledger, paying) < value;
    }
    pool_falls_short(ledger, participant_over(ledger, paying), value)
        || account_parts(ledger, seizure.paid).charge < value
        || pocket == Pocket::Replacement as u8 && excess_value(ledger, paying) < value
}
