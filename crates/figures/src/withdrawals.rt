ghost use Rattle.std.specs.Prelude.{◌≡◌, nat_lt};
ghost use Rattle.rules.specs.Claims.{lesser};
ghost use Rattle.rules.specs.Orders.{taken, customer_draws, withdrawal_barred};

use crate::after::After;
use crate::ledger::Ledger;
use crate::owners::participant_over;
use crate::parts::total_parts;
use crate::pool::pool_value;
use crate::shares::own_pool;
use crate::values::pocket_value;
use rules::accounts::is_house;
use rules::boxes::DepositBox;
use rules::pocket::Pocket;

/// Whether it is the customer that withdraws, and not the participant.
pub fn customer_draws(account: u16, pocket: u8) -> bool
    ensures { result ≡ customer_draws account pocket }
{
    !is_house(account) && pocket == Pocket::Direct as u8
}

/// Whether a quantity that has fallen covers less of a bound than it did.
fn uncovers(after: u64, before: u64, bound: u64) -> bool
    ensures { result ≡ nat_lt after (lesser before bound) }
{
    after < before.min(bound)
}

/// Whether units must stay in a box of an account for what others count on. Out of a customer's direct pocket, the own
/// pool has to go on covering as much of the customer's debt as it did; out of a replacement pocket, that pocket as
/// much of the customer margin; and out of a replacement or a house pocket, the participant's pool as much of its
/// charge.
#[tactic(auto, unfolding(rules::specs::Orders::withdrawal_barred))]
pub fn is_withdrawal_barred<L: Ledger>(ledger: &L, place: DepositBox, units: u64) -> bool
    ensures { result ≡ withdrawal_barred (L.Ledger.state ledger.now) (taken (L.Ledger.state ledger.now) place.account place.pocket place.asset units) place.account place.pocket }
{
    let after = After::new(ledger, place, units);
    let DepositBox {
        account,
        pocket,
        ..
    } = place;
    let row = ledger.row(account);
    if customer_draws(account, pocket) {
        return uncovers(
            own_pool(&after, account),
            own_pool(ledger, account),
            row.declared.customer_debt,
        );
    }
    if pocket == Pocket::Replacement as u8 {
        let left = pocket_value(&after, account, Pocket::Replacement);
        let held = pocket_value(ledger, account, Pocket::Replacement);
        if uncovers(left, held, row.declared.customer_margin) {
            return true;
        }
    }
    let participant = participant_over(ledger, account);
    let sums = total_parts(ledger, participant);
    uncovers(pool_value(&after, participant), sums.pool, sums.charge)
}
