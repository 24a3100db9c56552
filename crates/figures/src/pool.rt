ghost use Rattle.std.specs.Prelude.{◌≡◌, nat_lt};
ghost use Rattle.rules.specs.Figures.{pooled, pool, kept_from_pool};

use crate::ledger::Ledger;
use crate::owners::is_under;
use crate::parts::{Parts, parts_with};
use crate::shares::excess_value;
use crate::values::pocket_value;
use rules::accounts::is_house;
use rules::pocket::Pocket;
use rules::sizes::ACCOUNTS;

/// What an account adds to the pool of its participant: the house pocket whole, of a customer account the excess.
#[tactic(auto, unfolding(rules::specs::Figures::pooled))]
fn pooled_value<L: Ledger>(ledger: &L, account: u16) -> u64
    ensures { result ≡ pooled (L.Ledger.state ledger.now) account }
{
    if is_house(account) {
        pocket_value(ledger, account, Pocket::Direct)
    } else {
        excess_value(ledger, account)
    }
}

// A loop beside that of `total_parts`, since this one never asks for a direct pocket of a customer: a withdrawal wants
// the pool alone as it would be, and by all four sums it asked the custodian for a third more boxes. Nor one function
// with `open_lots`: the clauses on a closure for what an account adds would be longer than the two loops.
/// A participant's pool, without the other sums over its accounts.
#[tactic(auto, using(rules::proofs::Sums::sum_none), unfolding(rules::specs::Figures::pool, rules::specs::Figures::over))]
pub(crate) fn pool_value<L: Ledger>(ledger: &L, participant: u8) -> u64
    ensures { result ≡ pool (L.Ledger.state ledger.now) participant }
{
    let mut sum = 0;
    for account in 0..ACCOUNTS {
        if is_under(ledger, account, participant) {
            sum += pooled_value(ledger, account);
        }
    }
    sum
}

// A loop beside that of `total_parts`, since this one stops: a seizure takes a small part of what most pools hold, and
// with all accounts summed up before the comparison it took three times as long.
/// Whether the clearing house keeps less than a value from a participant's pool. Once the accounts looked at come to the
/// value in pool and in charge, the others cannot make it less.
#[tactic(auto, using(rules::proofs::Sums::sum_none), unfolding(rules::specs::Figures::kept_from_pool))]
pub(crate) fn pool_falls_short<L: Ledger>(ledger: &L, participant: u8, value: u64) -> bool
    ensures { result ≡ nat_lt (kept_from_pool (L.Ledger.state ledger.now) participant) value }
{
    let mut sums = Parts::none();
    for account in 0..ACCOUNTS {
        if sums.pool.min(sums.charge) >= value {
            return false;
        }
        sums = parts_with(ledger, participant, account, sums);
    }
    sums.pool.min(sums.charge) < value
}
