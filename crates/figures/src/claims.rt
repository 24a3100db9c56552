ghost use Rattle.std.specs.Prelude.{◌≡◌};
ghost use Rattle.rules.specs.Figures.{claim, withheld, participant_claim, retained};

use crate::ledger::Ledger;
use crate::parts::total_parts;
use crate::shares::customer_shares;
use crate::tiers::split;

/// What the customer of an account may claim, and what is withheld from it. (Of a customer account: a house account
/// has no customer, and the question of a book about one is refused.)
pub fn customer_figures<L: Ledger>(ledger: &L, account: u16) -> (u64, u64)
    ensures { result ≡ (claim (L.Ledger.state ledger.now) account, withheld (L.Ledger.state ledger.now) account) }
{
    let shares = customer_shares(ledger, account);
    (shares.claim, shares.withheld)
}

/// What a participant may claim, and what the clearing house retains of its and its customers' deposits.
#[tactic(auto, unfolding(rules::specs::Figures::participant_claim, rules::specs::Figures::retained, rules::specs::Figures::kept_from_pool))]
pub fn participant_figures<L: Ledger>(ledger: &L, participant: u8) -> (u64, u64)
    ensures { result ≡ (participant_claim (L.Ledger.state ledger.now) participant, retained (L.Ledger.state ledger.now) participant) }
{
    let sums = total_parts(ledger, participant);
    let (free, kept_from_pool) = split(sums.pool, sums.charge);
    (free + sums.passed_on, kept_from_pool + sums.kept)
}
