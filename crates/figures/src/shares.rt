ghost use Rattle.std.specs.Prelude.{◌≡◌, ◌≤◌};
ghost use Rattle.rules.specs.Claims.{lesser};
ghost use Rattle.rules.specs.Figures.{replacement, excess, own_pool as own_pool_of};
ghost use Rattle.figures.specs.Bounds.{most_pocket};
ghost use Rattle.figures.specs.Parts.{shares_of, customer_shares};

use crate::ledger::Ledger;
use crate::tiers::split;
use crate::values::pocket_value;
use rules::pocket::Pocket;
use rules::row::AccountRow;

/// How what is deposited for a customer account is shared out, in yen.
#[derive(Clone, Copy)]
pub(crate) struct Shares {
    /// What the customer may claim.
    pub(crate) claim: u64,
    /// What is withheld for the customer's debt.
    pub(crate) withheld: u64,
    /// What the clearing house keeps of it for the participant's debt on the account.
    pub(crate) kept: u64,
    /// What of it is passed on to the participant.
    pub(crate) passed_on: u64,
    /// The rest of the participant's debt.
    pub(crate) rest: u64,
    /// Replacement margin beyond the customer margin.
    pub(crate) excess: u64,
}

/// Shares out the market values of the two pockets of a customer account, tier by tier.
fn share_out(direct: u64, replacement: u64, row: &AccountRow) -> Shares
    requires direct { direct ≤ most_pocket }
    requires replacement { replacement ≤ most_pocket }
    ensures { result ≡ shares_of direct replacement row.now }
{
    let (excess, replaced) = split(replacement, row.declared.customer_margin);
    let (claim, withheld) = split(direct + replaced, row.declared.customer_debt);
    let (passed_on, kept) = split(withheld, row.declared.participant_debt);
    let (rest, _) = split(row.declared.participant_debt, withheld);
    Shares {
        claim,
        withheld,
        kept,
        passed_on,
        rest,
        excess,
    }
}

/// How what is deposited for a customer account is shared out.
#[tactic(auto, unfolding(rules::specs::Figures::own_pool, rules::specs::Figures::excess, rules::specs::Figures::withheld, rules::specs::Figures::claim, rules::specs::Figures::kept, rules::specs::Figures::passed_on))]
pub(crate) fn customer_shares<L: Ledger>(ledger: &L, account: u16) -> Shares
    ensures { result ≡ customer_shares (L.Ledger.state ledger.now) account }
{
    let row = ledger.row(account);
    share_out(
        pocket_value(ledger, account, Pocket::Direct),
        pocket_value(ledger, account, Pocket::Replacement),
        &row,
    )
}

// The two halves of one split, apart because each caller wants one of them.
/// What of a replacement pocket stands in for the customer margin.
pub(crate) fn replaced_value<L: Ledger>(ledger: &L, account: u16) -> u64
    ensures { result ≡ lesser (replacement (L.Ledger.state ledger.now) account) ((L.Ledger.state ledger.now).rows account).declared.customer_margin }
{
    pocket_value(ledger, account, Pocket::Replacement).min(
        ledger.row(account).declared.customer_margin,
    )
}

/// What of a replacement pocket exceeds the customer margin.
#[tactic(auto, unfolding(rules::specs::Figures::excess))]
pub(crate) fn excess_value<L: Ledger>(ledger: &L, account: u16) -> u64
    ensures { result ≡ excess (L.Ledger.state ledger.now) account }
{
    pocket_value(ledger, account, Pocket::Replacement).saturating_sub(
        ledger.row(account).declared.customer_margin,
    )
}

/// The own pool of a customer account: its direct pocket, and what stands in for the customer margin.
#[tactic(auto, unfolding(rules::specs::Figures::own_pool))]
pub(crate) fn own_pool<L: Ledger>(ledger: &L, account: u16) -> u64
    ensures { result ≡ own_pool_of (L.Ledger.state ledger.now) account }
{
    pocket_value(ledger, account, Pocket::Direct) + replaced_value(ledger, account)
}
