ghost use Rattle.std.specs.Prelude.{◌≡◌, ◌+◌, ◌^◌, ◌<◌};
ghost use Rattle.rules.specs.Sizes.{accounts};
ghost use Rattle.figures.specs.Parts.{no_parts, both_parts, parts_of, parts_below, total_parts};

use crate::ledger::Ledger;
use crate::owners::is_under;
use crate::shares::customer_shares;
use crate::values::pocket_value;
use rules::accounts::is_house;
use rules::pocket::Pocket;
use rules::sizes::ACCOUNTS;

/// What one account adds to the sums of its participant, or these sums over all its accounts, in yen.
#[derive(Clone, Copy)]
pub(crate) struct Parts {
    /// The house pocket, and the excess of a customer's replacement margin.
    pub(crate) pool: u64,
    /// The rest of the participant's debt.
    pub(crate) charge: u64,
    /// What the clearing house keeps of a customer's deposits.
    pub(crate) kept: u64,
    /// What is passed on from a customer's deposits to the participant.
    pub(crate) passed_on: u64,
}

impl Parts {
    /// Nothing of each.
    pub(crate) fn none() -> Parts
        ensures { result ≡ no_parts }
    {
        Parts {
            pool: 0,
            charge: 0,
            kept: 0,
            passed_on: 0,
        }
    }

    /// The two added up.
    fn with(self, more: Parts) -> Parts
        requires pool { self.pool + more.pool < 2 ^ 64 }
        requires charge { self.charge + more.charge < 2 ^ 64 }
        requires kept { self.kept + more.kept < 2 ^ 64 }
        requires passed_on { self.passed_on + more.passed_on < 2 ^ 64 }
        ensures { result ≡ both_parts self more }
    {
        Parts {
            pool: self.pool + more.pool,
            charge: self.charge + more.charge,
            kept: self.kept + more.kept,
            passed_on: self.passed_on + more.passed_on,
        }
    }
}

/// What an account adds to the sums of the participant that it is under.
#[tactic(auto, unfolding(rules::specs::Figures::pooled, rules::specs::Figures::rest, rules::specs::Figures::from_customer))]
pub(crate) fn account_parts<L: Ledger>(ledger: &L, account: u16) -> Parts
    ensures { result ≡ parts_of (L.Ledger.state ledger.now) account }
{
    if is_house(account) {
        return Parts {
            pool: pocket_value(ledger, account, Pocket::Direct),
            charge: ledger.row(account).declared.participant_debt,
            kept: 0,
            passed_on: 0,
        };
    }
    let shares = customer_shares(ledger, account);
    Parts {
        pool: shares.excess,
        charge: shares.rest,
        kept: shares.kept,
        passed_on: shares.passed_on,
    }
}

/// The sums of a participant over the accounts before one, and over that one too.
pub(crate) fn parts_with<L: Ledger>(ledger: &L, participant: u8, account: u16, sums: Parts) -> Parts
    requires account { account < accounts }
    requires before { sums ≡ parts_below (L.Ledger.state ledger.now) participant account }
    ensures { result ≡ parts_below (L.Ledger.state ledger.now) participant (account + 1) }
{
    if is_under(ledger, account, participant) {
        sums.with(account_parts(ledger, account))
    } else {
        sums
    }
}

// Its loop stands beside those of the open lots and of the pool alone: they add one number of each account, and here
// four sums grow in one go.
/// The sums of a participant over all its accounts.
#[tactic(auto, using(rules::proofs::Sums::sum_none), unfolding(rules::specs::Figures::over, rules::specs::Figures::pool, rules::specs::Figures::charge))]
pub(crate) fn total_parts<L: Ledger>(ledger: &L, participant: u8) -> Parts
    ensures { result ≡ total_parts (L.Ledger.state ledger.now) participant }
{
    let mut sums = Parts::none();
    for account in 0..ACCOUNTS {
        sums = parts_with(ledger, participant, account, sums);
    }
    sums
}
