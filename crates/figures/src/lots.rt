ghost use Rattle.std.specs.Prelude.{◌≡◌};
ghost use Rattle.rules.specs.Orders.{row_lots as row_lots_of, open_lots as open_lots_of};

use crate::ledger::Ledger;
use crate::owners::is_under;
use rules::row::Counts;
use rules::sizes::ACCOUNTS;

/// All lots of one account, long and short.
#[tactic(auto, using(rules::proofs::Sums::sum_none), unfolding(rules::specs::Orders::row_lots))]
fn row_lots(counts: &Counts) -> u64
    ensures { result ≡ row_lots_of counts.now }
{
    let mut sum = 0;
    for lots in &counts.each {
        sum += u64::from(lots.long) + u64::from(lots.short);
    }
    sum
}

/// All lots of an account, read off a ledger.
fn account_lots<L: Ledger>(ledger: &L, account: u16) -> u64
    ensures { result ≡ row_lots_of ((L.Ledger.state ledger.now).rows account).counts }
{
    row_lots(&ledger.row(account).counts)
}

/// All lots of a participant's accounts, its house account among them.
#[tactic(auto, using(rules::proofs::Sums::sum_none), unfolding(rules::specs::Orders::open_lots, rules::specs::Figures::over))]
pub fn open_lots<L: Ledger>(ledger: &L, participant: u8) -> u64
    ensures { result ≡ open_lots_of (L.Ledger.state ledger.now) participant }
{
    let mut sum = 0;
    for account in 0..ACCOUNTS {
        if is_under(ledger, account, participant) {
            sum += account_lots(ledger, account);
        }
    }
    sum
}
