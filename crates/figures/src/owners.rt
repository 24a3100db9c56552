ghost use Rattle.std.specs.Prelude.{◌≡◌};
ghost use Rattle.rules.specs.States.{under, is, participant_of};

use crate::ledger::Ledger;
use rules::sizes::PARTICIPANTS;

/// Whether an account is under a participant.
pub(crate) fn is_under<L: Ledger>(ledger: &L, account: u16, participant: u8) -> bool
    ensures { result ≡ is (under (L.Ledger.state ledger.now).opened account) participant }
{
    ledger.owner(account) == Some(participant)
}

// A number and no `Option`, which `owner` of a ledger gives: the definitions that it is proved by, and the law under
// them, speak of a number for every account.
/// The participant that an account is under; past the last one where it is under none.
pub fn participant_over<L: Ledger>(ledger: &L, account: u16) -> u8
    ensures { result ≡ participant_of (L.Ledger.state ledger.now) account }
{
    ledger.owner(account).unwrap_or(PARTICIPANTS)
}
