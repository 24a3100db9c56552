ghost use Rattle.std.specs.Prelude.{◌≡◌};
ghost use Rattle.rules.specs.Sizes.{house};

use crate::sizes::PARTICIPANTS;

/// Whether an account is a participant's own.
pub fn is_house(account: u16) -> bool
    ensures { result ≡ house account }
{
    account < u16::from(PARTICIPANTS)
}
