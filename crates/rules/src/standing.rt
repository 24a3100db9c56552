ghost use Rattle.std.specs.Prelude.{◌≡◌};
ghost use Rattle.rules.specs.Standings.{next_standing};

use crate::refusal::Refusal;

/// Where a participant stands between business as usual and the end of its default.
#[derive(Clone, Copy, PartialEq, Eq, Debug)]
pub enum Standing {
    /// Nothing is wrong.
    Active,
    /// In default: no new business, no withdrawals.
    Suspended,
    /// Its positions are closed out; what is left may be withdrawn.
    Settled,
}

/// What happens to a participant in default.
#[derive(Clone, Copy, PartialEq, Eq, Debug)]
pub enum DefaultEvent {
    /// The default begins.
    Suspend,
    /// It is over.
    Settle,
}

impl Standing {
    /// Where an event leads from here; refuses with `WrongStanding` an event that cannot happen here.
    pub fn next(self, event: DefaultEvent) -> Result<Standing, Refusal>
        ensures { result ≡ next_standing self event }
    {
        match (self, event) {
            (Standing::Active, DefaultEvent::Suspend) => Ok(Standing::Suspended),
            (Standing::Suspended, DefaultEvent::Settle) => Ok(Standing::Settled),
            _ => Err(Refusal::WrongStanding),
        }
    }
}
