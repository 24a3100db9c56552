ghost use Rattle.std.specs.Prelude.{◌≡◌};
ghost use Rattle.rules.specs.declared.refusal.Refusal.TheVariants.{OverLimit as refused_over_limit, TooFewUnits as refused_too_few};
ghost use Rattle.custody.specs.Boxes.{Boxes, Lawful};
ghost use Rattle.custody.specs.Moves.{Cleared, Put, Take};

use rules::refusal::Refusal;

// Not one type with `TakeRefusal`: no put is refused for want of units and no take for want of room, and the types say
// so.
/// Why a put is refused.
#[derive(Clone, Copy, PartialEq, Eq, Debug)]
pub enum PutRefusal {
    /// The holding and the units together pass the limit of the box.
    OverLimit,
}

/// Why a take is refused.
#[derive(Clone, Copy, PartialEq, Eq, Debug)]
pub enum TakeRefusal {
    /// The box holds fewer units.
    TooFewUnits,
}

impl From<PutRefusal> for Refusal {
    ghost from_gives = { λ _ r. r ≡ refused_over_limit };

    fn from(refusal: PutRefusal) -> Refusal {
        match refusal {
            PutRefusal::OverLimit => Refusal::OverLimit,
        }
    }
}

impl From<TakeRefusal> for Refusal {
    ghost from_gives = { λ _ r. r ≡ refused_too_few };

    fn from(refusal: TakeRefusal) -> Refusal {
        match refusal {
            TakeRefusal::TooFewUnits => Refusal::TooFewUnits,
        }
    }
}

/// Who holds the deposits, box by box. What a custodian means is a limit and a holding for every box number, and
/// these meanings are all that an implementer has to show.
pub trait Custodian {
    /// The limit and the holding of every box.
    ghost boxes: { Self → Boxes };

    /// No limit is above the most units of a box or above 0 past the last box, and no holding is above its limit.
    ghost laws: { Lawful boxes };

    /// Makes every holding 0.
    fn clear(&mut self)
        ensures moved { Cleared (boxes self.old) (boxes self.new) };

    /// The units that a box holds.
    fn held(&self, box_number: usize) -> u64
        ensures { result ≡ (boxes self.now).held box_number };

    /// The units that a box may hold.
    fn limit(&self, box_number: usize) -> u64
        ensures { result ≡ (boxes self.now).limit box_number };

    /// Adds units to a box; refused exactly where its limit would be passed.
    fn put(&mut self, box_number: usize, units: u64) -> Result<(), PutRefusal>
        ensures moved { Put (boxes self.old) (boxes self.new) box_number units result };

    /// Removes units from a box; refused exactly where it holds fewer.
    fn take(&mut self, box_number: usize, units: u64) -> Result<(), TakeRefusal>
        ensures moved { Take (boxes self.old) (boxes self.new) box_number units result };
}
