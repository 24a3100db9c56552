ghost use Rattle.std.specs.Prelude.{◌≡◌, ℕ};
ghost use Rattle.rules.specs.declared.row.Counts.{Counts};
ghost use Rattle.rules.specs.States.{LawfulMethod};

use crate::counts::BoundedCounts;

/// A margin method: the maintenance amount that an account with given counts must be covered by.
pub trait MarginMethod {
    /// The amount for every set of counts.
    ghost amount: { Self → Counts → ℕ };

    /// An account with no open lot needs no margin, and no amount of counts within their limits is above 10^15 yen.
    ghost laws: { (method : Self) → LawfulMethod (amount method) };

    /// The amount for these counts.
    fn maintenance_amount(&self, counts: &BoundedCounts) -> u64
        ensures { result ≡ amount self.now counts.now.counts };
}
