ghost use Rattle.rules.specs.States.{Countable};

use rules::row::Counts;

/// Counts of which none is above the limit: what a margin method may be asked about.
#[derive(Clone, Copy)]
pub struct BoundedCounts {
    pub counts: Counts,
    ghost countable: { Countable counts },
}
