ghost use Rattle.std.specs.Prelude.{◌≡◌};
ghost use Rattle.std.specs.List.{list_all};
ghost use Rattle.margin.specs.Counted.{countable, bounded_answer, as_counts};

use crate::counts::BoundedCounts;
use rules::refusal::Refusal;
use rules::row::{Counts, Lots};
use rules::sizes::MOST_COUNT;

/// Whether neither count of a contract is above the limit.
fn in_range(lots: &Lots) -> bool
    ensures { result ≡ countable lots.now }
{
    lots.long <= MOST_COUNT && lots.short <= MOST_COUNT
}

/// Whether no count of any contract is above the limit.
fn all_in_range(counts: &Counts) -> bool
    ensures { result ≡ list_all countable counts.now.each }
{
    counts.each.iter().all(in_range)
}

impl BoundedCounts {
    /// Takes counts as they are; refuses them with `OutOfRange` where one is above the limit.
    pub fn new(counts: Counts) -> Result<BoundedCounts, Refusal>
        ensures { as_counts result ≡ bounded_answer counts }
    {
        if all_in_range(&counts) {
            Ok(BoundedCounts { counts })
        } else {
            Err(Refusal::OutOfRange)
        }
    }
}
