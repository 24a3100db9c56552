ghost use Rattle.margin.specs.LossLaws.{Moderate};

use rules::sizes::CONTRACTS;

/// How many scenarios a sheet has.
pub const SCENARIOS: usize = 16;

/// Worst-loss margin: what the counts would lose in the worst of sixteen scenarios, or 0 where none would cost
/// anything.
#[derive(Clone, Copy)]
pub struct WorstLossMargin {
    /// The move of each contract's price in each scenario, in yen for a lot.
    pub(crate) moves: [[i32; CONTRACTS]; SCENARIOS],
    ghost moderate: { Moderate moves },
}
