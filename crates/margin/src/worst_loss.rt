ghost use Rattle.std.specs.Prelude.{◌≡◌, ℕ, ◌≤◌, map, pos, ◌-ℤ◌, ◌*ℤ◌, slice_index_or, unsigned_abs};
ghost use Rattle.rules.specs.Sizes.{most_count};
ghost use Rattle.margin.specs.Losses.{nearest, loss as loss_of, above_0, worst_loss};
ghost use Rattle.margin.specs.LossLaws.{most_gain, worst_lawful};

use crate::counts::BoundedCounts;
use crate::method::MarginMethod;
use crate::scenarios::{SCENARIOS, WorstLossMargin};
use rules::row::Lots;
use rules::sizes::CONTRACTS;

/// The farthest move on either side, in yen for a lot.
const FARTHEST: i32 = 10_000_000;

/// A move that is beyond the farthest is taken as the farthest on its side.
fn nearest(shift: i32) -> i32
    ensures { result ≡ nearest shift }
{
    shift.clamp(-FARTHEST, FARTHEST)
}

/// The moves of one scenario, none beyond the farthest.
fn clamped(moves: [i32; CONTRACTS]) -> [i32; CONTRACTS]
    ensures { result ≡ map nearest moves }
{
    moves.map(nearest)
}

impl WorstLossMargin {
    /// Takes the moves of each scenario; a move beyond 10,000,000 on either side is taken as that.
    pub fn new(sheet: [[i32; CONTRACTS]; SCENARIOS]) -> WorstLossMargin
        ensures { result.moves ≡ map (map nearest) sheet }
    {
        // A loop and not a `map` over the scenarios: a map lets whole rows wait in an array of their own, and took three
        // times as long.
        let mut moves = sheet;
        for row in &mut moves {
            *row = clamped(*row);
        }
        WorstLossMargin { moves }
    }
}

/// What one contract gains when its price moves.
fn gain(lots: Lots, shift: i32) -> i64
    requires long { lots.long ≤ most_count }
    requires short { lots.short ≤ most_count }
    requires near { unsigned_abs shift ≤ 10000000 }
    ensures value { result ≡ (pos lots.long -ℤ pos lots.short) *ℤ shift }
    ensures small { unsigned_abs result ≤ most_gain }
{
    let net = i64::from(lots.long) - i64::from(lots.short);
    net * i64::from(shift)
}

/// What the counts lose under the moves of one scenario, or 0 where they gain.
fn loss(moves: &[i32; CONTRACTS], counts: &BoundedCounts) -> u64
    requires { (k : ℕ) → unsigned_abs (slice_index_or moves.now k (pos 0)) ≤ 10000000 }
    ensures { result ≡ above_0 (loss_of moves.now counts.now.counts) }
{
    let mut sum = 0;
    for (lots, shift) in counts.counts.each.iter().zip(moves) {
        sum += gain(*lots, *shift);
    }
    (-sum).max(0).unsigned_abs()
}

impl MarginMethod for WorstLossMargin {
    ghost amount = { λ method. worst_loss method.moves };

    ghost laws = { λ method. worst_lawful method.moves method.moderate };

    fn maintenance_amount(&self, counts: &BoundedCounts) -> u64 {
        let mut worst: u64 = 0;
        for moves in &self.moves {
            worst = worst.max(loss(moves, counts));
        }
        worst
    }
}
