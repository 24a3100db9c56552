ghost use Rattle.std.specs.Prelude.{◌≡◌, ℕ};
ghost use Rattle.margin.specs.Rates.{Counting};

use rules::row::Lots;

/// A way to count the lots of one contract, long and short, that margin is asked for.
pub trait LotCounting {
    /// How many lots count.
    ghost counted: { (long short : ℕ) → ℕ };

    /// None of none, and no more than all.
    ghost laws: { Counting counted };

    /// How many of these lots count.
    fn count(lots: Lots) -> u64
        ensures { result ≡ counted lots.long lots.short };
}
