ghost use Rattle.std.specs.Prelude.{◌≡◌};
ghost use Rattle.margin.specs.Rates.{Fair, clamped};

use rules::sizes::CONTRACTS;

/// The highest rate, in yen for a lot.
const MOST_RATE: u32 = 10_000_000;

/// The rate of each contract, none above the highest.
#[derive(Clone, Copy)]
pub(crate) struct Rates {
    pub(crate) each: [u32; CONTRACTS],
    ghost fair: { Fair each },
}

impl Rates {
    /// Takes the highest rate for each entry above it.
    pub(crate) fn new(sheet: [u32; CONTRACTS]) -> Rates
        ensures { result.each ≡ clamped sheet }
    {
        Rates {
            each: sheet.map(|rate| MOST_RATE.min(rate)),
        }
    }
}
