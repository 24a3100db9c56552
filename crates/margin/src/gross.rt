ghost use Rattle.std.specs.Prelude.{◌+◌};
ghost use Rattle.margin.specs.RateLaws.{adding};

use crate::lot_counting::LotCounting;
use crate::rate_margin::RateMargin;
use rules::row::Lots;

/// Long and short lots count alike.
#[derive(Clone, Copy)]
pub struct AddUp;

impl LotCounting for AddUp {
    ghost counted = { ◌+◌ };

    ghost laws = { adding };

    fn count(lots: Lots) -> u64 {
        u64::from(lots.long) + u64::from(lots.short)
    }
}

/// Gross margin: for each contract the sum of long and short lots at the contract's rate, all added up.
pub type GrossMargin = RateMargin<AddUp>;
