ghost use Rattle.margin.specs.Rates.{set_off};
ghost use Rattle.margin.specs.RateLaws.{setting_off};

use crate::lot_counting::LotCounting;
use crate::rate_margin::RateMargin;
use rules::row::Lots;

/// Long and short lots are set off: what counts is how far they lie apart.
#[derive(Clone, Copy)]
pub struct SetOff;

impl LotCounting for SetOff {
    ghost counted = { set_off };

    ghost laws = { setting_off };

    fn count(lots: Lots) -> u64 {
        u64::from(lots.long.abs_diff(lots.short))
    }
}

/// Net margin: for each contract the difference of long and short lots at the contract's rate, all added up.
pub type NetMargin = RateMargin<SetOff>;
