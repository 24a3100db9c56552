ghost use Rattle.std.specs.Prelude.{◌≡◌};
ghost use Rattle.rules.specs.Values.{market_answer, applied_answer};

use crate::asset::Asset;
use crate::refusal::Refusal;
use crate::sizes::{MOST_AMOUNT, MOST_HAIRCUT, MOST_PRICE, MOST_UNITS};

/// The market value of some units of an asset at a price, in yen, rounded down.
///
/// Refuses an asset that there is none of with `WrongAsset`, and then a price or units above their limits with
/// `OutOfRange`.
#[tactic(auto, unfolding(crate::specs::Values::market))]
pub fn market_value(asset: u8, price: u32, units: u64) -> Result<u64, Refusal>
    ensures { result ≡ market_answer asset price units }
{
    let asset = Asset::try_from(asset)?;
    if price > MOST_PRICE || units > MOST_UNITS {
        return Err(Refusal::OutOfRange);
    }
    Ok(units * u64::from(price) / asset.scale())
}

/// What is left of a market value under a haircut in thousandths, in yen, rounded down.
///
/// Refuses a value or a haircut above its limit with `OutOfRange`.
#[tactic(auto, unfolding(crate::specs::Values::applied))]
pub fn applied_value(market_value: u64, haircut: u16) -> Result<u64, Refusal>
    ensures { result ≡ applied_answer market_value haircut }
{
    if market_value > MOST_AMOUNT || haircut > MOST_HAIRCUT {
        return Err(Refusal::OutOfRange);
    }
    Ok(market_value * u64::from(MOST_HAIRCUT - haircut) / u64::from(MOST_HAIRCUT))
}
