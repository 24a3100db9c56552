ghost use Rattle.std.specs.Prelude.{◌≡◌};
ghost use Rattle.rules.specs.declared.refusal.Refusal.TheVariants.{WrongAsset as wrong_asset};
ghost use Rattle.rules.specs.Sizes.{assets};
ghost use Rattle.rules.specs.Assets.{asset_number};
ghost use Rattle.rules.specs.Refusals.{Named};
ghost use Rattle.rules.specs.Values.{scale as scale_of};

use crate::refusal::Refusal;

/// The assets, in the order of their numbers.
#[derive(Clone, Copy, PartialEq, Eq, Debug)]
pub enum Asset {
    Yen,
    ForeignCurrency,
    Bonds,
    Shares,
}

impl TryFrom<u8> for Asset {
    type Error = Refusal;

    ghost try_from_gives = { Named asset_number assets wrong_asset };

    /// The asset of a number; refuses one that no asset has with `WrongAsset`.
    fn try_from(number: u8) -> Result<Asset, Refusal> {
        match number {
            0 => Ok(Asset::Yen),
            1 => Ok(Asset::ForeignCurrency),
            2 => Ok(Asset::Bonds),
            3 => Ok(Asset::Shares),
            _ => Err(Refusal::WrongAsset),
        }
    }
}

impl Asset {
    /// How many of an asset's priced units make one yen of product.
    pub(crate) fn scale(self) -> u64
        ensures { result ≡ scale_of (asset_number self) }
    {
        match self {
            Asset::Yen => 1,
            Asset::ForeignCurrency | Asset::Bonds => 10_000,
            Asset::Shares => 10,
        }
    }
}
