ghost use Rattle.std.specs.Prelude.{◌≡◌, not, [], ◌∷◌, nat_lt};
ghost use Rattle.rules.specs.declared.refusal.Refusal.TheVariants.{WrongAsset, OutOfRange};
ghost use Rattle.rules.specs.Sizes.{assets};
ghost use Rattle.rules.specs.Refusals.{answered};
ghost use Rattle.rules.specs.Orders.{no_such_pocket, units_out_of_range, counts_out_of_range, amounts_out_of_range, counts_barred, wrong_side};

use figures::withdrawals::customer_draws;
use rules::accounts::is_house;
use rules::asset::Asset;
use rules::pocket::Pocket;
use rules::refusal::Refusal;
use rules::row::{Declared, Lots};
use rules::seizure::{Seizure, Side};
use rules::sizes::{CONTRACTS, MOST_AMOUNT, MOST_COUNT, MOST_UNITS};
use rules::standing::Standing;

/// Whether an account has no such pocket: a house account has the direct one only.
pub(crate) fn no_such_pocket(account: u16, pocket: u8) -> bool
    ensures { result ≡ no_such_pocket account pocket }
{
    match Pocket::try_from(pocket) {
        Ok(Pocket::Direct) => false,
        Ok(Pocket::Replacement) => is_house(account),
        Err(_) => true,
    }
}

/// Whether no order may move so many units.
fn units_out_of_range(units: u64) -> bool
    ensures { result ≡ units_out_of_range units }
{
    units == 0 || units > MOST_UNITS
}

/// Tries the two refusals that follow each other wherever units are moved: of the asset, and of the number of units.
pub(crate) fn check_units(asset: u8, units: u64) -> Result<(), Refusal>
    ensures { result ≡ answered ((WrongAsset, not (nat_lt asset assets)) ∷ ((OutOfRange, units_out_of_range units) ∷ [])) tt }
{
    Asset::try_from(asset)?;
    if units_out_of_range(units) {
        return Err(Refusal::OutOfRange);
    }
    Ok(())
}

// A contract and its lots, here and where they are written: a list of counts has the contract as its place.
/// Whether there is no such contract, or a count is above its limit.
pub(crate) fn counts_out_of_range(contract: u8, new: Lots) -> bool
    ensures { result ≡ counts_out_of_range contract new }
{
    contract as usize >= CONTRACTS || new.long > MOST_COUNT || new.short > MOST_COUNT
}

/// Whether a participant's standing bars other counts: a settled one's do not change, a suspended one's do not rise.
pub(crate) fn counts_barred(standing: Standing, old: Lots, new: Lots) -> bool
    ensures { result ≡ counts_barred standing old new }
{
    match standing {
        Standing::Active => false,
        Standing::Suspended => new.long > old.long || new.short > old.short,
        Standing::Settled => true,
    }
}

/// Whether the row of an account may not hold these amounts.
pub(crate) fn amounts_out_of_range(account: u16, new: Declared) -> bool
    ensures { result ≡ amounts_out_of_range account new }
{
    new.customer_margin > MOST_AMOUNT
        || new.customer_debt > MOST_AMOUNT
        || new.participant_debt > MOST_AMOUNT
        || is_house(account) && (new.customer_margin != 0 || new.customer_debt != 0)
}

/// Whether an account may not pay for another on this side of a seizure: on side 0 a customer account pays for itself,
/// on side 1 a house pocket or a replacement pocket pays for any account of the participant.
pub(crate) fn wrong_side(seizure: Seizure) -> bool
    ensures { result ≡ wrong_side seizure.side seizure.from.account seizure.from.pocket seizure.paid }
{
    let paying = seizure.from.account;
    match Side::try_from(seizure.side) {
        Ok(Side::Itself) => is_house(paying) || paying != seizure.paid,
        Ok(Side::Pool) => customer_draws(paying, seizure.from.pocket),
        Err(_) => true,
    }
}
