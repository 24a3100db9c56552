ghost use Rattle.rules.specs.declared.refusal.Refusal.TheVariants.{WrongPocket as wrong_pocket};
ghost use Rattle.rules.specs.Sizes.{pockets};
ghost use Rattle.rules.specs.Pockets.{pocket_number};
ghost use Rattle.rules.specs.Refusals.{Named};

use crate::refusal::Refusal;

/// The pockets of an account, in the order of their numbers.
#[derive(Clone, Copy, PartialEq, Eq, Debug)]
pub enum Pocket {
    /// What the customer placed with the clearing house itself, and all that lies for a house account.
    Direct,
    /// What the participant placed for the customer.
    Replacement,
}

// Written out for each enum that a number names: no derive of the library gives it.
impl TryFrom<u8> for Pocket {
    type Error = Refusal;

    ghost try_from_gives = { Named pocket_number pockets wrong_pocket };

    /// The pocket of a number; refuses one that no pocket has with `WrongPocket`.
    fn try_from(number: u8) -> Result<Pocket, Refusal> {
        match number {
            0 => Ok(Pocket::Direct),
            1 => Ok(Pocket::Replacement),
            _ => Err(Refusal::WrongPocket),
        }
    }
}
