ghost use Rattle.rules.specs.declared.refusal.Refusal.TheVariants.{WrongPocket as wrong_pocket};
ghost use Rattle.rules.specs.Refusals.{Named};
ghost use Rattle.rules.specs.Sides.{side_number, sides};

use crate::boxes::DepositBox;
use crate::refusal::Refusal;

/// The sides of a seizure, in the order of their numbers: what pays.
#[derive(Clone, Copy, PartialEq, Eq, Debug)]
pub enum Side {
    /// A customer account pays for itself.
    Itself,
    /// A participant's pool pays for any account of the participant.
    Pool,
}

impl TryFrom<u8> for Side {
    type Error = Refusal;

    ghost try_from_gives = { Named side_number sides wrong_pocket };

    /// The side of a number; refuses one that no side has with `WrongPocket`.
    fn try_from(number: u8) -> Result<Side, Refusal> {
        match number {
            0 => Ok(Side::Itself),
            1 => Ok(Side::Pool),
            _ => Err(Refusal::WrongPocket),
        }
    }
}

/// A seizure as it is ordered, with any numbers: units taken out of a box of the paying account, for debts on the paid
/// one.
#[derive(Clone, Copy, PartialEq, Eq, Debug)]
pub struct Seizure {
    /// The number of a side.
    pub side: u8,
    pub from: DepositBox,
    pub units: u64,
    /// The account on which debts are paid.
    pub paid: u16,
}
