ghost use Rattle.std.specs.Prelude.{◌≡◌};
ghost use Rattle.rules.specs.States.{empty_row};

use crate::sizes::CONTRACTS;

/// The open lots of one contract: bought (long) and sold (short).
#[derive(Clone, Copy, PartialEq, Eq, Debug)]
pub struct Lots {
    pub long: u32,
    pub short: u32,
}

/// The open lots of one account, contract by contract.
#[derive(Clone, Copy)]
pub struct Counts {
    pub each: [Lots; CONTRACTS],
}

/// What is declared of one account, in yen. Both debts are not yet due.
#[derive(Clone, Copy, PartialEq, Eq, Debug)]
pub struct Declared {
    /// What the customer placed with its participant.
    pub customer_margin: u64,
    /// What the customer owes its participant.
    pub customer_debt: u64,
    /// What the participant owes the clearing house on this account.
    pub participant_debt: u64,
}

/// What the book knows of one account beside its deposits.
#[derive(Clone, Copy)]
pub struct AccountRow {
    pub counts: Counts,
    pub declared: Declared,
}

impl AccountRow {
    /// A row with nothing in it.
    pub fn empty() -> AccountRow
        ensures { result ≡ empty_row }
    {
        AccountRow {
            counts: Counts {
                each: [Lots { long: 0, short: 0 }; CONTRACTS],
            },
            declared: Declared {
                customer_margin: 0,
                customer_debt: 0,
                participant_debt: 0,
            },
        }
    }
}
