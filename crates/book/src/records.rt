ghost use Rattle.std.specs.Prelude.{◌≡◌};
ghost use Rattle.book.specs.Tables.{Priced, Cut, mark_of};

use crate::mark::{Mark, UNMARKED};
use crate::table::AccountTable;
use rules::sizes::{ACCOUNTS_LEN, ASSETS_LEN, PARTICIPANTS_LEN};
use rules::standing::Standing;

/// What a book itself keeps, beside its custodian and its methods.
#[derive(Drop)]
pub(crate) struct Records {
    /// The rows of the accounts.
    pub(crate) table: AccountTable,
    // Beside the table and not in its rows: a row is lent whole and keeps an invariant; an owner keeps none, and is
    // written once, by `open`.
    /// The participant that each customer account was opened under.
    pub(crate) opened: [Option<u8>; ACCOUNTS_LEN],
    /// The standing of each participant.
    pub(crate) standings: [Standing; PARTICIPANTS_LEN],
    /// What each asset is marked at.
    pub(crate) marks: [Mark; ASSETS_LEN],
    ghost priced: { Priced marks },
    ghost cut: { Cut marks },
}

impl Records {
    /// What an asset is marked at; worth nothing for an asset that there is not.
    pub(crate) fn mark(&self, asset: u8) -> Mark
        ensures { result ≡ mark_of self.now.marks asset }
    {
        self.marks.get(asset as usize).copied().unwrap_or(UNMARKED)
    }
}
