ghost use Rattle.std.specs.Prelude.{◌≡◌};
ghost use Rattle.rules.specs.States.{made};
ghost use Rattle.rules.specs.Orders.{with_held};
ghost use Rattle.custody.specs.Boxes.{Boxes};
ghost use Rattle.book.specs.States.{rows_of, state_of};

use crate::mark::{UNMARKED, YEN};
use crate::records::Records;
use crate::table::AccountTable;
use rules::row::AccountRow;
use rules::sizes::{ACCOUNTS_LEN, PARTICIPANTS_LEN};
use rules::standing::Standing;

impl AccountTable {
    /// A table of empty rows.
    pub(crate) fn empty() -> AccountTable
        ensures { rows_of result ≡ made.rows }
    {
        AccountTable {
            rows: [AccountRow::empty(); ACCOUNTS_LEN],
        }
    }
}

impl Records {
    /// Empty rows, no customer account open, all participants active, no asset but yen worth anything.
    pub(crate) fn fresh() -> Records
        ensures { (boxes : Boxes) → state_of result boxes ≡ with_held made boxes.held }
    {
        Records {
            table: AccountTable::empty(),
            opened: [None; ACCOUNTS_LEN],
            standings: [Standing::Active; PARTICIPANTS_LEN],
            marks: [YEN, UNMARKED, UNMARKED, UNMARKED],
        }
    }
}
