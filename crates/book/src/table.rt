ghost use Rattle.book.specs.Tables.{AllAllowed};

use rules::row::AccountRow;
use rules::sizes::ACCOUNTS_LEN;

/// The rows of all accounts, none with a number past its limit.
#[derive(Drop)]
pub(crate) struct AccountTable {
    pub(crate) rows: [AccountRow; ACCOUNTS_LEN],
    ghost allowed: { AllAllowed rows },
}
