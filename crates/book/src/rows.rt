ghost use Rattle.std.specs.Prelude.{◌≡◌, ◌<◌, false};
ghost use Rattle.std.specs.Fn.{FnOnceReturnsAtMut};
ghost use Rattle.rules.specs.declared.row.AccountRow.{AccountRow as Row};
ghost use Rattle.rules.specs.States.{RowAllowed};
ghost use Rattle.rules.specs.Sizes.{accounts, contracts, put};
ghost use Rattle.rules.specs.Orders.{positioned_row, declared_row, paid_row, counts_out_of_range, amounts_out_of_range};
ghost use Rattle.book.specs.States.{rows_of};

use crate::table::AccountTable;
use margin::counts::BoundedCounts;
use rules::pocket::Pocket;
use rules::row::{AccountRow, Declared, Lots};
use rules::seizure::{Seizure, Side};

/// Writes the row whole: other counts of one contract, all else the same.
fn position_row(row: &mut AccountRow, contract: u8, new: Lots)
    requires { contract < contracts }
    ensures { row.new ≡ positioned_row row.old contract new }
{
    let mut counts = row.counts;
    counts.each[contract as usize] = new;
    *row = AccountRow {
        counts,
        declared: row.declared,
    };
}

/// Writes the row whole: other amounts, the same counts.
fn declare_row(row: &mut AccountRow, new: Declared)
    ensures { row.new ≡ declared_row row.old new }
{
    *row = AccountRow {
        counts: row.counts,
        declared: new,
    };
}

/// Writes the row whole: what a seizure pays is taken off its debts, and off the customer margin where it came out of
/// the account's own replacement pocket; the same counts.
fn pay_row(row: &mut AccountRow, seizure: Seizure, value: u64)
    ensures { row.new ≡ paid_row seizure.side seizure.from.pocket value row.old }
{
    let itself = seizure.side == Side::Itself as u8;
    let for_itself = if itself { value } else { 0 };
    let replaced = if itself && seizure.from.pocket == Pocket::Replacement as u8 {
        value
    } else {
        0
    };
    let counts = row.counts;
    let old = row.declared;
    *row = AccountRow {
        counts,
        declared: Declared {
            customer_margin: old.customer_margin.saturating_sub(replaced),
            customer_debt: old.customer_debt.saturating_sub(for_itself),
            participant_debt: old.participant_debt.saturating_sub(value),
        },
    };
}

// A function of its own, so that what the call did is known of the row itself, and not of a loan of a part of the
// table.
/// Lends a row to a row function.
fn lend<F: FnOnce(&mut AccountRow)>(row: &mut AccountRow, function: F)
    requires { F.IsAlwaysCallable function }
    ensures { FnOnceReturnsAtMut F.FnOnce function row.old tt row.new }
{
    function(row);
}

impl AccountTable {
    /// The row of an account; an empty one for an account that there is not.
    #[tactic(auto, unfolding(crate::specs::States::rows_of))]
    pub(crate) fn row(&self, account: u16) -> AccountRow
        ensures { result ≡ rows_of self.now account }
    {
        self.rows
            .get(account as usize)
            .copied()
            .unwrap_or(AccountRow::empty())
    }

    /// The counts of an account, which are within their limits.
    pub(crate) fn counts(&self, account: u16) -> BoundedCounts
        ensures { result.counts ≡ (rows_of self.now account).counts }
    {
        BoundedCounts {
            counts: self.row(account).counts,
        }
    }

    // Each caller has shown the account to be in the table; a type for that would have to be built again where a
    // seizure pays.
    /// Lends the row of an account to a row function; all other rows stay as they are.
    fn write<F: FnOnce(&mut AccountRow)>(&mut self, account: u16, function: F)
        requires account { account < accounts }
        requires callable { F.IsAlwaysCallable function }
        requires allowed { (old new : Row) → RowAllowed account old → FnOnceReturnsAtMut F.FnOnce function old tt new → RowAllowed account new }
        ensures called { FnOnceReturnsAtMut F.FnOnce function (rows_of self.old account) tt (rows_of self.new account) }
        ensures others { rows_of self.new ≡ put (rows_of self.old) account (rows_of self.new account) }
    {
        lend(&mut self.rows[account as usize], function);
    }

    /// Sets both counts of a contract of one account, by lending out its row; all other rows stay as they are.
    pub(crate) fn position(&mut self, account: u16, contract: u8, new: Lots)
        requires account { account < accounts }
        requires counts { counts_out_of_range contract new ≡ false }
        ensures { rows_of self.new ≡ put (rows_of self.old) account (positioned_row (rows_of self.old account) contract new) }
    {
        self.write(account, |row| position_row(row, contract, new));
    }

    /// Sets the amounts of one account, by lending out its row; all other rows stay as they are.
    pub(crate) fn declare(&mut self, account: u16, new: Declared)
        requires account { account < accounts }
        requires amounts { amounts_out_of_range account new ≡ false }
        ensures { rows_of self.new ≡ put (rows_of self.old) account (declared_row (rows_of self.old account) new) }
    {
        self.write(account, |row| declare_row(row, new));
    }

    /// Takes a seized value off the debts of the paid account, by lending out its row; all other rows stay as they are.
    pub(crate) fn pay(&mut self, seizure: Seizure, value: u64)
        requires { seizure.paid < accounts }
        ensures { rows_of self.new ≡ put (rows_of self.old) seizure.paid (paid_row seizure.side seizure.from.pocket value (rows_of self.old seizure.paid)) }
    {
        self.write(seizure.paid, |row| pay_row(row, seizure, value));
    }
}
