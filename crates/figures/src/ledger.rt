ghost use Rattle.std.specs.Prelude.{◌≡◌};
ghost use Rattle.rules.specs.States.{State, under};
ghost use Rattle.figures.specs.Bounds.{Bounded};
ghost use Rattle.figures.specs.Views.{HaircutsBounded};

use rules::row::AccountRow;

// The figures are functions over a ledger and not its methods, nor those of a ledger with an account or a participant:
// no implementer can put others in their place, and a pair of the two would be made anew in every loop over accounts.
// Accounts, assets and boxes come by number: a state is told at every number, and a narrower type would ask more of who
// calls.
/// What a book's state is read from.
pub trait Ledger {
    /// The state that is read.
    ghost state: { Self → State };

    /// Rows, prices and units are within their limits.
    ghost laws: { Bounded state };

    /// So are haircuts.
    ghost cuts: { HaircutsBounded state };

    /// The row of an account; an empty one for an account that there is not.
    fn row(&self, account: u16) -> AccountRow
        ensures { result ≡ (state self.now).rows account };

    /// The participant that an account is under, if any.
    fn owner(&self, account: u16) -> Option<u8>
        ensures { result ≡ under (state self.now).opened account };

    /// The price of an asset.
    fn price(&self, asset: u8) -> u32
        ensures { result ≡ (state self.now).price asset };

    /// The haircut of an asset, in thousandths.
    fn haircut(&self, asset: u8) -> u16
        ensures { result ≡ (state self.now).haircut asset };

    /// The units in a box.
    fn units(&self, box_number: usize) -> u64
        ensures { result ≡ (state self.now).held box_number };
}
