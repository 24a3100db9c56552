ghost use Rattle.std.specs.Prelude.{◌≡◌};
ghost use Rattle.rules.specs.Sizes.{box as box_of};

/// A box: where the units of one asset lie in one pocket of one account. It may be named by any numbers; orders refuse
/// the numbers of which there is no box.
#[derive(Clone, Copy, PartialEq, Eq, Debug)]
pub struct DepositBox {
    pub account: u16,
    pub pocket: u8,
    pub asset: u8,
}

impl DepositBox {
    /// The number by which custodians know the box.
    pub fn number(self) -> usize
        ensures { result ≡ box_of self.account self.pocket self.asset }
    {
        self.account as usize * 8 + (self.pocket as usize * 4 + self.asset as usize)
    }
}
