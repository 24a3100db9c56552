ghost use Rattle.std.specs.Prelude.{◌≡◌};
ghost use Rattle.rules.specs.States.{State, Terms, Lawful};
ghost use Rattle.rules.specs.Figures.{ask_customer, ask_participant, ask_owner, ask_held};
ghost use Rattle.rules.specs.Law.{LawOf};
ghost use Rattle.rules.specs.Orders.{step, opening, mark, position, declare, deposit, withdraw, suspend, settle, seize};

use rules::refusal::Refusal;

// Accounts, pockets, assets and sides come as plain numbers, each by itself: an order may name any, and one of which
// there is nothing is refused.
/// The orders and questions of a margin book. Each order answers the first refusal that holds, in the order in which
/// the rules try them, and then changes nothing; else it does what the rules say and nothing besides. That, with the
/// holdings of all boxes, is the one equation `step` of its contract.
pub trait MarginBook {
    /// What the book was made over.
    ghost terms: { Self → Terms };

    /// The state that the book is in.
    ghost state: { Self → State };

    // Each order says of itself that it leaves the terms: no law of a value can speak of before and after a call.
    /// The custodian and the two methods keep their laws.
    ghost laws: { (book : Self) → Lawful (terms book) };

    /// Opens a customer account under a participant, once and for all.
    fn open(&mut self, account: u16, participant: u8) -> Result<(), Refusal>
        ensures step { (result, state self.new) ≡ step (terms self.old) (state self.old) (opening account participant) }
        ensures same { terms self.new ≡ terms self.old };

    /// Sets the price and the haircut of an asset other than yen.
    fn mark(&mut self, asset: u8, price: u32, haircut: u16) -> Result<(), Refusal>
        ensures step { (result, state self.new) ≡ step (terms self.old) (state self.old) (mark asset price haircut) }
        ensures same { terms self.new ≡ terms self.old };

    /// Sets both counts of a contract of one account.
    fn position(&mut self, account: u16, contract: u8, long: u32, short: u32) -> Result<(), Refusal>
        ensures step { (result, state self.new) ≡ step (terms self.old) (state self.old) (position account contract long short) }
        ensures same { terms self.new ≡ terms self.old };

    /// Sets the customer margin, the customer's debt to the participant and the participant's debt to the clearing
    /// house on one account.
    fn declare(
        &mut self,
        account: u16,
        customer_margin: u64,
        customer_debt: u64,
        participant_debt: u64,
    ) -> Result<(), Refusal>
        ensures step { (result, state self.new) ≡ step (terms self.old) (state self.old) (declare account customer_margin customer_debt participant_debt) }
        ensures same { terms self.new ≡ terms self.old };

    /// Puts units of an asset into a pocket of an account.
    fn deposit(&mut self, account: u16, pocket: u8, asset: u8, units: u64) -> Result<(), Refusal>
        ensures step { (result, state self.new) ≡ step (terms self.old) (state self.old) (deposit account pocket asset units) }
        ensures same { terms self.new ≡ terms self.old };

    /// Takes units of an asset out of a pocket of an account, for the customer out of the direct pocket of a customer
    /// account, and else for the participant.
    fn withdraw(&mut self, account: u16, pocket: u8, asset: u8, units: u64) -> Result<(), Refusal>
        ensures step { (result, state self.new) ≡ step (terms self.old) (state self.old) (withdraw account pocket asset units) }
        ensures same { terms self.new ≡ terms self.old };

    /// Suspends an active participant: its default begins.
    fn suspend(&mut self, participant: u8) -> Result<(), Refusal>
        ensures step { (result, state self.new) ≡ step (terms self.old) (state self.old) (suspend participant) }
        ensures same { terms self.new ≡ terms self.old };

    /// Settles a suspended participant none of whose accounts has an open lot: its default is over.
    fn settle(&mut self, participant: u8) -> Result<(), Refusal>
        ensures step { (result, state self.new) ≡ step (terms self.old) (state self.old) (settle participant) }
        ensures same { terms self.new ≡ terms self.old };

    /// Takes units of an asset out of a pocket of the paying account, and the market value that leaves the box off
    /// debts on the paid one. On side 0 these are one customer account: the value comes off both its debts, and off the
    /// customer margin too where the units came out of the replacement pocket. On side 1 a house pocket or a
    /// replacement pocket pays for any account of its participant, and the value comes off the participant's debt
    /// there.
    fn seize(
        &mut self,
        side: u8,
        paying: u16,
        pocket: u8,
        asset: u8,
        paid: u16,
        units: u64,
    ) -> Result<(), Refusal>
        ensures step { (result, state self.new) ≡ step (terms self.old) (state self.old) (seize side paying pocket asset paid units) }
        ensures same { terms self.new ≡ terms self.old };

    /// What the customer of an account may claim, and what is withheld from it.
    fn customer(&self, account: u16) -> Result<(u64, u64), Refusal>
        ensures { result ≡ ask_customer (state self.now) account };

    /// What a participant may claim, and what the clearing house retains.
    fn participant(&self, participant: u8) -> Result<(u64, u64), Refusal>
        ensures { result ≡ ask_participant (state self.now) participant };

    /// The participant that an account is under: a house account's own, a customer account's once it is open.
    fn participant_of(&self, account: u16) -> Result<u8, Refusal>
        ensures { result ≡ ask_owner (state self.now) account };

    /// The units that a box holds, 0 past the last box.
    fn held(&self, box_number: usize) -> u64
        ensures { result ≡ ask_held (state self.now) box_number };

    /// Does nothing. Its contract is the law of runs for books over the terms of this one, whole.
    fn law_of_runs(&self)
        ensures lawful { Lawful (terms self.now) }
        ensures stands { LawOf (terms self.now) };
}
