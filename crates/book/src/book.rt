ghost use Rattle.std.specs.Prelude.{◌≡◌, if◌then◌else◌, nat_lt, Err};
ghost use Rattle.rules.specs.declared.refusal.Refusal.TheVariants.{WrongParticipant};
ghost use Rattle.rules.specs.Sizes.{participants};
ghost use Rattle.rules.specs.Standings.{next_standing};
ghost use Rattle.rules.specs.States.{made, known, participant_of};
ghost use Rattle.book.specs.States.{state_of, terms_of};
ghost use Rattle.book.specs.BookLaws.{lawful};
ghost use Rattle.book.specs.Promise.{Promise};

use crate::limits::{amounts_out_of_range, counts_barred, counts_out_of_range};
use crate::mark::Mark;
use crate::moves::take_out;
use crate::orders::MarginBook;
use crate::records::Records;
use custody::custodian::Custodian;
use figures::claims::{customer_figures, participant_figures};
use figures::ledger::Ledger;
use figures::lots::open_lots;
use figures::owners::participant_over;
use margin::method::MarginMethod;
use rules::accounts::is_house;
use rules::asset::Asset;
use rules::boxes::DepositBox;
use rules::refusal::Refusal;
use rules::row::{Declared, Lots};
use rules::seizure::Seizure;
use rules::sizes::{ACCOUNTS, BOXES, MOST_HAIRCUT, MOST_PRICE, PARTICIPANTS};
use rules::standing::{DefaultEvent, Standing};

/// A margin book over a custodian and two margin methods: the first sets the margin of house accounts, the second that
/// of customers'. Nothing of it can be reached but by its orders and questions.
#[derive(Drop)]
pub struct Book<Custody, HouseMethod, CustomerMethod> {
    pub(crate) custody: Custody,
    pub(crate) house: HouseMethod,
    pub(crate) customers: CustomerMethod,
    pub(crate) records: Records,
}

impl<Custody: Custodian, HouseMethod: MarginMethod, CustomerMethod: MarginMethod> Book<
    Custody,
    HouseMethod,
    CustomerMethod,
> {
    /// Clears the custodian and makes an empty book over it. The first method sets the margin of house accounts, the
    /// second that of customer accounts. The promise is the law of runs for this very book, whole.
    pub fn new(mut custody: Custody, house: HouseMethod, customers: CustomerMethod) -> Self
        ensures state { ⟦<Self as MarginBook>⟧.state result ≡ made }
        ensures promise { Promise (⟦<Self as MarginBook>⟧.terms result) (⟦<Self as MarginBook>⟧.state result) }
        ensures terms { ⟦<Self as MarginBook>⟧.terms result ≡ terms_of (Custody.Custodian.boxes custody) (HouseMethod.MarginMethod.amount house) (CustomerMethod.MarginMethod.amount customers) }
    {
        custody.clear();
        Book {
            custody,
            house,
            customers,
            records: Records::fresh(),
        }
    }

    /// The standing of a participant.
    fn standing(&self, participant: u8) -> Standing
        ensures { result ≡ (⟦<Self as MarginBook>⟧.state self.now).standing participant }
    {
        self.records
            .standings
            .get(participant as usize)
            .copied()
            .unwrap_or(Standing::Active)
    }

    /// Where an event leads a participant; refuses a participant that there is not, and an event that cannot happen to
    /// it where it stands.
    fn next_standing(&self, participant: u8, event: DefaultEvent) -> Result<Standing, Refusal>
        ensures { result ≡ (if nat_lt participant participants then next_standing ((⟦<Self as MarginBook>⟧.state self.now).standing participant) event else Err WrongParticipant) }
    {
        if participant >= PARTICIPANTS {
            return Err(Refusal::WrongParticipant);
        }
        self.standing(participant).next(event)
    }

    /// The standing of the participant that an account is under.
    pub(crate) fn standing_over(&self, account: u16) -> Standing
        ensures { let s = ⟦<Self as MarginBook>⟧.state self.now in result ≡ s.standing (participant_of s account) }
    {
        self.standing(participant_over(self, account))
    }

    /// Whether orders may name an account: a house account, or a customer account that is open.
    pub(crate) fn knows(&self, account: u16) -> bool
        ensures { result ≡ known (⟦<Self as MarginBook>⟧.state self.now) account }
    {
        account < ACCOUNTS && self.owner(account).is_some()
    }
}

impl<Custody: Custodian, HouseMethod: MarginMethod, CustomerMethod: MarginMethod> MarginBook
    for Book<Custody, HouseMethod, CustomerMethod> {
    ghost terms = { λ book. terms_of (Custody.Custodian.boxes book.custody) (HouseMethod.MarginMethod.amount book.house) (CustomerMethod.MarginMethod.amount book.customers) };

    ghost state = { λ book. state_of book.records (Custody.Custodian.boxes book.custody) };

    ghost laws = { λ book. lawful Custody.Custodian.boxes Custody.Custodian.laws book.custody (HouseMethod.MarginMethod.amount book.house) (CustomerMethod.MarginMethod.amount book.customers) (HouseMethod.MarginMethod.laws book.house) (CustomerMethod.MarginMethod.laws book.customers) };

    fn open(&mut self, account: u16, participant: u8) -> Result<(), Refusal> {
        if is_house(account) || account >= ACCOUNTS || self.owner(account).is_some() {
            return Err(Refusal::WrongAccount);
        }
        if participant >= PARTICIPANTS {
            return Err(Refusal::WrongParticipant);
        }
        if self.standing(participant) != Standing::Active {
            return Err(Refusal::WrongStanding);
        }
        self.records.opened[account as usize] = Some(participant);
        Ok(())
    }

    fn mark(&mut self, asset: u8, price: u32, haircut: u16) -> Result<(), Refusal> {
        if Asset::try_from(asset)? == Asset::Yen {
            return Err(Refusal::WrongAsset);
        }
        if price > MOST_PRICE || haircut > MOST_HAIRCUT {
            return Err(Refusal::OutOfRange);
        }
        self.records.marks[asset as usize] = Mark { price, haircut };
        Ok(())
    }

    fn position(
        &mut self,
        account: u16,
        contract: u8,
        long: u32,
        short: u32,
    ) -> Result<(), Refusal> {
        if !self.knows(account) {
            return Err(Refusal::WrongAccount);
        }
        let new = Lots { long, short };
        if counts_out_of_range(contract, new) {
            return Err(Refusal::OutOfRange);
        }
        let old = self.row(account).counts.each[contract as usize];
        if counts_barred(self.standing_over(account), old, new) {
            return Err(Refusal::WrongStanding);
        }
        self.records.table.position(account, contract, new);
        Ok(())
    }

    fn declare(
        &mut self,
        account: u16,
        customer_margin: u64,
        customer_debt: u64,
        participant_debt: u64,
    ) -> Result<(), Refusal> {
        if !self.knows(account) {
            return Err(Refusal::WrongAccount);
        }
        let new = Declared {
            customer_margin,
            customer_debt,
            participant_debt,
        };
        if amounts_out_of_range(account, new) {
            return Err(Refusal::OutOfRange);
        }
        self.records.table.declare(account, new);
        Ok(())
    }

    // What deposit and withdraw have alike is `check_box`, under both; what is left of each is one line.
    fn deposit(&mut self, account: u16, pocket: u8, asset: u8, units: u64) -> Result<(), Refusal> {
        let place = DepositBox {
            account,
            pocket,
            asset,
        };
        self.check_box(place, units)?;
        Ok(self.custody.put(place.number(), units)?)
    }

    fn withdraw(&mut self, account: u16, pocket: u8, asset: u8, units: u64) -> Result<(), Refusal> {
        let place = DepositBox {
            account,
            pocket,
            asset,
        };
        self.check_withdrawal(place, units)?;
        take_out(&mut self.custody, place.number(), units)
    }

    fn suspend(&mut self, participant: u8) -> Result<(), Refusal> {
        let next = self.next_standing(participant, DefaultEvent::Suspend)?;
        self.records.standings[participant as usize] = next;
        Ok(())
    }

    fn settle(&mut self, participant: u8) -> Result<(), Refusal> {
        let next = self.next_standing(participant, DefaultEvent::Settle)?;
        if open_lots(self, participant) != 0 {
            return Err(Refusal::OpenPositions);
        }
        self.records.standings[participant as usize] = next;
        Ok(())
    }

    fn seize(
        &mut self,
        side: u8,
        paying: u16,
        pocket: u8,
        asset: u8,
        paid: u16,
        units: u64,
    ) -> Result<(), Refusal> {
        let from = DepositBox {
            account: paying,
            pocket,
            asset,
        };
        let seizure = Seizure {
            side,
            from,
            units,
            paid,
        };
        let value = self.check_seizure(seizure)?;
        take_out(&mut self.custody, from.number(), units)?;
        self.records.table.pay(seizure, value);
        Ok(())
    }

    fn customer(&self, account: u16) -> Result<(u64, u64), Refusal> {
        if is_house(account) || !self.knows(account) {
            return Err(Refusal::WrongAccount);
        }
        Ok(customer_figures(self, account))
    }

    fn participant(&self, participant: u8) -> Result<(u64, u64), Refusal> {
        if participant >= PARTICIPANTS {
            return Err(Refusal::WrongParticipant);
        }
        Ok(participant_figures(self, participant))
    }

    fn participant_of(&self, account: u16) -> Result<u8, Refusal> {
        if !self.knows(account) {
            return Err(Refusal::WrongAccount);
        }
        Ok(participant_over(self, account))
    }

    fn held(&self, box_number: usize) -> u64 {
        if box_number < BOXES {
            self.custody.held(box_number)
        } else {
            0
        }
    }

    fn law_of_runs(&self) {}
}
