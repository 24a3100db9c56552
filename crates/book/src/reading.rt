ghost use Rattle.book.specs.States.{state_of};
ghost use Rattle.book.specs.BookLaws.{bounded};

use crate::book::Book;
use custody::custodian::Custodian;
use figures::ledger::Ledger;
use margin::method::MarginMethod;
use rules::accounts::is_house;
use rules::row::AccountRow;

impl<Custody: Custodian, HouseMethod: MarginMethod, CustomerMethod: MarginMethod> Ledger
    for Book<Custody, HouseMethod, CustomerMethod> {
    ghost state = { λ book. state_of book.records (Custody.Custodian.boxes book.custody) };

    ghost laws = { bounded (λ book. book.records) (λ book. book.custody) Custody.Custodian.boxes Custody.Custodian.laws };

    ghost cuts = { λ book asset. book.records.cut asset };

    fn row(&self, account: u16) -> AccountRow {
        self.records.table.row(account)
    }

    fn owner(&self, account: u16) -> Option<u8> {
        if is_house(account) {
            return Some(account as u8);
        }
        self.records.opened.get(account as usize).copied().flatten()
    }

    fn price(&self, asset: u8) -> u32 {
        self.records.mark(asset).price
    }

    fn haircut(&self, asset: u8) -> u16 {
        self.records.mark(asset).haircut
    }

    fn units(&self, box_number: usize) -> u64 {
        self.custody.held(box_number)
    }
}
