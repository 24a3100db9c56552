use book::orders::MarginBook;
use rules::sizes::{ACCOUNTS, PARTICIPANTS};
use std::fmt;

/// The claims of all parties: a line for each open customer account and for each participant.
#[derive(Drop)]
pub struct Parties<'a, B> {
    pub book: &'a B,
}

impl<B: MarginBook> fmt::Display for Parties<'_, B> {
    fn fmt<W: fmt::Write>(&self, f: &mut fmt::Formatter<W>) -> fmt::Result {
        for account in 0..ACCOUNTS {
            if let Ok((claim, withheld)) = self.book.customer(account) {
                writeln!(
                    f,
                    "customer of account {account}: may claim {claim}, withheld {withheld}"
                )?;
            }
        }
        for participant in 0..PARTICIPANTS {
            if let Ok((claim, retained)) = self.book.participant(participant) {
                writeln!(
                    f,
                    "participant {participant}: may claim {claim}, retained {retained}"
                )?;
            }
        }
        Ok(())
    }
}
