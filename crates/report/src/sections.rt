ghost use Rattle.std.specs.Prelude.{Some};
ghost use Rattle.rules.specs.Sizes.{accounts, participants};
ghost use Rattle.report.specs.Lines.{in_turn};
ghost use Rattle.report.specs.Reports.{order_lines, account_lines, participant_lines, fault_line};

use book::orders::MarginBook;
use orders::fault::FileFault;
use rules::sizes::{ACCOUNTS, PARTICIPANTS};
use std::fmt;

// The answers are numbers, since they are read off the list that a run fills.
/// A line for the answer to each order. The orders are numbered from 1.
#[derive(Clone, Copy)]
pub(crate) struct OrderLines<'a> {
    pub(crate) answers: &'a [u8],
}

impl fmt::Display for OrderLines<'_> {
    ghost output = { λ lines. Some (order_lines lines.answers.now) };

    fn fmt<W: fmt::Write>(&self, f: &mut fmt::Formatter<W>) -> fmt::Result {
        for (index, answer) in self.answers.iter().enumerate() {
            writeln!(f, "ORDER {} {answer}", index + 1)?;
        }
        Ok(())
    }
}

// Three lists of lines and no list over any question: each asks other questions and writes other words.
/// A line for each open customer account of a book, in rising number.
#[derive(Drop)]
pub(crate) struct AccountLines<'a, B> {
    pub(crate) book: &'a B,
}

impl<B: MarginBook> fmt::Display for AccountLines<'_, B> {
    ghost output = { λ lines. Some (in_turn accounts (account_lines (B.MarginBook.state lines.book.now))) };

    #[tactic(auto, using(crate::proofs::InTurn::none_yet, crate::proofs::InTurn::one_more, crate::proofs::InTurn::one_empty), unfolding(crate::specs::Reports::account_lines))]
    fn fmt<W: fmt::Write>(&self, f: &mut fmt::Formatter<W>) -> fmt::Result {
        for account in 0..ACCOUNTS {
            if let Ok(participant) = self.book.participant_of(account)
                && let Ok((claim, _)) = self.book.customer(account)
            {
                writeln!(f, "CUST {account} {participant} {claim}")?;
            }
        }
        Ok(())
    }
}

/// A line for each participant of a book, in rising number.
#[derive(Drop)]
pub(crate) struct ParticipantLines<'a, B> {
    pub(crate) book: &'a B,
}

impl<B: MarginBook> fmt::Display for ParticipantLines<'_, B> {
    ghost output = { λ lines. Some (in_turn participants (participant_lines (B.MarginBook.state lines.book.now))) };

    #[tactic(auto, using(crate::proofs::InTurn::none_yet, crate::proofs::InTurn::one_more, crate::proofs::InTurn::one_empty), unfolding(crate::specs::Reports::participant_lines))]
    fn fmt<W: fmt::Write>(&self, f: &mut fmt::Formatter<W>) -> fmt::Result {
        for participant in 0..PARTICIPANTS {
            if let Ok((claim, retained)) = self.book.participant(participant) {
                writeln!(f, "PART {participant} {claim} {retained}")?;
            }
        }
        Ok(())
    }
}

/// The line of a refused file.
#[derive(Clone, Copy)]
pub(crate) struct FaultLine {
    pub(crate) fault: FileFault,
}

impl fmt::Display for FaultLine {
    ghost output = { λ line. Some (fault_line line.fault) };

    fn fmt<W: fmt::Write>(&self, f: &mut fmt::Formatter<W>) -> fmt::Result {
        let FileFault { refusal, place } = self.fault;
        writeln!(f, "FILE {} {}", refusal.number(), place)
    }
}
