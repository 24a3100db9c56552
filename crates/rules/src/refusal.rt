ghost use Rattle.std.specs.Prelude.{◌≡◌, Some};
ghost use Rattle.rules.specs.Refusals.{number as number_of};
ghost use Rattle.rules.specs.Wordings.{wording};

use std::fmt;

/// Why a call or a file is refused.
#[derive(Clone, Copy, PartialEq, Eq, Debug)]
pub enum Refusal {
    FileTooLong = 1,
    UnknownKind = 2,
    BodyCutShort = 3,
    AnswerListTooShort = 4,
    WrongAccount = 5,
    WrongParticipant = 6,
    WrongPocket = 7,
    WrongAsset = 8,
    OutOfRange = 9,
    WrongStanding = 10,
    OverLimit = 11,
    TooFewUnits = 12,
    BelowMaintenance = 13,
    BeyondEntitlement = 14,
    OpenPositions = 15,
}

impl Refusal {
    /// The number by which the refusal is told in answer lists, 1 to 15; 0 stands for accepted.
    pub fn number(self) -> u8
        ensures { result ≡ number_of self }
    {
        self as u8
    }

    /// The refusal in plain words, for the person who is told of it.
    pub fn text(self) -> &'static str
        ensures { result.now ≡ wording self }
    {
        match self {
            Refusal::FileTooLong => "the file has more than 65,536 bytes",
            Refusal::UnknownKind => "the file has an order of an unknown kind",
            Refusal::BodyCutShort => "the file ends inside an order",
            Refusal::AnswerListTooShort =>
                "the answer list has fewer places than the file has orders",
            Refusal::WrongAccount =>
                "the account does not exist, is not open, or cannot be meant here",
            Refusal::WrongParticipant =>
                "the participant does not exist, or the accounts are under two of them",
            Refusal::WrongPocket => "the account has no such pocket, or it may not pay here",
            Refusal::WrongAsset => "the asset does not exist, or is yen, which is never marked",
            Refusal::OutOfRange => "a number is outside its limits",
            Refusal::WrongStanding => "the participant's standing does not allow it",
            Refusal::OverLimit => "the box cannot hold so many units",
            Refusal::TooFewUnits => "there are not so many units in the box",
            Refusal::BelowMaintenance => "what stays would not cover the maintenance amount",
            Refusal::BeyondEntitlement => "the value is not free to leave the box",
            Refusal::OpenPositions => "accounts of the participant have open positions",
        }
    }
}

impl fmt::Display for Refusal {
    ghost output = { λ refusal. Some (wording refusal) };

    fn fmt<W: fmt::Write>(&self, f: &mut fmt::Formatter<W>) -> fmt::Result {
        f.write_str(self.text())
    }
}
