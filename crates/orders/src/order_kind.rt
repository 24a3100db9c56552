ghost use Rattle.std.specs.Prelude.{◌≡◌};
ghost use Rattle.orders.specs.Kinds.{size, kinds, found};
ghost use Rattle.orders.specs.RawOrders.{kind_read, body_read, kind_named, named, known};

use crate::raw_order::RawOrder;
use rules::refusal::Refusal;

// Beside `RawOrder`, which has a body in each case (a rule of the project): how many bytes a body takes has to be known of
// the kind before there is a body.
/// What a kind byte stands for.
#[derive(Clone, Copy, PartialEq, Eq, Debug)]
pub(crate) enum OrderKind {
    Open,
    Mark,
    Position,
    Declare,
    Deposit,
    Withdraw,
    Suspend,
    Settle,
    Seize,
}

impl TryFrom<u8> for OrderKind {
    type Error = Refusal;

    /// The kind of the table that has this number, or the refusal of a number that none has.
    ghost try_from_gives = { λ byte kind. named kind ≡ known (found byte kinds) };

    fn try_from(byte: u8) -> Result<Self, Refusal> {
        match byte {
            1 => Ok(OrderKind::Open),
            2 => Ok(OrderKind::Mark),
            3 => Ok(OrderKind::Position),
            4 => Ok(OrderKind::Declare),
            5 => Ok(OrderKind::Deposit),
            6 => Ok(OrderKind::Withdraw),
            7 => Ok(OrderKind::Suspend),
            8 => Ok(OrderKind::Settle),
            9 => Ok(OrderKind::Seize),
            _ => Err(Refusal::UnknownKind),
        }
    }
}

impl OrderKind {
    /// How many bytes the body of an order of this kind has.
    pub(crate) fn body_size(self) -> usize
        ensures { result ≡ size (kind_named self) }
    {
        match self {
            OrderKind::Open => 2,
            OrderKind::Mark => 7,
            OrderKind::Position => 10,
            OrderKind::Declare => 25,
            OrderKind::Deposit | OrderKind::Withdraw => 11,
            OrderKind::Suspend | OrderKind::Settle => 1,
            OrderKind::Seize => 13,
        }
    }

    /// The order of this kind that has a body.
    pub(crate) fn order(self, body: &[u8]) -> RawOrder
        ensures kind { kind_read result ≡ kind_named self }
        ensures body { body_read result ≡ body.now }
    {
        match self {
            OrderKind::Open => RawOrder::Open(body),
            OrderKind::Mark => RawOrder::Mark(body),
            OrderKind::Position => RawOrder::Position(body),
            OrderKind::Declare => RawOrder::Declare(body),
            OrderKind::Deposit => RawOrder::Deposit(body),
            OrderKind::Withdraw => RawOrder::Withdraw(body),
            OrderKind::Suspend => RawOrder::Suspend(body),
            OrderKind::Settle => RawOrder::Settle(body),
            OrderKind::Seize => RawOrder::Seize(body),
        }
    }
}
