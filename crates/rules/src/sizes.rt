// How many there are of each thing, and how large a number may be.

/// Accounts, numbered from 0; the first `PARTICIPANTS` of them are the house accounts.
pub const ACCOUNTS: u16 = 64;

/// Participants, numbered from 0.
pub const PARTICIPANTS: u8 = 8;

/// Contracts that an account has counts of, numbered from 0.
pub const CONTRACTS: usize = 8;

/// Pockets of an account: direct and replacement.
pub const POCKETS: u8 = 2;

/// Assets, numbered from 0.
pub const ASSETS: u8 = 4;

/// The most units that one box can hold, and that one order can move.
pub const MOST_UNITS: u64 = 100_000_000_000;

/// The most yen that one amount of a row can be.
pub const MOST_AMOUNT: u64 = 1_000_000_000_000_000;

/// The highest price that can be marked.
pub const MOST_PRICE: u32 = 100_000;

/// The whole of a value, in the thousandths that a haircut counts.
pub const MOST_HAIRCUT: u16 = 1_000;

/// The most lots that one count can be.
pub const MOST_COUNT: u32 = 1_000_000;

// The same numbers as lengths of arrays.

/// `ACCOUNTS` as a length.
pub const ACCOUNTS_LEN: usize = ACCOUNTS as usize;

/// `PARTICIPANTS` as a length.
pub const PARTICIPANTS_LEN: usize = PARTICIPANTS as usize;

/// `ASSETS` as a length.
pub const ASSETS_LEN: usize = ASSETS as usize;

/// Boxes: one for each account, pocket and asset.
pub const BOXES: usize = ACCOUNTS_LEN * POCKETS as usize * ASSETS_LEN;
