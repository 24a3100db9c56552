// The figures of a book: what deposits are worth, what each customer and each participant may claim, and what is
// withheld and retained. They are worked out over anything that a book's state can be read from.
#![tactic(auto)]

mod after;
pub mod claims;
pub mod coverage;
pub mod ledger;
pub mod lots;
pub mod owners;
mod parts;
mod pool;
pub mod seizures;
mod shares;
mod tiers;
mod values;
pub mod withdrawals;
