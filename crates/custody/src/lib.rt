// Who holds the deposits: the custodian as a trait, a custodian over memory that the caller lends, as numbers or as
// bytes, and one that joins any two.
#![tactic(auto)]

pub mod cell;
pub mod custodian;
pub mod lent;
pub mod memory;
pub mod page;
pub mod register;
pub mod split;
