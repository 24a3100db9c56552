// The order file: what back offices send in, read and run on any margin book.
#![tactic(auto)]

pub mod accepted;
pub mod fault;
mod fields;
mod file_order;
pub mod law;
pub mod limits;
mod order_kind;
mod raw_order;
mod reading;
pub mod run;
