// The margin book over any custodian and any two margin methods.
#![tactic(auto)]

pub mod book;
mod checks;
mod limits;
mod making;
mod mark;
mod moves;
pub mod orders;
mod reading;
mod records;
mod rows;
mod table;
