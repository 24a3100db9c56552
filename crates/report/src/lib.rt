// What the program `claims` prints of an order file.
#![tactic(auto)]

pub mod answer;
mod printing;
pub mod sample;
mod sections;
