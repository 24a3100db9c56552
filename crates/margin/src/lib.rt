// How much margin an account must be covered by: margin methods as a trait, and net, gross and worst-loss margin.
#![tactic(auto)]

pub mod comparisons;
mod counting;
pub mod counts;
pub mod gross;
pub mod lot_counting;
pub mod method;
pub mod net;
pub mod rate_margin;
mod rates;
pub mod scenarios;
pub mod worst_loss;
