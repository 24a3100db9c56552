// The crates as a client uses them. Figures and histories that the checker computes stand as contracts; figures of
// the code, edges and bad input as tests, each proved safe and run.
#![tactic(auto)]

mod bad_input;
mod claims;
pub mod lender;
mod margin_amounts;
mod memories;
mod splits;
mod standings;
pub mod two_books;
mod values;
pub mod witnesses;
pub mod worked;
