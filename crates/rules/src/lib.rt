// What a margin book means: its sizes, values, claims, refusals, orders and questions. The meaning is in specs/; here
// is the arithmetic of values, and the plain types that the meaning speaks of.
#![tactic(auto)]

pub mod accounts;
pub mod asset;
pub mod boxes;
pub mod law;
pub mod pocket;
pub mod refusal;
pub mod row;
pub mod seizure;
pub mod sizes;
pub mod standing;
pub mod value;
