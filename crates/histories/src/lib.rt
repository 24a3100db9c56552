#![tactic(auto)]

// Whole histories on real books: orders given one after the other, with what each must be answered and what the parties
// may claim at the end. All of it is tests; the expected numbers come from a model of the rules in another language.
#[cfg(test)]
mod balance;
#[cfg(test)]
mod calls;
#[cfg(test)]
mod files;
#[cfg(test)]
mod given;
#[cfg(test)]
mod walks;
