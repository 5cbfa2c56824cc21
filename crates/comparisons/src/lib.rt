//! What the programs share that compare answers with stored tables.
#![tactic(auto)]

mod comparison;
mod digest;
mod outcomes;

pub use comparison::{Comparison, Line, compare_all, next_line};
pub use digest::Digest;
pub use outcomes::{Outcomes, Refused};

#[cfg(test)]
mod tests;
