//! The first order of a tally: what is known while it is found, and writing it down.
#![tactic(auto)]

mod order;
mod schedule;
mod takers;

pub use order::write_first_order;
pub use schedule::Schedule;
