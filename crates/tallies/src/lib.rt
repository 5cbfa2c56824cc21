//! Tallies: what a tally asks of a net, the number that it leaves at each place, and whether the rows and
//! sizes of a call fit.
#![tactic(auto)]

mod asked;
mod by_place;
mod checks;
mod finals;
mod flow;
mod sums;

pub use asked::{done_total, steps_asked, yields_of};
pub use checks::{check_rows, check_sizes, check_survey};
pub use finals::Asked;
pub use flow::Flow;
pub use sums::sum_below;

#[cfg(test)]
mod tests;
