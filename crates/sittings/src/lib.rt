//! Sittings: work with a net on a board, one step or a whole tally at a time, and the counters of it.
#![tactic(auto)]

mod done_rows;
mod sitting;
mod tally;

pub use sitting::{DONE_COUNTS, Sitting};
pub use tally::fire_tally;
