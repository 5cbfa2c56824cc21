//! Reached places: where blocks can come to by the steps of a tally, where from, and which places are cut off.
#![tactic(auto)]

mod cut_off;
mod leads;
mod origins;
mod search;

pub use cut_off::cut_off_places;
pub use leads::marked_in;
pub use origins::Origins;
