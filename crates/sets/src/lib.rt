//! Sets of places and of steps in one word each, the limits of both, and the least of numbered things.
#![tactic(auto)]

mod least;
mod place_set;
mod step_set;

pub use least::least_below;
pub use place_set::{PlaceIter, PlaceSet};
pub use step_set::{StepIter, StepSet};

/// The most places that a net has, how many a board has, and how many a place set can hold: numbered from 0.
pub const MOST_PLACES: usize = 64;

/// The most steps that a net has, and how many a step set can hold: numbered from 0.
pub const MOST_STEPS: usize = 128;
