//! Hand-overs: a list of calls on one sitting, and its counters replayed on a second one.
#![tactic(auto)]

mod made_calls;
mod owned_calls;
mod perform;
mod second_sitting;
mod sitting_calls;
mod transcripts;

pub use made_calls::make;
pub use owned_calls::{OwnedAnswer, OwnedCall, OwnedDone, OwnedRequest};
pub use second_sitting::{HandOver, Unmade, hand_over};
pub use sitting_calls::{Answer, Call, Done, Memory, Request};
pub use transcripts::{Transcript, transcribe};

#[cfg(test)]
mod tests;
