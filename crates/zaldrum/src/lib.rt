//! Zaldrum: can a tally of steps be done from where the blocks lie, so that a target is met, and which order of its
//! steps is the first?
//!
//! This crate has nothing of its own. It gives a user of the library one name in place of ten:
//!
//! - A net says where each step takes its block and where it puts blocks down: [`Net`]. [`GridNet`] and [`ChainedNet`]
//!   read the bytes of a file, [`NetTable`] holds in memory what it read from another net.
//! - A board keeps the blocks of 64 places and says how many more fit: [`Board`]. [`CountBoard`] counts them,
//!   [`SlotBoard`] keeps each in a slot; [`Renaming`] and [`Allowance`] are layers over any board, and are boards.
//! - A sitting is a net, a board and how often each step was done: [`Sitting`], with `fire`, `resume` and `survey`. A
//!   resume and a survey are asked by a tally and a [`Target`]; a survey lists [`Finding`]s.
//! - [`hand_over`] makes a list of calls on one sitting and replays its counters on a second one. The whole promise on
//!   fire, resume and survey stands on its contract.
//! - [`judge`] reads an exam sheet and writes its line; [`line_of`] writes it into memory of its own.
//! - [`BoundedList`] adds elements at the front of lent memory.
//! - Whatever refuses says why by a [`Refusal`], and leaves what it was lent as its contract says.
//!
//! ```rust
//! let mut net = GridNet::new();
//! net.load(&DETOUR)?;
//! let mut counts = [0; PLACES];
//! counts[0] = 1;
//! let mut board = CountBoard::new();
//! board.load(&counts, 3)?;
//! let mut sitting = Sitting::new(net, board);
//! let target = Target { numbers: &[0, 0, 1], kind: Kind::Exact.into() };
//! let mut order = [0; 3];
//! assert_eq!(rt; sitting.resume(&[1, 1, 1], target, &mut order), Ok(3));
//! assert_eq!(rt; order, [1, 2, 0]);
//! ```
//!
//! The definitions that the contracts cite can be imported from this crate's specs/ too.
#![tactic(auto)]

pub use answers::{Cause, DONE_LIMIT, FINDINGS_NEEDED, Finding, Kind, Target};
pub use boards::{BOARD_LIMIT, Board, CountBoard, LAST_PLACE, PLACES, all_counts};
pub use bounded_list::{BoundedList, add_found, write_row};
pub use handovers::{
    Answer, Call, Done, HandOver, Memory, OwnedAnswer, OwnedCall, OwnedDone, OwnedRequest, Request,
    Transcript, Unmade, hand_over, make, transcribe,
};
pub use layers::{Allowance, Renaming};
pub use nets::{ChainedNet, GridNet, Net, NetTable};
pub use refusals::Refusal;
pub use sets::{MOST_PLACES, MOST_STEPS, PlaceSet, StepSet};
pub use sheets::{LONGEST_LINE, judge, line_of};
pub use sittings::{DONE_COUNTS, Sitting};
pub use slot_board::{SLOTS, SlotBoard};

#[cfg(test)]
mod tests;
