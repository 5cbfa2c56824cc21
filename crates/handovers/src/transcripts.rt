//! A hand-over with all that was said kept, for the programs that print it.
ghost use Rattle.answers.specs.States.{new_on, state_of};
ghost use Rattle.handovers.specs.HandedOver.{counters_of};
ghost use Rattle.handovers.specs.Performed.{Kept, owned_call, said_of};
ghost use Rattle.handovers.specs.Transcripts.{Transcribed};
ghost use Rattle.sittings.specs.Sittings.{sitting_state};
ghost use Rattle.std.specs.Prelude.{IfOk, map};
ghost use Rattle.theory.specs.Rows.{at};

use crate::owned_calls::{OwnedAnswer, OwnedCall};
use crate::perform::{kept, perform_all};
use crate::second_sitting::replay;
use boards::{Board, PLACES, all_counts};
use nets::Net;
use sittings::{DONE_COUNTS, Sitting};
use std::alloc::{AllocError, Global};

/// What was said on both sittings of a hand-over, and what they hold at the end.
#[derive(Drop)]
pub struct Transcript<N: Net, B: Board, C: Board> {
    /// What was said to each call on the first sitting, in turn.
    pub said: Vec<OwnedAnswer>,
    /// The first sitting's board.
    pub board: B,
    /// The first sitting's done row.
    pub done: [u16; DONE_COUNTS],
    /// What was said to the resume on the second sitting.
    pub replay: OwnedAnswer,
    /// The second sitting.
    pub second: Sitting<N, C>,
}

/// Hands counters over to a new sitting, with memory of so many entries, and keeps what was said.
fn replay_kept<N: Net + Drop, C: Board + Drop>(
    alloc: Global,
    net: N,
    board: C,
    done: &[u16; DONE_COUNTS],
    marking: &[u32; PLACES],
    memory: usize,
) -> Result<(OwnedAnswer, Sitting<N, C>), AllocError>
    ensures { IfOk result (λ h.
        let counters = counters_of (N.net net) (state_of (at marking.now) 0 done.now) memory in
        Kept (N.net net) (new_on (C.counts board) (C.spare board)) counters (said_of h.0) (sitting_state C.Board h.1)) }
{
    let mut order = vec![in alloc; 0u16; memory]?;
    let (told, second) = replay(net, board, done, marking, order.as_mut_slice());
    Ok((kept(told, order, Vec::new(alloc)), second))
}

/// Makes the calls of a hand-over, each with memory of its own, and keeps what was said to each. The replay has
/// memory of so many steps. Where memory is short nothing is given back, and nothing is promised.
pub fn transcribe<N: Net + Drop, B: Board + Drop, C: Board + Drop>(
    alloc: Global,
    net: N,
    first: B,
    second: C,
    calls: &[OwnedCall],
    memory: usize,
) -> Result<Transcript<N, B, C>, AllocError>
    ensures transcribed { IfOk result (λ h.
        let start = new_on (B.counts first) (B.spare first) in
        let other = new_on (C.counts second) (C.spare second) in
        let left = state_of (B.counts h.board) (B.spare h.board) h.done in
        Transcribed (N.net net) start other (map owned_call calls.now) memory (map said_of h.said.items) left
        (said_of h.replay) (sitting_state C.Board h.second)) }
{
    let mut sitting = Sitting::new(net, first);
    let said = perform_all(alloc, &mut sitting, calls)?;
    let (net, board, done) = sitting.into_parts();
    let counts = all_counts(&board);
    let (replay, second) = replay_kept(alloc, net, second, &done, &counts, memory)?;
    Ok(Transcript {
        said,
        board,
        done,
        replay,
        second,
    })
}
