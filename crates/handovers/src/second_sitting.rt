//! A list of calls on a new sitting, and its counters handed over to a second one, over lent memory alone.
ghost use Rattle.answers.specs.Pinned.{Pinned};
ghost use Rattle.answers.specs.Promise.{Promise};
ghost use Rattle.answers.specs.States.{new_on, state_of};
ghost use Rattle.handovers.specs.Made.{call_of, Made};
ghost use Rattle.handovers.specs.HandedOver.{counters_of, HandedOver};
ghost use Rattle.sittings.specs.Sittings.{sitting_net, sitting_state};
ghost use Rattle.std.specs.Prelude.{◌≡◌, ◌<◌, [], IfErr, IfOk, length, map, MatchResult, OnErr};
ghost use Rattle.theory.specs.Rows.{at};

use crate::made_calls::{make, make_all};
use crate::sitting_calls::{Answer, Call, Memory, Request};
use answers::{Kind, Target};
use boards::{Board, PLACES, all_counts};
use nets::Net;
use sittings::{DONE_COUNTS, Sitting};

/// What a hand-over leaves, beside what stands in memory.
#[derive(Drop)]
pub struct HandOver<N: Net, B: Board, C: Board> {
    /// The first sitting's board.
    pub board: B,
    /// The first sitting's done row: how often each step was done, by its number; 65,535 in all at most.
    pub done: [u16; DONE_COUNTS],
    /// What was said to the resume on the second sitting.
    pub replay: Answer,
    /// The second sitting.
    pub second: Sitting<N, C>,
}

/// A hand-over that is refused, as its row for what is said is shorter than its list of calls: what was given,
/// unchanged.
#[derive(Drop)]
pub struct Unmade<N: Net, B: Board, C: Board> {
    /// The net.
    pub net: N,
    /// The board of the first sitting.
    pub first: B,
    /// The board of the second sitting.
    pub second: C,
}

/// Hands counters over to a new sitting: a resume that does each step as often as the done row says, with the counts as
/// its exact target.
pub(crate) fn replay<N: Net, C: Board>(
    net: N,
    board: C,
    done: &[u16; DONE_COUNTS],
    marking: &[u32; PLACES],
    order: &mut [u16],
) -> (Answer, Sitting<N, C>)
    ensures net { sitting_net result.1 ≡ net }
    ensures made { Made (N.net net) (new_on (C.counts board) (C.spare board))
        (counters_of (N.net net) (state_of (at marking.now) 0 done.now) (length order.old)) order.old []
        result.0 (sitting_state C.Board result.1) order.new [] }
{
    let request = Request {
        tally: &done[..usize::from(net.steps())],
        target: Target {
            numbers: &marking[..usize::from(net.places())],
            kind: Kind::Exact.into(),
        },
    };
    let mut sitting = Sitting::new(net, board);
    let answer = make(&mut sitting, &Call::Resume(request), order, &mut []);
    (answer, sitting)
}

/// Makes a list of calls on a first new sitting, and then hands its counters over to a second new one, which gets the
/// net and has a board of its own: one resume there asks for every step as often as the first sitting has done it, and
/// for just the blocks that lie on the first board in the end, place by place.
///
/// The memory is written from the front, and what stands behind stays. What is said to a call, a refusal too, stands
/// in the row `said` at the call's number; what is said to the resume of the second sitting is in the result. Any
/// lengths of the memory will do but one: a row `said` with fewer entries than there are calls is refused before any
/// call is made, and the net, the boards and the memory are as they were. Nothing is allocated.
pub fn hand_over<N: Net, B: Board, C: Board>(
    net: N,
    first: B,
    second: C,
    calls: &[Call<'_>],
    memory: Memory<'_>,
) -> Result<HandOver<N, B, C>, Unmade<N, B, C>>
    ensures promise { Promise }
    ensures pinned { Pinned }
    ensures net { MatchResult result (λ h. sitting_net h.second ≡ net) (λ u. u.net ≡ net) }
    ensures handed_over { IfOk result (λ h.
        let start = new_on (B.counts first) (B.spare first) in
        let other = new_on (C.counts second) (C.spare second) in
        let before = memory.entry in
        let asked = map (call_of (length before.order.now) (length before.findings.now)) calls.now in
        let left = state_of (B.counts h.board) (B.spare h.board) h.done in
        HandedOver (N.net net) start other asked before.order.now before.findings.now before.said.now
        before.replay.now left (sitting_state C.Board h.second) h.replay memory.exit.0.now
        memory.exit.1.0.now memory.exit.1.1.0.now memory.exit.1.1.1.0.now) }
    ensures refused { IfErr result (λ u. (length memory.entry.said.now < length calls.now)
        × (u.first ≡ first) × (u.second ≡ second)) }
    ensures unwritten { OnErr result (
        (memory.exit.0.now ≡ memory.entry.order.now) × (memory.exit.1.0.now ≡ memory.entry.findings.now)
        × (memory.exit.1.1.0.now ≡ memory.entry.said.now) × (memory.exit.1.1.1.0.now ≡ memory.entry.replay.now)) }
{
    let Memory {
        order,
        findings,
        said,
        replay: replay_order,
    } = memory;
    if said.len() < calls.len() {
        return Err(Unmade { net, first, second });
    }
    let mut sitting = Sitting::new(net, first);
    make_all(&mut sitting, calls, order, findings, said);
    let (net, board, done) = sitting.into_parts();
    let counts = all_counts(&board);
    let (replay, second) = replay(net, second, &done, &counts, replay_order);
    Ok(HandOver {
        board,
        done,
        replay,
        second,
    })
}
