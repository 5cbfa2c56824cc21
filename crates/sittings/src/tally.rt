//! Firing a whole tally: its first order, written down and fired on the board.
ghost use Rattle.answers.specs.Answers.{resume_refusal};
ghost use Rattle.answers.specs.States.{state_of};
ghost use Rattle.answers.specs.Targets.{lent_target};
ghost use Rattle.sittings.specs.Fired.{Fired};
ghost use Rattle.std.specs.Prelude.{◌≡◌};

use answers::Target;
use boards::{Board, all_counts};
use findings::check_causes;
use firings::move_order;
use first_order::write_first_order;
use nets::Net;
use refusals::Refusal;
use tallies::{Asked, Flow, check_sizes};

/// Does the tally on the board by its first order, notes each step fired in the memory, and says how many there were.
/// `done` has how often each step was done before. Refused as a resume is, with board and memory as they were.
pub fn fire_tally<N: Net, B: Board>(
    net: &N,
    board: &mut B,
    done: &[u16],
    tally: &[u16],
    target: Target<'_>,
    memory: &mut [u16],
) -> Result<usize, Refusal>
    ensures { Fired (N.net net.now) (state_of (B.counts board.old) (B.spare board.old) done.now) tally.now
        (lent_target target.entry) memory.old result (B.counts board.new) (B.spare board.new) memory.new }
{
    let flow = Flow::of(net, tally);
    let kind = check_sizes(&flow, board.spare(), done, target, memory.len())?;
    let counts = all_counts(board);
    let asked = Asked {
        flow: &flow,
        counts: &counts,
        target: target.numbers,
        kind,
    };
    check_causes(&asked)?;
    let length = write_first_order(net, &counts, tally, memory);
    move_order(&flow, board, &memory[..length]);
    Ok(length)
}
