//! A whole order moved on a board.
ghost use Rattle.std.specs.Prelude.{◌≡◌, ◌+◌, ◌-◌, ◌≤◌, length};
ghost use Rattle.answers.specs.Calls.{order_yields};
ghost use Rattle.answers.specs.States.{yields_asked};
ghost use Rattle.firings.specs.Moves.{MovedBy, MovedAtOnce};
ghost use Rattle.theory.specs.Firing.{CanFire, after};
ghost use Rattle.theory.specs.Rows.{at};
ghost use Rattle.theory.specs.Tallies.{Realizes, steps_asked};

use crate::move_ready;
use boards::Board;
use nets::Net;
use tallies::Flow;

/// So few steps are sooner moved one by one than all places at once.
const FEW_STEPS: usize = 64;

/// Moves an order step by step, where it can be fired and spare holds all that it yields.
fn move_each<N: Net, B: Board>(net: &N, board: &mut B, order: &[u16])
    requires fires { CanFire (N.net net.now) (B.counts board.old) order.now }
    requires room { order_yields (N.net net.now) order.now ≤ B.spare board.old }
    ensures { MovedBy (N.net net.now) order.now (B.counts board.old) (B.spare board.old) (B.counts board.new)
        (B.spare board.new) }
{
    for step in order {
        move_ready(net, board, *step);
    }
}

/// Moves the blocks of all places at once, where the board can do that and the steps are many, and says whether it did;
/// `steps` is how many the tally asks for.
fn move_at_once<N: Net, B: Board>(flow: &Flow<'_, N>, board: &mut B, steps: usize) -> bool
    requires few { steps ≤ 65535 }
    requires room { yields_asked (N.net flow.now.net.now) (at flow.now.tally.now) ≤ B.spare board.old }
    ensures { MovedAtOnce (N.net flow.now.net.now) (at flow.now.tally.now) steps result (B.counts board.old)
        (B.spare board.old) (B.counts board.new) (B.spare board.new) }
{
    if steps < FEW_STEPS {
        return false;
    }
    // both are below 2^32, so the casts keep them
    let yielded = flow.yields_asked() as u32;
    board.move_all(flow.spent_row(), flow.gained_row(), steps as u32, yielded)
}

/// Moves an order that does the tally of the flow, where spare holds all that the tally yields: all places at once, if
/// the board can do that, and else step by step.
pub fn move_order<N: Net, B: Board>(flow: &Flow<'_, N>, board: &mut B, order: &[u16])
    requires does { Realizes (N.net flow.now.net.now) (B.counts board.old) (at flow.now.tally.now) order.now }
    requires few { length order.now ≤ 65535 }
    requires room { yields_asked (N.net flow.now.net.now) (at flow.now.tally.now) ≤ B.spare board.old }
    ensures counts { B.counts board.new ≡ after (N.net flow.now.net.now) (B.counts board.old) order.now }
    ensures spare { let M = (N.net flow.now.net.now) in
        B.spare board.new ≡ (B.spare board.old + steps_asked M (at flow.now.tally.now))
        - yields_asked M (at flow.now.tally.now) }
{
    if !move_at_once(flow, board, order.len()) {
        move_each(flow.net, board, order);
    }
}
