//! Firings: a step fired on any board, by the board's own calls.
#![tactic(auto)]

ghost use Rattle.std.specs.Prelude.{◌≡◌, ℕ, ◌+◌, ◌-◌, ◌≤◌, true};
ghost use Rattle.answers.specs.States.{yields_of};
ghost use Rattle.firings.specs.Moves.{can_move, Moved};

mod whole_order;

use boards::Board;
use nets::Net;
pub use whole_order::move_order;

/// Puts the yields of a step down, lowest place first, so that every board fills alike.
fn put_yields<N: Net, B: Board>(net: &N, board: &mut B, step: u16)
    requires { yields_of (N.net net.now) step ≤ B.spare board.old }
    ensures counts { (p : ℕ) → B.counts board.new p ≡ B.counts board.old p + (N.net net.now).yields step p }
    ensures spare { B.spare board.new + yields_of (N.net net.now) step ≡ B.spare board.old }
{
    for place in net.yield_places(step).iter() {
        let _ = board.put(place, u32::from(net.yield_at(step, place)));
    }
}

/// Fires a step of which the caller knows that it can be fired on the board: nothing is asked before the take, and no
/// call is refused.
pub fn move_ready<N: Net, B: Board>(net: &N, board: &mut B, step: u16)
    requires { can_move (N.net net.now) (B.counts board.old) (B.spare board.old) step ≡ true }
    ensures { Moved (N.net net.now) step (B.counts board.old) (B.spare board.old) (B.counts board.new)
        (B.spare board.new) }
{
    if let Some(input) = net.input(step) {
        let _ = board.take(input);
    }
    put_yields(net, board, step);
}
