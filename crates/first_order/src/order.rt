//! Finding the first order step by step, and writing each step down.
ghost use Rattle.std.specs.Prelude.{◌≡◌, ℕ, ◌+◌, ◌≤◌, length};
ghost use Rattle.answers.specs.Answers.{written};
ghost use Rattle.answers.specs.States.{yields_asked};
ghost use Rattle.boards.specs.Boards.{board_limit};
ghost use Rattle.theory.specs.Rows.{at};
ghost use Rattle.theory.specs.Tallies.{Realizable, steps_asked};
ghost use Rattle.theory.specs.Tests.{first_order};

use crate::schedule::Schedule;
use boards::PLACES;
use bounded_list::BoundedList;
use nets::Net;
use tallies::steps_asked;

/// Writes the first order of a tally that can be done from these counts through a list over the memory, and answers
/// its length.
pub fn write_first_order<N: Net>(
    net: &N,
    counts: &[u32; PLACES],
    tally: &[u16],
    memory: &mut [u16],
) -> usize
    requires can { Realizable (N.net net.now) (at counts.now) (at tally.now) }
    requires fits { (p : ℕ) → at counts.now p + yields_asked (N.net net.now) (at tally.now) ≤ board_limit }
    requires long { steps_asked (N.net net.now) (at tally.now) ≤ length memory.old }
    ensures answer { result ≡ length (first_order (N.net net.now) (at counts.now) (at tally.now)) }
    ensures memory { memory.new ≡ written (first_order (N.net net.now) (at counts.now) (at tally.now)) memory.old }
{
    let mut schedule = Schedule::new();
    schedule.read(net, counts, tally);
    let mut order = BoundedList::new(memory);
    // Turns are counted, since the order has as many steps as the tally asks for: so the loop is seen to end.
    for _ in 0..steps_asked(net, tally) {
        if let Some(step) = schedule.next_step() {
            schedule.fire(net, step);
            let _ = order.add(step);
        }
    }
    order.len()
}
