//! How many steps a tally asks for, how many were done, and what a step yields in all.
ghost use Rattle.std.specs.Prelude.{◌≡◌, ◌^◌, ◌<◌};
ghost use Rattle.answers.specs.States.{yields_of};
ghost use Rattle.theory.specs.Rows.{at};
ghost use Rattle.theory.specs.Sums.{sum_to};
ghost use Rattle.theory.specs.Tallies.{steps_asked};

use crate::sums::sum_below;
use nets::Net;
use sets::{MOST_PLACES, MOST_STEPS};

/// How often a row has a step; 0 past its end.
pub(crate) fn times(row: &[u16], step: u16) -> u16
    ensures { result ≡ at row.now step }
{
    row.get(usize::from(step)).copied().unwrap_or(0)
}

// Each total states its bound, of one number, so that a caller can add two.

/// How many steps the tally asks for.
pub fn steps_asked<N: Net>(net: &N, tally: &[u16]) -> u64
    ensures answer { result ≡ steps_asked (N.net net.now) (at tally.now) }
    ensures bound { result < 2 ^ 48 }
{
    sum_below(net.steps(), |step| u32::from(times(tally, step)))
}

/// How many steps were done, by the counts of a done row.
pub fn done_total(done: &[u16]) -> u64
    ensures answer { result ≡ sum_to (at done.now) 128 }
    ensures bound { result < 2 ^ 48 }
{
    // a constant that fits, so the cast keeps it
    sum_below(MOST_STEPS as u16, |step| u32::from(times(done, step)))
}

/// All blocks that one firing of the step yields.
pub fn yields_of<N: Net>(net: &N, step: u16) -> u32
    ensures answer { result ≡ yields_of (N.net net.now) step }
    ensures bound { result < 2 ^ 14 }
{
    let mut row = [0; MOST_PLACES];
    net.read_yields(step, &mut row);
    let mut sum = 0;
    for blocks in &row {
        sum += u32::from(*blocks);
    }
    sum
}
