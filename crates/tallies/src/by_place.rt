//! What a tally takes from each place and puts down there: all places in one pass over the steps.
ghost use Rattle.std.specs.Prelude.{◌≡◌, ℕ, ◌+◌, ◌*◌, ◌^◌, ◌<◌};
ghost use Rattle.theory.specs.Rows.{at};
ghost use Rattle.theory.specs.Tallies.{spent, gained};

use crate::asked::times;
use nets::Net;
use sets::MOST_PLACES;

/// The blocks that the steps of the tally take from each place.
pub fn spent_by_place<N: Net>(net: &N, tally: &[u16]) -> [u32; MOST_PLACES]
    ensures { (p : ℕ) → at result p ≡ spent (N.net net.now) (at tally.now) p }
{
    let mut row = [0; MOST_PLACES];
    for step in 0..net.steps() {
        if let Some(place) = net.input(step) {
            row[usize::from(place)] += u32::from(times(tally, step));
        }
    }
    row
}

/// The blocks that the steps of the tally yield at each place.
pub fn gained_by_place<N: Net>(net: &N, tally: &[u16]) -> [u32; MOST_PLACES]
    ensures { (p : ℕ) → at result p ≡ gained (N.net net.now) (at tally.now) p }
{
    let mut row = [0; MOST_PLACES];
    for step in 0..net.steps() {
        let times = times(tally, step);
        if times > 0 {
            add_yields(&mut row, net, step, times);
        }
    }
    row
}

/// Adds to a row what a step yields at each place, so many times.
fn add_yields<N: Net>(row: &mut [u32; MOST_PLACES], net: &N, step: u16, times: u16)
    requires { (p : ℕ) → at row.old p < 2 ^ 31 }
    ensures { (p : ℕ) → at row.new p ≡ at row.old p + times * (N.net net.now).yields step p }
{
    // Most steps yield at few places, and only these are gone over.
    for place in net.yield_places(step).iter() {
        row[usize::from(place)] += u32::from(times) * u32::from(net.yield_at(step, place));
    }
}
