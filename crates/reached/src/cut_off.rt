//! The places that are cut off.
ghost use Rattle.std.specs.Prelude.{◌≡◌, ℕ, ◌&&◌, nat_lt};
ghost use Rattle.sets.specs.Flags.{has};
ghost use Rattle.theory.specs.Rows.{at};
ghost use Rattle.theory.specs.Tests.{in_subnet, is_cut_off};

use crate::leads::{input_asked, leads_of, marked_in};
use crate::search::reached_from;
use nets::Net;
use sets::PlaceSet;

/// The places that the tally uses and no block can come to.
pub fn cut_off_places<N: Net>(net: &N, counts: &[u32], tally: &[u16]) -> PlaceSet
    ensures { let M = (N.net net.now) in (p : ℕ) →
        has result p ≡ (nat_lt p M.places && is_cut_off M (at counts.now) (at tally.now) p) }
{
    let marked = marked_in(net, counts);
    used_by(net, tally).difference(reached_from(marked, &leads_of(net, tally)))
}

/// The places at which a step of the tally takes or yields.
fn used_by<N: Net>(net: &N, tally: &[u16]) -> PlaceSet
    ensures { (p : ℕ) → has result p ≡ in_subnet (N.net net.now) (at tally.now) p }
{
    let mut used = PlaceSet::empty();
    for step in 0..net.steps() {
        if let Some(place) = input_asked(net, tally, step) {
            used = used.with(place).union(net.yield_places(step));
        }
    }
    used
}
