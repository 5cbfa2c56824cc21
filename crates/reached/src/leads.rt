//! What the steps of a tally lead to at once.
ghost use Rattle.std.specs.Prelude.{◌≡◌, ℕ, ◌<◌, ◌&&◌, nat_lt, MatchOption};
ghost use Rattle.sets.specs.Flags.{has};
ghost use Rattle.reached.specs.Led.{has_at};
ghost use Rattle.reached.specs.Leads.{leads_to};
ghost use Rattle.theory.specs.Rows.{at};

use nets::Net;
use sets::{MOST_PLACES, PlaceSet};

/// The input of a step that the tally asks for.
pub fn input_asked<N: Net>(net: &N, tally: &[u16], step: u16) -> Option<u8>
    ensures { let M = (N.net net.now) in MatchOption result (step < M.steps →
        at tally.now step ≡ 0) (λ p. (p ≡ M.input step) × (step < M.steps) × (0 < at tally.now step)) }
{
    match tally.get(usize::from(step)).copied().unwrap_or(0) {
        0 => None,
        _ => net.input(step),
    }
}

/// For each place, where the steps of the tally that take there yield.
pub fn leads_of<N: Net>(net: &N, tally: &[u16]) -> [PlaceSet; MOST_PLACES]
    ensures { (q p : ℕ) → has_at result q p ≡ leads_to (N.net net.now) (at tally.now) q p }
{
    let mut leads = [PlaceSet::empty(); MOST_PLACES];
    for step in 0..net.steps() {
        if let Some(place) = input_asked(net, tally, step) {
            let place = usize::from(place);
            leads[place] = leads[place].union(net.yield_places(step));
        }
    }
    leads
}

/// The places of the net that hold a block.
pub fn marked_in<N: Net>(net: &N, counts: &[u32]) -> PlaceSet
    ensures { let M = (N.net net.now) in
        (p : ℕ) → has result p ≡ (nat_lt p M.places && nat_lt 0 (at counts.now p)) }
{
    PlaceSet::passing(
        net.places(),
        |place| counts.get(usize::from(place)).copied().unwrap_or(0) > 0,
    )
}
