//! The places that are reached, by one search over the words of flags.
ghost use Rattle.std.specs.Prelude.{ℕ, ◌↔◌, IsTrue};
ghost use Rattle.sets.specs.Flags.{has};
ghost use Rattle.reached.specs.Led.{Led, has_at};

use sets::{MOST_PLACES, PlaceSet};

/// The given places, and all that they lead to; `leads` has for each place where it leads at once.
pub(crate) fn reached_from(first: PlaceSet, leads: &[PlaceSet; MOST_PLACES]) -> PlaceSet
    ensures { (p : ℕ) → IsTrue (has result p) ↔ Led (has_at leads.now) (has first) p }
{
    // A work list: each turn may add places to `seen`, so no walk over one set will do.
    let mut seen = first;
    let mut done = PlaceSet::empty();
    while let Some(place) = seen.difference(done).first() {
        done = done.with(place);
        seen = seen.union(leads[usize::from(place)]);
    }
    seen
}
