//! Where each place is reached from.
ghost use Rattle.std.specs.Prelude.{◌≡◌, ℕ, ◌<◌, ◌≤◌, true, false, not, ◌&&◌, ◌||◌};
ghost use Rattle.std.specs.Prelude.{◌==◌, ◌↔◌, IsTrue, length};
ghost use Rattle.sets.specs.Flags.{has};
ghost use Rattle.reached.specs.Led.{OtherOrigin, has_at};
ghost use Rattle.theory.specs.Rows.{at};

use crate::search::reached_from;
use sets::{MOST_PLACES, PlaceSet};

/// The places from which each place is reached: at once, and over any others. What a search found is kept until a
/// place is lost as an origin, so that the same place can be asked for often.
#[derive(Drop)]
pub struct Origins {
    /// For each place, from where it is reached at once.
    pub(crate) before: [PlaceSet; MOST_PLACES],
    /// For each place in `known`, all other places from which it is reached.
    above: [PlaceSet; MOST_PLACES],
    known: PlaceSet,
    ghost found: { (p : ℕ) → p < 64 → has known p ≡ true → (q : ℕ) →
        IsTrue (has_at above p q) ↔ OtherOrigin (has_at before) p q },
}

impl Origins {
    /// No place is reached from another.
    pub fn new() -> Origins
        ensures { (p : ℕ) → at result.before p ≡ 0 }
    {
        Origins {
            before: [PlaceSet::empty(); MOST_PLACES],
            above: [PlaceSet::empty(); MOST_PLACES],
            known: PlaceSet::empty(),
        }
    }

    /// The given places are reached at once from the origin too.
    pub fn add(&mut self, places: PlaceSet, origin: u8)
        requires { origin < 64 }
        ensures { (p q : ℕ) → has_at self.new.before p q
            ≡ (has_at self.old.before p q || (has places p && q == origin)) }
    {
        self.known = PlaceSet::empty();
        put_in(&mut self.before, places, origin);
    }

    /// The other places from which the place is reached.
    pub fn others(&mut self, place: u8) -> PlaceSet
        requires { place < 64 }
        ensures same { self.new.before ≡ self.old.before }
        ensures answer { (q : ℕ) → IsTrue (has result q) ↔ OtherOrigin (has_at self.old.before) place q }
    {
        if !self.known.contains(place) {
            let first = PlaceSet::empty().with(place);
            let all = reached_from(first, &self.before);
            self.above[usize::from(place)] = all.without(place);
            self.known = self.known.with(place);
        }
        self.above[usize::from(place)]
    }

    /// The given places are no longer reached at once from the origin.
    pub fn lose(&mut self, places: PlaceSet, origin: u8)
        ensures { (p q : ℕ) → has_at self.new.before p q
            ≡ (has_at self.old.before p q && not (has places p && q == origin)) }
    {
        if !places.is_empty() {
            self.known = PlaceSet::empty();
            take_out(&mut self.before, places, origin);
        }
    }
}

/// Adds the origin at each of the places.
fn put_in(before: &mut [PlaceSet; MOST_PLACES], places: PlaceSet, origin: u8)
    requires { origin < 64 }
    ensures { (p q : ℕ) → has_at before.new p q ≡ (has_at before.old p q || (has places p && q == origin)) }
{
    for place in places.iter() {
        let row = usize::from(place);
        before[row] = before[row].with(origin);
    }
}

/// Takes the origin out at each of the places.
fn take_out(before: &mut [PlaceSet; MOST_PLACES], places: PlaceSet, origin: u8)
    ensures { (p q : ℕ) → has_at before.new p q ≡ (has_at before.old p q && not (has places p && q == origin)) }
{
    for place in places.iter() {
        let row = usize::from(place);
        before[row] = before[row].without(origin);
    }
}
