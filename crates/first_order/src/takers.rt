//! The steps that take at each place, in rows of step sets.
ghost use Rattle.std.specs.Prelude.{◌≡◌, ℕ, ◌≤◌, Bool, false, ◌&&◌, ◌==◌};
ghost use Rattle.sets.specs.Flags.{has};
ghost use Rattle.reached.specs.Led.{has_at};

use boards::PLACES;
use sets::{PlaceSet, StepSet};

/// The steps that take at one of the places.
pub(crate) fn takers_at(places: PlaceSet, takers: &[StepSet; PLACES]) -> StepSet
    ensures inside { (t : ℕ) → 128 ≤ t → has result t ≡ false }
    ensures answer { (left : ℕ → Bool) (input : ℕ → ℕ) →
        ((p t : ℕ) → has_at takers.now p t ≡ (left t && input t == p)) → (t : ℕ) →
        has result t ≡ (left t && has places (input t)) }
{
    let mut steps = StepSet::empty();
    for place in places.iter() {
        steps = steps.union(takers[usize::from(place)]);
    }
    steps
}
