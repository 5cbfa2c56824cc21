//! Place sets: a set of places 0 to 63 as the 64 flags of one word.
ghost use Rattle.std.specs.Prelude.{◌≡◌, ℕ, ◌^◌, ◌<◌, ◌≤◌, Bool, true, false, not, ◌&&◌};
ghost use Rattle.std.specs.Prelude.{◌||◌, ◌↔◌, IsTrue, MatchOption, ◌==◌, nat_lt};
ghost use Rattle.theory.specs.Laws.{IsLeast};
ghost use Rattle.sets.specs.Flags.{has, first_in, IsEmpty, TakesFirst};
ghost use Rattle.std.specs.Iterator.{at_most};

use crate::MOST_PLACES;
use std::marker::Model;

/// A set of places 0 to 63.
#[derive(Clone, Copy, PartialEq, Eq, Debug)]
pub struct PlaceSet {
    word: u64,
}

// A clause sees the word; `has` reads it.
impl Model for PlaceSet {
    ghost Value = { ℕ };

    ghost view = { λ s. s.word };

    ghost inverse = { λ w. record { word = w } };
}

/// How many places a set can hold, numbered from 0: as many as a word has flags.
const PLACES: u8 = MOST_PLACES as u8;

impl PlaceSet {
    /// The set without places.
    pub fn empty() -> PlaceSet
        ensures answer { IsEmpty result }
        ensures word { result ≡ 0 }
        ensures bound { result < 2 ^ 64 }
    {
        PlaceSet { word: 0 }
    }

    /// The places below the given end, none above 63, that pass a test.
    pub fn passing<F: Fn(u8) -> bool>(end: u8, test: F) -> PlaceSet
        requires { F.IsAlwaysCallable test }
        ensures { (b : ℕ → Bool) → ((p : ℕ) (r : Bool) → p < end → F.post test p r →
            r ≡ b p) → (p : ℕ) → has result p ≡ (nat_lt p end && (nat_lt p 64 && b p)) }
    {
        let mut places = PlaceSet::empty();
        // Where the end is cut off first, `with` need not compare each place with it.
        for place in 0..end.min(PLACES) {
            if test(place) {
                places = places.with(place);
            }
        }
        places
    }

    /// Whether the place is in the set; false above 63.
    pub fn contains(self, place: u8) -> bool
        ensures { result ≡ has self place }
    {
        // The flag first, by the last bits of the place: it is one test, and where it is not set that is all.
        (self.word >> (place % PLACES)) & 1 == 1 && place < PLACES
    }

    /// The set with one place more; a place above 63 leaves it as it is.
    pub fn with(self, place: u8) -> PlaceSet
        ensures answer { (p : ℕ) → has result p ≡ (has self p || (p == place && nat_lt place 64)) }
        ensures grows { has self place ≡ false → place < 64 → self < result }
        ensures bound { result < 2 ^ 64 }
    {
        let word = self.word | (1 << (place % PLACES));
        if place < PLACES {
            PlaceSet { word }
        } else {
            self
        }
    }

    /// The set without one of its places.
    pub fn without(self, place: u8) -> PlaceSet
        ensures { (p : ℕ) → has result p ≡ (has self p && not (p == place)) }
    {
        self.difference(PlaceSet::empty().with(place))
    }

    /// The set without its least place.
    pub fn without_first(self) -> PlaceSet
        ensures answer { (k : ℕ) → IsLeast (has self) 64 k → (p : ℕ) →
            has result p ≡ (has self p && not (p == k)) }
        ensures none { IsEmpty self → IsEmpty result }
        ensures shrinks { 0 < self → result < self }
    {
        // the word less 1 differs from it in its lowest 1 and the zeros below
        PlaceSet {
            word: self.word & self.word.wrapping_sub(1),
        }
    }

    /// The places of either set.
    pub fn union(self, other: PlaceSet) -> PlaceSet
        ensures { (p : ℕ) → has result p ≡ (has self p || has other p) }
    {
        PlaceSet {
            word: self.word | other.word,
        }
    }

    /// The places of this set that are not in the other.
    pub fn difference(self, other: PlaceSet) -> PlaceSet
        ensures answer { (p : ℕ) → has result p ≡ (has self p && not (has other p)) }
        ensures inside { (p : ℕ) → 64 ≤ p → has result p ≡ false }
    {
        PlaceSet {
            word: self.word & !other.word,
        }
    }

    /// Whether some place is in both sets.
    pub fn intersects(self, other: PlaceSet) -> bool
        ensures { IsTrue result ↔ ((p : ℕ) × (has self p ≡ true) × (has other p ≡ true)) }
    {
        self.word & other.word != 0
    }

    /// Whether no place is in the set.
    pub fn is_empty(self) -> bool
        ensures { IsTrue result ↔ IsEmpty self }
    {
        self.word == 0
    }

    /// The least place of the set.
    pub fn first(self) -> Option<u8>
        ensures answer { result ≡ first_in 64 self }
        ensures cases { MatchOption result (IsEmpty self) (IsLeast (has self) 64) }
    {
        // at most 63 where the word is not 0, so the cast keeps it
        (!self.is_empty()).then(|| self.word.trailing_zeros() as u8)
    }

    /// The places of the set, by rising place.
    pub fn iter(self) -> PlaceIter
        ensures { result.rest ≡ self }
    {
        PlaceIter { rest: self }
    }
}

/// The places of a set, by rising place.
#[derive(Drop)]
pub struct PlaceIter {
    /// The places that are still to come.
    rest: PlaceSet,
}

impl Iterator for PlaceIter {
    type Item = u8;

    ghost next_gives = { λ s place t. TakesFirst 64 s.rest place t.rest };

    // Each turn leaves a smaller word.
    ghost remaining = { λ s. at_most s.rest };

    fn next(&mut self) -> Option<u8> {
        let place = self.rest.first()?;
        self.rest = self.rest.without_first();
        Some(place)
    }
}
