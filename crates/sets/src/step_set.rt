//! Step sets: a set of steps 0 to 127 as the 128 flags of one word.
ghost use Rattle.std.specs.Prelude.{◌≡◌, ℕ, ◌^◌, ◌<◌, ◌≤◌, Bool, false, not, ◌&&◌};
ghost use Rattle.std.specs.Prelude.{◌||◌, ◌↔◌, IsTrue, MatchOption, ◌==◌, nat_lt};
ghost use Rattle.theory.specs.Laws.{IsLeast};
ghost use Rattle.sets.specs.Flags.{has, first_in, IsEmpty, TakesFirst};
ghost use Rattle.std.specs.Iterator.{at_most};

use crate::MOST_STEPS;
use std::marker::Model;

// Clauses read its word by the same `has` as that of a `PlaceSet`.
/// A set of steps 0 to 127.
#[derive(Clone, Copy, PartialEq, Eq, Debug)]
pub struct StepSet {
    word: u128,
}

// A clause sees the word; `has` reads it.
impl Model for StepSet {
    ghost Value = { ℕ };

    ghost view = { λ s. s.word };

    ghost inverse = { λ w. record { word = w } };
}

/// How many steps a set can hold, numbered from 0: as many as a word has flags.
const STEPS: u16 = MOST_STEPS as u16;

impl StepSet {
    /// The set without steps.
    pub fn empty() -> StepSet
        ensures answer { IsEmpty result }
        ensures word { result ≡ 0 }
        ensures bound { result < 2 ^ 128 }
    {
        StepSet { word: 0 }
    }

    /// The set with one step more; a step above 127 leaves it as it is.
    pub fn with(self, step: u16) -> StepSet
        ensures answer { (t : ℕ) → has result t ≡ (has self t || (t == step && nat_lt step 128)) }
        ensures grows { has self step ≡ false → step < 128 → self < result }
        ensures bound { result < 2 ^ 128 }
    {
        if step < STEPS {
            StepSet {
                word: self.word | (1 << step),
            }
        } else {
            self
        }
    }

    /// The set without one of its steps.
    pub fn without(self, step: u16) -> StepSet
        ensures answer { (t : ℕ) → has result t ≡ (has self t && not (t == step)) }
        ensures inside { (t : ℕ) → 128 ≤ t → has result t ≡ false }
    {
        self.difference(StepSet::empty().with(step))
    }

    /// The set without its least step.
    pub fn without_first(self) -> StepSet
        ensures answer { (k : ℕ) → IsLeast (has self) 128 k → (t : ℕ) →
            has result t ≡ (has self t && not (t == k)) }
        ensures none { IsEmpty self → IsEmpty result }
        ensures shrinks { 0 < self → result < self }
    {
        // the word less 1 differs from it in its lowest 1 and the zeros below
        StepSet {
            word: self.word & self.word.wrapping_sub(1),
        }
    }

    /// The steps of either set.
    pub fn union(self, other: StepSet) -> StepSet
        ensures answer { (t : ℕ) → has result t ≡ (has self t || has other t) }
        ensures inside { (t : ℕ) → 128 ≤ t → has result t ≡ false }
    {
        StepSet {
            word: self.word | other.word,
        }
    }

    /// The steps of this set that are not in the other.
    pub fn difference(self, other: StepSet) -> StepSet
        ensures answer { (t : ℕ) → has result t ≡ (has self t && not (has other t)) }
        ensures inside { (t : ℕ) → 128 ≤ t → has result t ≡ false }
    {
        StepSet {
            word: self.word & !other.word,
        }
    }

    /// Whether no step is in the set.
    pub fn is_empty(self) -> bool
        ensures { IsTrue result ↔ IsEmpty self }
    {
        self.word == 0
    }

    /// The least step of the set.
    pub fn first(self) -> Option<u16>
        ensures answer { result ≡ first_in 128 self }
        ensures cases { MatchOption result (IsEmpty self) (IsLeast (has self) 128) }
    {
        // at most 127 where the word is not 0, so the cast keeps it
        (!self.is_empty()).then(|| self.word.trailing_zeros() as u16)
    }

    /// The steps of the set, by rising step.
    pub fn iter(self) -> StepIter
        ensures { result.rest ≡ self }
    {
        StepIter { rest: self }
    }
}

/// The steps of a set, by rising step.
#[derive(Drop)]
pub struct StepIter {
    /// The steps that are still to come.
    rest: StepSet,
}

impl Iterator for StepIter {
    type Item = u16;

    ghost next_gives = { λ s step t. TakesFirst 128 s.rest step t.rest };

    // Each turn leaves a smaller word.
    ghost remaining = { λ s. at_most s.rest };

    fn next(&mut self) -> Option<u16> {
        let step = self.rest.first()?;
        self.rest = self.rest.without_first();
        Some(step)
    }
}
