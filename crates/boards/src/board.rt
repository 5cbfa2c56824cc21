//! The trait of boards: where the blocks of a sitting lie, and five calls that read and move them.
ghost use Rattle.boards.specs.Boards.{BoardLaw, IndexSays, TakeSays, PutSays, MoveAllSays};
ghost use Rattle.std.specs.Prelude.{◌≡◌, ℕ, slice_index, ◌+◌, ◌<◌, MatchOption, ◌⊎◌};
ghost use Rattle.theory.specs.Rows.{at};

use refusals::Refusal;
use sets::MOST_PLACES;
use std::array;

/// How many places a board has, numbered from 0.
pub const PLACES: usize = MOST_PLACES;

/// The highest place of a board.
pub const LAST_PLACE: u8 = PLACES as u8 - 1;

/// The place as an index into a row of all places. Refused: `NoSuchPlace` from place 64 on.
pub fn index_of(place: u8) -> Result<usize, Refusal>
    ensures answer { IndexSays place result }
{
    if place > LAST_PLACE {
        return Err(Refusal::NoSuchPlace);
    }
    Ok(usize::from(place))
}

/// The most blocks that a board has room for, those that lie on it included.
pub const BOARD_LIMIT: u32 = 2_147_483_647;

/// The number raised by `more` and then lowered by `fewer`; none where one of the two is no `u32`.
pub fn raised_and_lowered(number: u32, more: u32, fewer: u32) -> Option<u32>
    ensures answer { MatchOption result ((4294967295 < number + more)
        ⊎ (number + more < fewer)) (λ n. n + fewer ≡ number + more) }
{
    number.checked_add(more)?.checked_sub(fewer)
}

/// A board holds a marking: blocks (tokens) at 64 places, numbered from 0, of which a net uses the first ones. Spare
/// is the room that is left, in blocks. A refused call leaves all counts and spare as they were.
pub trait Board {
    // how many blocks lie at each place
    ghost counts: { Self → ℕ → ℕ };

    // how many more blocks may be put down
    ghost spare: { Self → ℕ };

    /// How many blocks lie at the place; from 64 on there are no places, so none.
    fn count(&self, place: u8) -> u32
        ensures answer { result ≡ counts self.now place };

    /// How many more blocks the board has room for.
    fn spare(&self) -> u32
        ensures answer { result ≡ spare self.now };

    /// Moves one block from the place to spare. Refused: `NoSuchPlace`, else `PlaceEmpty` where none lies.
    fn take(&mut self, place: u8) -> Result<(), Refusal>
        ensures answer { TakeSays place (counts self.old) (spare self.old) result (counts self.new) (spare self.new) };

    /// Moves n blocks, or none, from spare to the place. Refused: `NoSuchPlace`, else `PutAboveSpare` where fewer fit.
    fn put(&mut self, place: u8, n: u32) -> Result<(), Refusal>
        ensures answer { PutSays place n (counts self.old) (spare self.old) result (counts self.new) (spare self.new) };

    /// Moves so many blocks from and to each place in one go, `all_taken` and `all_put` in all, where the board can do
    /// so; otherwise says no and is as it was. A board whose blocks have places of their own, as slots, need not.
    fn move_all(
        &mut self,
        taken: &[u32; PLACES],
        put: &[u32; PLACES],
        all_taken: u32,
        all_put: u32,
    ) -> bool
        ensures answer { MoveAllSays (at taken.now) (at put.now) all_taken all_put (counts self.old)
            (spare self.old) result (counts self.new) (spare self.new) }
    {
        false
    }

    ghost outside: { (b : Self) (p : ℕ) → 63 < p → counts b p ≡ 0 };

    ghost bounded: { (b : Self) → BoardLaw (counts b) (spare b) };
}

/// The counts of the 64 places.
pub fn all_counts<B: Board>(board: &B) -> [u32; PLACES]
    ensures answer { (p : ℕ) → slice_index result p ≡ B.counts board.now p }
{
    // an index of the array, so the cast keeps it
    array::from_fn(|place| board.count(place as u8))
}
