//! The count board: a number for each place, and spare.
ghost use Rattle.std.specs.Prelude.{◌≡◌, ◌*◌, ◌≤◌, length, replicate, IfSome, MatchBool};
ghost use Rattle.theory.specs.Sums.{sum_to};
ghost use Rattle.boards.specs.Boards.{BoardLaw};
ghost use Rattle.theory.specs.Rows.{at};
ghost use Rattle.boards.specs.Rows.{LoadSays, RowMoved};
ghost use Rattle.std.proofs.Common.{arith, rules};
ghost use Rattle.std.proofs.lemmas.List.{get_or_past};

use crate::board::{BOARD_LIMIT, Board, PLACES, index_of, raised_and_lowered};
use refusals::Refusal;

/// A board that keeps the 64 counts and spare as numbers.
// clauses name the fields: under an `impl Model` the laws of a board stay open, which rest on the ghost fields
#[derive(Drop)]
pub struct CountBoard {
    counts: [u32; PLACES],
    spare: u32,
    // the law `outside` is over a value, and a value's array is a list of any length but for this
    ghost long: { length counts ≡ 64 },
    ghost lawful: { BoardLaw (at counts) spare },
}

impl CountBoard {
    ghost use Rattle.boards.specs.Shown.{count_row, spare_of};

    /// A board that holds nothing and has room for nothing, until a row is loaded.
    pub fn new() -> CountBoard
        ensures counts { count_row result ≡ replicate 64 0 }
        ensures spare { spare_of result ≡ 0 }
    {
        CountBoard {
            counts: [0; PLACES],
            spare: 0,
        }
    }

    /// Sets all counts, in blocks from place 0 on, and spare. Refused: `BoardRowUnfit`, with the board as it was,
    /// where the row has fewer or more than 64 numbers, or they and spare are more than `BOARD_LIMIT` together.
    pub fn load(&mut self, row: &[u32], spare: u32) -> Result<(), Refusal>
        ensures answer { LoadSays row.now spare (at (count_row self.old)) (spare_of self.old) result
            (at (count_row self.new)) (spare_of self.new) }
    {
        let counts = <&[u32; PLACES]>::try_from(row).map_err(|_| Refusal::BoardRowUnfit)?;
        if !lawful(counts, spare) {
            return Err(Refusal::BoardRowUnfit);
        }
        self.counts = *counts;
        self.spare = spare;
        Ok(())
    }
}

// the sum of the counts
fn total(counts: &[u32; PLACES]) -> u64
    ensures value { result ≡ sum_to (at counts.now) 64 }
    ensures bound { result ≤ 64 * 4294967295 }
{
    counts.iter().map(|count| u64::from(*count)).sum()
}

// whether the counts and the spare keep the law of boards
fn lawful(counts: &[u32; PLACES], spare: u32) -> bool
    ensures { MatchBool result (BoardLaw (at counts.now) spare) (BoardLaw (at counts.now) spare → ⊥) }
{
    total(counts) + u64::from(spare) <= u64::from(BOARD_LIMIT)
}

// the counts with so many blocks taken and put at each place; none where a place would have too few or too many
fn moved(
    counts: &[u32; PLACES],
    taken: &[u32; PLACES],
    put: &[u32; PLACES],
) -> Option<[u32; PLACES]>
    ensures value { IfSome result (RowMoved counts.now taken.now put.now) }
{
    let mut row = *counts;
    for place in 0..PLACES {
        row[place] = raised_and_lowered(row[place], put[place], taken[place])?;
    }
    Some(row)
}

impl Board for CountBoard {
    ghost counts = { λ b. at b.counts };

    ghost spare = { λ b. b.spare };

    ghost outside = { λ b p h. get_or_past b.counts p 0 (omega (arith, b.long)) };

    ghost bounded = { Prim.search rules };

    fn count(&self, place: u8) -> u32 {
        self.counts.get(usize::from(place)).copied().unwrap_or(0)
    }

    fn spare(&self) -> u32 {
        self.spare
    }

    fn take(&mut self, place: u8) -> Result<(), Refusal> {
        let i = index_of(place)?;
        self.counts[i] = self.counts[i]
            .checked_sub(1)
            .ok_or(Refusal::PlaceEmpty(place))?;
        self.spare += 1;
        Ok(())
    }

    fn put(&mut self, place: u8, n: u32) -> Result<(), Refusal> {
        let i = index_of(place)?;
        self.spare = self
            .spare
            .checked_sub(n)
            .ok_or(Refusal::PutAboveSpare(place))?;
        self.counts[i] += n;
        Ok(())
    }

    fn move_all(
        &mut self,
        taken: &[u32; PLACES],
        put: &[u32; PLACES],
        all_taken: u32,
        all_put: u32,
    ) -> bool {
        let Some(spare) = raised_and_lowered(self.spare, all_taken, all_put) else {
            return false;
        };
        let Some(counts) = moved(&self.counts, taken, put) else {
            return false;
        };
        if !lawful(&counts, spare) {
            return false;
        }
        *self = CountBoard { counts, spare };
        true
    }
}
