//! The renaming: a board that numbers the places of the board below in its own way.
ghost use Rattle.std.specs.Prelude.{◌≡◌, ℕ, ◌<◌, length, MatchBool, nat_lt, slice_index, slice_index_or};
ghost use Rattle.std.proofs.Common.{◌∙◌, arith, rules};
ghost use Rattle.boards.specs.Boards.{TakeSays, PutSays, MoveAllSays};
ghost use Rattle.theory.specs.Rows.{at};
ghost use Rattle.layers.specs.Renamings.{IsRenaming, renamed, RowBelow, RenameSays};
ghost use Rattle.std.proofs.lemmas.Bool.{cond-true, lt-ltb};
ghost use Rattle.theory.proofs.SumLaws.{sum_to_same};
ghost use Rattle.boards.proofs.Permuted.{sum_to_permuted};

use boards::{Board, PLACES, index_of};
use refusals::Refusal;
use std::array;

/// A board over another whose places have other numbers here: entry p of the row is what the place p is called below.
// clauses name the fields: under an `impl Model` the laws of a board stay open, which rest on the ghost fields
#[derive(Drop)]
pub struct Renaming<B: Board> {
    below: B,
    row: [u8; PLACES],
    ghost lawful: { IsRenaming row },
}

impl<B: Board> Renaming<B> {
    /// Until a row is loaded each place has the number that it has below.
    pub fn new(below: B) -> Renaming<B>
        ensures below { result.below ≡ below }
        ensures row { (p : ℕ) → p < 64 → slice_index result.row p ≡ p }
    {
        Renaming {
            below,
            // an index of the array, so the cast keeps it
            row: array::from_fn(|p| p as u8),
        }
    }

    /// Numbers the places anew. Refused: `NotARenaming`, with the old row kept, unless it is a permutation of 0 to 63.
    pub fn load(&mut self, row: &[u8]) -> Result<(), Refusal>
        ensures answer { RenameSays row.now self.old.row result self.new.row }
        ensures below { self.new.below ≡ self.old.below }
    {
        if !is_renaming(row) {
            return Err(Refusal::NotARenaming);
        }
        self.row.copy_from_slice(row);
        Ok(())
    }

    /// Gives the board below back.
    pub fn into_inner(self) -> B
        ensures below { result ≡ self.below }
    {
        self.below
    }
}

// whether the row is a permutation of the places
fn is_renaming(row: &[u8]) -> bool
    ensures { MatchBool result (IsRenaming row.now) (IsRenaming row.now → ⊥) }
{
    if row.len() != PLACES {
        return false;
    }
    let mut seen = [false; PLACES];
    for place in row {
        let i = usize::from(*place);
        if i >= PLACES || seen[i] {
            return false;
        }
        seen[i] = true;
    }
    true
}

// the numbers of the places, at the places below
fn row_below(row: &[u8; PLACES], numbers: &[u32; PLACES]) -> [u32; PLACES]
    requires { IsRenaming row.now }
    ensures { RowBelow row.now numbers.now result }
{
    let mut below = [0; PLACES];
    for place in 0..PLACES {
        below[usize::from(row[place])] = numbers[place];
    }
    below
}

impl<B: Board> Board for Renaming<B> {
    ghost counts = { λ s. renamed s.row (B.Board.counts s.below) };

    ghost spare = { λ s. B.Board.spare s.below };

    ghost outside = { Prim.search rules };

    ghost bounded = { λ b.
        let h = B.Board.counts b.below in
        let m : ℕ → ℕ = λ p. slice_index_or b.row p 0 in
        let inner = sum_to_same (renamed b.row h) (λ p. h (m p)) 64
        (λ p l. cond-true (nat_lt p 64) (h (m p)) 0 (lt-ltb p 64 l)) in
        let same = sum_to_permuted m h 64 b.lawful.inside b.lawful.apart in
        omega (arith, inner ∙ same, B.Board.bounded b.below) };

    fn count(&self, place: u8) -> u32 {
        self.row
            .get(usize::from(place))
            .map_or(0, |below| self.below.count(*below))
    }

    fn spare(&self) -> u32 {
        self.below.spare()
    }

    fn take(&mut self, place: u8) -> Result<(), Refusal>
        ensures answer { let old = self.old in let new = self.new in
            TakeSays place (renamed old.row (B.counts old.below)) (B.spare old.below) result
            (renamed new.row (B.counts new.below)) (B.spare new.below) }
        ensures row { self.new.row ≡ self.old.row }
    {
        let i = index_of(place)?;
        self.below
            .take(self.row[i])
            .map_err(|_| Refusal::PlaceEmpty(place))
    }

    fn put(&mut self, place: u8, n: u32) -> Result<(), Refusal>
        ensures answer { let old = self.old in let new = self.new in
            PutSays place n (renamed old.row (B.counts old.below)) (B.spare old.below) result
            (renamed new.row (B.counts new.below)) (B.spare new.below) }
        ensures row { self.new.row ≡ self.old.row }
    {
        let i = index_of(place)?;
        self.below
            .put(self.row[i], n)
            .map_err(|_| Refusal::PutAboveSpare(place))
    }

    fn move_all(
        &mut self,
        taken: &[u32; PLACES],
        put: &[u32; PLACES],
        all_taken: u32,
        all_put: u32,
    ) -> bool
        ensures answer { let old = self.old in let new = self.new in
            MoveAllSays (at taken.now) (at put.now) all_taken all_put (renamed old.row (B.counts old.below))
            (B.spare old.below) result (renamed new.row (B.counts new.below)) (B.spare new.below) }
        ensures row { self.new.row ≡ self.old.row }
    {
        let taken = row_below(&self.row, taken);
        let put = row_below(&self.row, put);
        self.below.move_all(&taken, &put, all_taken, all_put)
    }
}
