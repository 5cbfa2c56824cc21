//! The allowance: a board through which less may be put down than fits below.
ghost use Rattle.std.specs.Prelude.{◌≡◌, ◌≤◌, min};
ghost use Rattle.boards.specs.Boards.{board_limit, TakeSays, PutSays, MoveAllSays};
ghost use Rattle.theory.specs.Rows.{at};
ghost use Rattle.layers.specs.Allowances.{left_after_take, left_after_put, left_after_move_all, PutLeaves};
ghost use Rattle.std.proofs.Common.{rules, arith};

use boards::{BOARD_LIMIT, Board, PLACES, index_of, raised_and_lowered};
use refusals::Refusal;

/// A board over another that grants less room: for `left` blocks more, or for what still fits below if that is less.
// clauses name the fields: the value of an `impl Model` would be a record of the same two
#[derive(Drop)]
pub struct Allowance<B: Board> {
    below: B,
    left: u32,
    ghost small: { left ≤ board_limit },
}

impl<B: Board> Allowance<B> {
    /// Grants room for `left` blocks beside those on the board, and never for more than `BOARD_LIMIT`.
    pub fn new(below: B, left: u32) -> Allowance<B>
        ensures below { result.below ≡ below }
        ensures left { result.left ≡ min left board_limit }
    {
        Allowance {
            below,
            left: left.min(BOARD_LIMIT),
        }
    }

    /// Gives the board below back.
    pub fn into_inner(self) -> B
        ensures below { result ≡ self.below }
    {
        self.below
    }
}

impl<B: Board> Board for Allowance<B> {
    ghost counts = { λ s. B.Board.counts s.below };

    ghost spare = { λ s. min s.left (B.Board.spare s.below) };

    ghost outside = { Prim.search rules };

    ghost bounded = { Prim.search rules };

    fn count(&self, place: u8) -> u32 {
        self.below.count(place)
    }

    fn spare(&self) -> u32 {
        self.left.min(self.below.spare())
    }

    fn take(&mut self, place: u8) -> Result<(), Refusal>
        ensures answer { let old = self.old in let new = self.new in
            TakeSays place (B.counts old.below) (min old.left (B.spare old.below)) result
            (B.counts new.below) (min new.left (B.spare new.below)) }
        ensures left { self.new.left ≡ left_after_take result self.old.left }
        ensures below { let old = self.old in let new = self.new in
            TakeSays place (B.counts old.below) (B.spare old.below) result (B.counts new.below)
            (B.spare new.below) }
    {
        self.below.take(place)?;
        self.left = (self.left + 1).min(BOARD_LIMIT);
        Ok(())
    }

    fn put(&mut self, place: u8, n: u32) -> Result<(), Refusal>
        ensures answer { let old = self.old in let new = self.new in
            PutSays place n (B.counts old.below) (min old.left (B.spare old.below)) result
            (B.counts new.below) (min new.left (B.spare new.below)) }
        ensures left { self.new.left ≡ left_after_put n result self.old.left }
        ensures below { let old = self.old in let new = self.new in
            PutLeaves place n (B.counts old.below) (B.spare old.below) result (B.counts new.below)
            (B.spare new.below) }
    {
        index_of(place)?;
        let left = self
            .left
            .checked_sub(n)
            .ok_or(Refusal::PutAboveSpare(place))?;
        self.below.put(place, n)?;
        self.left = left;
        Ok(())
    }

    fn move_all(
        &mut self,
        taken: &[u32; PLACES],
        put: &[u32; PLACES],
        all_taken: u32,
        all_put: u32,
    ) -> bool
        ensures answer { let old = self.old in let new = self.new in
            MoveAllSays (at taken.now) (at put.now) all_taken all_put (B.counts old.below)
            (min old.left (B.spare old.below)) result (B.counts new.below) (min new.left (B.spare new.below)) }
        ensures left { self.new.left ≡ left_after_move_all all_taken all_put result self.old.left }
        ensures below { let old = self.old in let new = self.new in
            MoveAllSays (at taken.now) (at put.now) all_taken all_put (B.counts old.below)
            (B.spare old.below) result (B.counts new.below) (B.spare new.below) }
    {
        let Some(left) = raised_and_lowered(self.left, all_taken, all_put) else {
            return false;
        };
        if !self.below.move_all(taken, put, all_taken, all_put) {
            return false;
        }
        // cut off only after the puts: what was taken may be above the limit by as much as they lower it
        self.left = left.min(BOARD_LIMIT);
        true
    }
}
