//! Piles: a layer is a board, so a layer over layers is one too, and code for boards runs on it as it is.
ghost use Rattle.std.specs.Prelude.{◌≡◌, ℕ};
ghost use Rattle.layers.specs.Piles.{MoveSays, MoveAnswers, counts_after_move};

use crate::allowance::Allowance;
use crate::renaming::Renaming;
use boards::{Board, index_of};
use refusals::Refusal;

/// Moves one block from one place of a board to another. Refused: `NoSuchPlace`, else `PlaceEmpty` for place `from`.
pub fn move_block<B: Board>(board: &mut B, from: u8, to: u8) -> Result<(), Refusal>
    ensures answer { MoveAnswers from to (B.counts board.old) result }
    ensures counts { (p : ℕ) → B.counts board.new p ≡ counts_after_move from to result (B.counts board.old) p }
    ensures spare { B.spare board.new ≡ B.spare board.old }
{
    index_of(to)?;
    board.take(from)?;
    board.put(to, 1)
}

/// Moves one block on a pile of four layers over the board, refused as `move_block`, and says how many blocks place
/// `to` has then.
pub fn move_on_pile<B: Board + Drop>(below: B, left: u32, from: u8, to: u8) -> Result<u32, Refusal>
    ensures answer { MoveSays from to (B.counts below) result }
{
    let mut pile = Renaming::new(Allowance::new(Renaming::new(Allowance::new(below, left)), left));
    move_block(&mut pile, from, to)?;
    Ok(pile.count(to))
}
