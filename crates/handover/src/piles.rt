//! The boards that a day and its hand-over begin on.
ghost use Rattle.std.specs.Prelude.{◌≡◌, ℕ, ◌+◌, ◌-◌, ◌<◌, IfOk, OnOk, slice_index};
ghost use Rattle.handover.specs.Starts.{ShowsStart};
ghost use Rattle.layers.specs.Renamings.{renamed};
ghost use Rattle.slot_board.specs.Slots.{counts_of};
ghost use Rattle.theory.specs.Rows.{at};

use crate::faults::Unfit;
use boards::{Board, CountBoard, LAST_PLACE, PLACES};
use layers::{Allowance, Renaming};
use refusals::Refusal;
use slot_board::SlotBoard;
use std::array;

/// What may be put down on the second board, and what its allowance has left, where no line says it.
const PLENTY: u32 = 1_000_000;

pub(crate) type Pile = Renaming<Allowance<CountBoard>>;

/// What a file says of the second board.
#[derive(Default, Drop)]
pub(crate) struct SecondBoard {
    pub(crate) rename: Option<Vec<u8>>,
    pub(crate) allow: Option<u32>,
    pub(crate) spare: Option<u32>,
}

/// A slot board with the start on it.
pub(crate) fn first_board(start: &[u32]) -> Result<SlotBoard, Unfit>
    ensures { IfOk result (λ b. ShowsStart start.now (counts_of b.slots)) }
{
    let mut board = SlotBoard::new();
    lay_out(&mut board, start).map_err(Unfit::FirstBoard)?;
    Ok(board)
}

impl SecondBoard {
    /// A renaming over an allowance over a count board, with the start on it.
    pub(crate) fn with(&self, start: &[u32]) -> Result<Pile, Unfit>
        ensures { IfOk result (λ b. ShowsStart start.now (renamed b.row (at b.below.below.counts))) }
    {
        self.pile(start).map_err(Unfit::SecondBoard)
    }

    /// Gives the pile the renaming of the file, or else the one that turns the places round.
    fn load_names(&self, pile: &mut Pile) -> Result<(), Refusal>
        ensures { pile.new.below ≡ pile.old.below }
    {
        match &self.rename {
            Some(row) => pile.load(row.as_slice()),
            None => pile.load(&turned_round()),
        }
    }

    fn pile(&self, start: &[u32]) -> Result<Pile, Refusal>
        ensures { IfOk result (λ b. ShowsStart start.now (renamed b.row (at b.below.below.counts))) }
    {
        let blocks = start
            .iter()
            .fold(0u32, |sum, blocks| sum.saturating_add(*blocks));
        let spare = self.spare.unwrap_or(PLENTY).saturating_add(blocks);
        let left = self.allow.unwrap_or(PLENTY).saturating_add(blocks);
        let mut counts = CountBoard::new();
        counts.load(&[0; PLACES], spare)?;
        let mut pile = Renaming::new(Allowance::new(counts, left));
        self.load_names(&mut pile)?;
        lay_out(&mut pile, start)?;
        Ok(pile)
    }
}

/// A renaming that turns the places round: each stands for the one as far from the other end.
fn turned_round() -> [u8; PLACES]
    ensures { (p : ℕ) → p < 64 → slice_index result p ≡ 63 - p }
{
    // a cast that makes smaller what is proved to fit: there is no error that `try_from` could give
    array::from_fn(|place| LAST_PLACE - place as u8)
}

/// Puts the start's blocks down at their places.
fn lay_out<B: Board>(board: &mut B, start: &[u32]) -> Result<(), Refusal>
    ensures { OnOk result ((p : ℕ) → p < 64 → B.counts board.new p ≡ B.counts board.old p + at start.now p) }
{
    // By place and not along the start: the clause speaks of every place, past the start's end too.
    for place in 0..=LAST_PLACE {
        board.put(place, start.get(usize::from(place)).copied().unwrap_or(0))?;
    }
    Ok(())
}
