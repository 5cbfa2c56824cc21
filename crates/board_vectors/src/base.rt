//! The boards that lie under a pile.
use crate::asked::Asked;
use boards::{Board, CountBoard, all_counts};
use comparisons::Digest;
use refusals::Refusal;
use slot_board::SlotBoard;

/// A board that a line of the table loads, and a digest of all that it keeps.
pub(crate) trait Base: Board {
    /// What the load answers; nothing where the line asks for something else.
    fn load_row(&mut self, asked: &Asked) -> Option<Result<(), Refusal>>;

    fn kept(&self) -> Digest;
}

impl Base for CountBoard {
    fn load_row(&mut self, asked: &Asked) -> Option<Result<(), Refusal>> {
        match asked {
            Asked::Counts(row, spare) => Some(self.load(row.as_slice(), *spare)),
            _ => None,
        }
    }

    fn kept(&self) -> Digest {
        Digest::of(&all_counts(self))
    }
}

impl Base for SlotBoard {
    fn load_row(&mut self, asked: &Asked) -> Option<Result<(), Refusal>> {
        match asked {
            Asked::Slots(row) => Some(self.load(row.as_slice())),
            _ => None,
        }
    }

    fn kept(&self) -> Digest {
        Digest::of(self.slots())
    }
}
