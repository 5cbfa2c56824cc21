//! Boards: what every board means, the law that every board keeps, and the count board.
#![tactic(auto)]

mod board;
mod count_board;

pub use board::{BOARD_LIMIT, Board, LAST_PLACE, PLACES, all_counts, index_of, raised_and_lowered};
pub use count_board::CountBoard;
