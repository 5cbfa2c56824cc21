//! Calls on a board as values, made on any board.
#![tactic(auto)]

ghost use Rattle.std.specs.Prelude.{◌≡◌, Some};
ghost use Rattle.board_calls.specs.Calls.{CallSays, call_answer, shown_answer};

use boards::Board;
use refusals::Refusal;
use std::fmt;

/// A call on a board.
#[derive(Clone, Copy)]
pub enum Call {
    Count(u8),
    Spare,
    Take(u8),
    Put(u8, u32),
}

/// What a call answers: a number, that it was accepted, or a refusal.
// no Result over an Option, though it has that shape: all three are printed, by the one Display below
#[derive(Clone, Copy)]
pub enum Answer {
    Number(u32),
    Accepted,
    Refused(Refusal),
}

/// Makes the call on the board.
pub fn perform<B: Board>(board: &mut B, call: Call) -> Answer
    ensures answer { CallSays call (B.counts board.old) (B.spare board.old) result (B.counts board.new)
        (B.spare board.new) }
{
    match call {
        Call::Count(place) => Answer::Number(board.count(place)),
        Call::Spare => Answer::Number(board.spare()),
        Call::Take(place) => Answer::from(board.take(place)),
        Call::Put(place, n) => Answer::from(board.put(place, n)),
    }
}

/// The answer of a take, a put or a load.
impl From<Result<(), Refusal>> for Answer {
    ghost from_gives = { λ done answer. answer ≡ call_answer done };

    fn from(done: Result<(), Refusal>) -> Answer {
        match done {
            Ok(()) => Answer::Accepted,
            Err(refusal) => Answer::Refused(refusal),
        }
    }
}

impl fmt::Display for Answer {
    ghost output = { λ answer. Some (shown_answer answer) };

    fn fmt<W: fmt::Write>(&self, f: &mut fmt::Formatter<W>) -> fmt::Result {
        match *self {
            Answer::Number(n) => write!(f, "{n}"),
            Answer::Accepted => write!(f, "ok"),
            Answer::Refused(refusal) => {
                let number = refusal.number();
                let detail = refusal.detail();
                write!(f, "no {number} {detail}")
            }
        }
    }
}
