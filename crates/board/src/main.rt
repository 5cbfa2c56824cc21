//! Reads a board script, makes its calls on a pile, and prints each answer and what it changed.
#![tactic(auto)]

ghost use Rattle.std.specs.Prelude.{◌≤◌, IfOk, length};

mod desk;
mod on_pile;
mod options;
mod script;

use board_calls::Answer;
use boards::{Board, CountBoard};
use command_line::{Failure, end, only_source, words};
use desk::Desk;
use on_pile::{Full, OnPile, Under};
use options::{PROGRAM, command};
use refusals::Refusal;
use script::{Load, lines_of};
use slot_board::SlotBoard;
use std::process::ExitCode;

type FourLayers = Under<Under<Under<Under<Full>>>>;

/// How long a script may be: 1 MiB.
const SCRIPT_BYTES: u32 = 1_048_576;

fn run(rt: &HostRuntime) -> Result<ExitCode, Failure> {
    let words = words(rt, PROGRAM)?;
    let matches = command(rt.alloc())?.try_get_matches_from(words.as_slice())?;
    let source = only_source(rt.alloc(), matches.get_str("FILE"))?;
    let text = source.read_text(rt, PROGRAM, SCRIPT_BYTES)?;
    let lines = lines_of(rt.alloc(), text.as_str())?;
    make_all(&mut Desk::new(rt), lines.as_slice())?;
    Ok(ExitCode::SUCCESS)
}

fn main(rt: HostRuntime) -> ExitCode {
    end(&rt, PROGRAM, run(&rt))
}

/// Makes the calls of a script: a line that loads a board begins the next pile, and the first one is that of a new
/// count board.
fn make_all(desk: &mut Desk<'_>, lines: &[&str]) -> Result<(), Failure> {
    let (mut load, mut left) = FourLayers::run(desk, lines, CountBoard::new())?;
    // a count and no slice: the borrow checker does not cover a loop whose slice is what a call gave
    while let [line, others @ ..] = &lines[lines.len() - left..] {
        let next = make(desk, line, load, others)?;
        load = next.0;
        left = next.1;
    }
    Ok(())
}

/// Loads the board of a pile, and makes the calls of the lines behind; gives what `run` does.
fn make(
    desk: &mut Desk<'_>,
    line: &str,
    load: Option<Load>,
    others: &[&str],
) -> Result<(Option<Load>, usize), Failure>
    ensures { IfOk result (λ next. next.1 ≤ length others.now) }
{
    match load {
        Some(Load::Counts(row, spare)) => {
            let mut board = CountBoard::new();
            let done = board.load(row.as_slice(), spare);
            on_board(desk, line, others, board, done)
        }
        Some(Load::Slots(row)) => {
            let mut board = SlotBoard::new();
            let done = board.load(row.as_slice());
            on_board(desk, line, others, board, done)
        }
        None => Ok((None, 0)),
    }
}

/// Shows what the load of a board answered, and makes the calls of the lines on it.
fn on_board<B: Board + Drop>(
    desk: &mut Desk<'_>,
    line: &str,
    others: &[&str],
    board: B,
    done: Result<(), Refusal>,
) -> Result<(Option<Load>, usize), Failure>
    ensures { IfOk result (λ next. next.1 ≤ length others.now) }
{
    desk.show(line, &board, Answer::from(done))?;
    FourLayers::run(desk, others, board)
}
