//! Compares the boards and layers with a table of calls that another implementation answered.
#![tactic(auto)]

ghost use Rattle.std.specs.Prelude.{◌≤◌, length, IfOk, IfSome};

mod asked;
mod base;
mod on_pile;
mod table;

use asked::read;
use base::Base;
use board_calls::Answer;
use boards::CountBoard;
use comparisons::{Line, compare_all, next_line};
use on_pile::{Full, OnPile, Under};
use slot_board::SlotBoard;
use std::io;
use table::Table;

type FourLayers = Under<Under<Under<Under<Full>>>>;

fn main(rt: HostRuntime) -> anyhow::Result<()> {
    let text = io::read_to_string(rt.alloc(), rt.stdin())?;
    let lines: Vec<Line<'_>> = text.as_str().lines().map(Line::from).collect(rt.alloc())?;
    let mut table = Table::new(&rt);
    let left = compare_all(
        lines.as_slice(),
        |new, others| compare(&mut table, new, others),
    )?;
    Ok(table.report(left)?)
}

/// Compares the lines of a pile and gives how many are left; nothing where the first makes no board.
fn compare<'a>(
    table: &mut Table<'_>,
    new: &Line<'_>,
    lines: &'a [Line<'a>],
) -> anyhow::Result<Option<usize>>
    ensures { IfOk result (λ left. IfSome left (λ left. left ≤ length lines.now)) }
{
    let left = match new.asked() {
        "new counts" => on_board(table, new, lines, CountBoard::new())?,
        "new slots" => on_board(table, new, lines, SlotBoard::new())?,
        _ => return Ok(None),
    };
    Ok(Some(left.len()))
}

/// The loads of a new board, the lines on its pile, and what the board keeps in the end; gives the lines
/// that are left.
// That no more lines are left than came stands at each function that gives lines back: the loop of
// `compare_all` ends by it, and a proof knows of a callee only what its clauses say.
fn on_board<'a, B: Base + Drop>(
    table: &mut Table<'_>,
    new: &Line<'_>,
    lines: &'a [Line<'a>],
    mut board: B,
) -> anyhow::Result<&'a [Line<'a>]>
    ensures { IfOk result (λ left. length left.now ≤ length lines.now) }
{
    table.compare(new, &board, Answer::Accepted)?;
    let mut left = lines;
    while let [line, rest @ ..] = left {
        let Some(asked) = read(table.alloc(), line.asked())? else {
            break;
        };
        let Some(done) = board.load_row(&asked) else {
            break;
        };
        table.compare(line, &board, Answer::from(done))?;
        left = rest;
    }
    let (board, left) = FourLayers::run(table, left, board)?;
    let (bottom, left) = next_line(left);
    let kept = board.kept().value;
    table.compare(&bottom, &board, Answer::Number(kept))?;
    Ok(left)
}
