//! Compares sittings with a table of calls that another implementation answered.
#![tactic(auto)]

ghost use Rattle.std.specs.Prelude.{◌≤◌, length, IfOk, IfSome};

mod asked;
mod on_pile;
mod performed;
mod summary;
mod table;

use anyhow::bail;
use asked::{Asked, read};
use board_calls::Answer;
use boards::{Board, CountBoard, all_counts};
use comparisons::{Digest, Line, compare_all, next_line};
use nets::{ChainedNet, GridNet, Net};
use on_pile::{Full, OnPile, Under};
use refusals::Refusal;
use slot_board::SlotBoard;
use std::io;
use table::Table;
use words::Make;

type TwoLayers = Under<Under<Full>>;

fn main(rt: HostRuntime) -> anyhow::Result<()> {
    let text = io::read_to_string(rt.alloc(), rt.stdin())?;
    let lines: Vec<Line<'_>> = text.as_str().lines().map(Line::from).collect(rt.alloc())?;
    let mut table = Table::new(&rt);
    let left = compare_all(
        lines.as_slice(),
        |line, others| compare(&mut table, line, others),
    )?;
    Ok(table.report(left)?)
}

/// Compares the lines of one net and gives how many are left; nothing where the first is no net file.
fn compare<'a>(
    table: &mut Table<'_>,
    line: &Line<'_>,
    lines: &'a [Line<'a>],
) -> anyhow::Result<Option<usize>>
    ensures { IfOk result (λ left. IfSome left (λ left. left ≤ length lines.now)) }
{
    let left = match read(table.alloc(), line.asked())? {
        Some(Asked::Net(Make::Grid, file)) => {
            on_file::<GridNet>(table, line, lines, file.as_slice())?
        }
        Some(Asked::Net(Make::Chained, file)) => {
            on_file::<ChainedNet>(table, line, lines, file.as_slice())?
        }
        _ => return Ok(None),
    };
    Ok(Some(left.len()))
}

/// The line of a net file, and those of its sitting if it is accepted; gives the lines that are left.
// That no more lines are left than came stands at each function that gives lines back: the loop of
// `compare_all` ends by it, and a proof knows of a callee only what its clauses say.
fn on_file<'a, 'f, N: Net + TryFrom<&'f [u8], Error = Refusal> + Drop>(
    table: &mut Table<'_>,
    line: &Line<'_>,
    lines: &'a [Line<'a>],
    file: &'f [u8],
) -> anyhow::Result<&'a [Line<'a>]>
    ensures { IfOk result (λ left. length left.now ≤ length lines.now) }
{
    match N::try_from(file) {
        Ok(net) => {
            table.compare(line, Answer::Accepted)?;
            on_net(table, lines, net)
        }
        Err(refusal) => {
            table.totals.refuse_file();
            table.compare(line, Answer::Refused(refusal))?;
            Ok(lines)
        }
    }
}

/// The sitting on the board that comes next; gives the lines that are left.
fn on_net<'a, N: Net + Drop>(
    table: &mut Table<'_>,
    lines: &'a [Line<'a>],
    net: N,
) -> anyhow::Result<&'a [Line<'a>]>
    ensures { IfOk result (λ left. length left.now ≤ length lines.now) }
{
    let [load, left @ ..] = lines else {
        bail!("a net without a board");
    };
    match read(table.alloc(), load.asked())? {
        Some(Asked::Counts(row, spare)) => {
            let mut board = CountBoard::new();
            let done = board.load(row.as_slice(), spare);
            let (board, left) = on_board(table, load, left, net, board, done)?;
            compare_kept(table, left, &all_counts(&board))
        }
        Some(Asked::Slots(row)) => {
            let mut board = SlotBoard::new();
            let done = board.load(row.as_slice());
            let (board, left) = on_board(table, load, left, net, board, done)?;
            compare_kept(table, left, board.slots())
        }
        _ => bail!("a net without a board"),
    }
}

/// The line that loads a board, and the sitting on it; gives the board back, and the lines that are left.
fn on_board<'a, N: Net + Drop, B: Board + Drop>(
    table: &mut Table<'_>,
    load: &Line<'_>,
    lines: &'a [Line<'a>],
    net: N,
    board: B,
    done: Result<(), Refusal>,
) -> anyhow::Result<(B, &'a [Line<'a>])>
    ensures { IfOk result (λ done. length done.1.now ≤ length lines.now) }
{
    table.compare(load, Answer::from(done))?;
    TwoLayers::run(table, lines, net, board)
}

/// Compares what a board keeps with the next line; gives the lines that are left.
fn compare_kept<'a, T: Copy + Into<u32>>(
    table: &mut Table<'_>,
    lines: &'a [Line<'a>],
    kept: &[T],
) -> anyhow::Result<&'a [Line<'a>]>
    ensures { IfOk result (λ left. length left.now ≤ length lines.now) }
{
    let (bottom, left) = next_line(lines);
    table.compare(&bottom, Answer::Number(Digest::of(kept).value))?;
    Ok(left)
}
