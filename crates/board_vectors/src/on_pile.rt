//! The lines on a pile: layers come over its board, up to four.
ghost use Rattle.std.specs.Prelude.{◌≤◌, length, IfOk};

use crate::asked::{Asked, read};
use crate::table::Table;
use board_calls::{Answer, perform};
use boards::Board;
use comparisons::Line;
use layers::{Allowance, Renaming};
use std::marker::PhantomData;

/// What a pile makes of lines, by how many layers it still takes; gives the board back, and the lines
/// that are left.
pub(crate) trait OnPile {
    fn run<'a, B: Board + Drop>(
        table: &mut Table<'_>,
        lines: &'a [Line<'a>],
        board: B,
    ) -> anyhow::Result<(B, &'a [Line<'a>])>
        ensures { IfOk result (λ done. length done.1.now ≤ length lines.now) };
}

/// A pile that takes no more layers.
pub(crate) struct Full;

/// A pile that takes one more layer, over which it is like the parameter.
pub(crate) struct Under<Above>(PhantomData<Above>);

/// Makes the calls of lines up to one that is none; gives what that one asks for, and the lines from
/// there on.
fn calls_on<'a, B: Board>(
    table: &mut Table<'_>,
    lines: &'a [Line<'a>],
    board: &mut B,
) -> anyhow::Result<(Option<Asked>, &'a [Line<'a>])>
    ensures { IfOk result (λ done. length done.1.now ≤ length lines.now) }
{
    let mut left = lines;
    while let [line, rest @ ..] = left {
        match read(table.alloc(), line.asked())? {
            Some(Asked::Call(call)) => {
                let answer = perform(board, call);
                table.compare(line, board, answer)?;
            }
            other => return Ok((other, left)),
        }
        left = rest;
    }
    Ok((None, left))
}

impl OnPile for Full {
    fn run<'a, B: Board + Drop>(
        table: &mut Table<'_>,
        lines: &'a [Line<'a>],
        mut board: B,
    ) -> anyhow::Result<(B, &'a [Line<'a>])> {
        let (_, left) = calls_on(table, lines, &mut board)?;
        Ok((board, left))
    }
}

impl<Above: OnPile> OnPile for Under<Above> {
    fn run<'a, B: Board + Drop>(
        table: &mut Table<'_>,
        lines: &'a [Line<'a>],
        mut board: B,
    ) -> anyhow::Result<(B, &'a [Line<'a>])> {
        match calls_on(table, lines, &mut board)? {
            (Some(Asked::Rename(row)), [line, left @ ..]) => {
                let mut layer = Renaming::new(board);
                let done = layer.load(row.as_slice());
                table.compare(line, &layer, Answer::from(done))?;
                let (layer, left) = Above::run(table, left, layer)?;
                Ok((layer.into_inner(), left))
            }
            (Some(Asked::Allow(limit)), [line, left @ ..]) => {
                let layer = Allowance::new(board, limit);
                table.compare(line, &layer, Answer::Accepted)?;
                let (layer, left) = Above::run(table, left, layer)?;
                Ok((layer.into_inner(), left))
            }
            (_, left) => Ok((board, left)),
        }
    }
}
