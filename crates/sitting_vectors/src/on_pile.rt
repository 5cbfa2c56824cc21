//! The lines on a pile: layers come over its board, up to two, and then a sitting.
ghost use Rattle.std.specs.Prelude.{◌≤◌, length, IfOk};

use crate::asked::{Asked, read};
use crate::performed::sit;
use crate::table::Table;
use board_calls::Answer;
use boards::Board;
use comparisons::Line;
use layers::{Allowance, Renaming};
use nets::Net;
use std::marker::PhantomData;

/// What a pile makes of lines, by how many layers it still takes; gives the board back, and the lines
/// that are left.
pub(crate) trait OnPile {
    fn run<'a, N: Net + Drop, B: Board + Drop>(
        table: &mut Table<'_>,
        lines: &'a [Line<'a>],
        net: N,
        board: B,
    ) -> anyhow::Result<(B, &'a [Line<'a>])>
        ensures { IfOk result (λ done. length done.1.now ≤ length lines.now) };
}

/// A pile that takes no more layers.
pub(crate) struct Full;

/// A pile that takes one more layer, over which it is like the parameter.
pub(crate) struct Under<Above>(PhantomData<Above>);

impl OnPile for Full {
    fn run<'a, N: Net + Drop, B: Board + Drop>(
        table: &mut Table<'_>,
        lines: &'a [Line<'a>],
        net: N,
        board: B,
    ) -> anyhow::Result<(B, &'a [Line<'a>])> {
        sit(table, lines, net, board)
    }
}

impl<Above: OnPile> OnPile for Under<Above> {
    fn run<'a, N: Net + Drop, B: Board + Drop>(
        table: &mut Table<'_>,
        lines: &'a [Line<'a>],
        net: N,
        board: B,
    ) -> anyhow::Result<(B, &'a [Line<'a>])> {
        let [line, left @ ..] = lines else {
            return sit(table, lines, net, board);
        };
        match read(table.alloc(), line.asked())? {
            Some(Asked::Rename(row)) => {
                let mut layer = Renaming::new(board);
                let done = layer.load(row.as_slice());
                table.compare(line, Answer::from(done))?;
                let (layer, left) = Above::run(table, left, net, layer)?;
                Ok((layer.into_inner(), left))
            }
            Some(Asked::Allow(limit)) => {
                let layer = Allowance::new(board, limit);
                table.compare(line, Answer::Accepted)?;
                let (layer, left) = Above::run(table, left, net, layer)?;
                Ok((layer.into_inner(), left))
            }
            _ => sit(table, lines, net, board),
        }
    }
}
