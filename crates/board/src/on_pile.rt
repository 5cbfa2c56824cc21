//! The lines on a pile: layers come over its board, up to four.
ghost use Rattle.std.specs.Prelude.{◌≤◌, IfOk, length};

use crate::desk::Desk;
use crate::script::{Asked, Load};
use board_calls::Answer;
use boards::Board;
use command_line::Failure;
use layers::{Allowance, Renaming};
use std::marker::PhantomData;

/// What a pile makes of the lines that are left, by how many layers it still takes. A line that loads a board ends
/// the pile: what it loads, and how many lines are left from there on; none where no line does.
pub(crate) trait OnPile {
    fn run<B: Board + Drop>(
        desk: &mut Desk<'_>,
        lines: &[&str],
        board: B,
    ) -> Result<(Option<Load>, usize), Failure>
        ensures { IfOk result (λ next. next.1 ≤ length lines.now) };
}

/// A pile that takes no more layers.
pub(crate) struct Full;

/// A pile that takes one more layer, over which it is like the parameter.
pub(crate) struct Under<Above>(PhantomData<Above>);

impl OnPile for Full {
    fn run<B: Board + Drop>(
        desk: &mut Desk<'_>,
        lines: &[&str],
        mut board: B,
    ) -> Result<(Option<Load>, usize), Failure> {
        for (i, line) in lines.iter().enumerate() {
            match desk.asked_by(line)? {
                Some(Asked::Call(call)) => desk.call(line, &mut board, call)?,
                Some(Asked::Load(load)) => return Ok((Some(load), lines.len() - i)),
                Some(_) => desk.say(line, "the pile has four layers already")?,
                None => desk.say(line, "not understood")?,
            }
        }
        Ok((None, 0))
    }
}

impl<Above: OnPile> OnPile for Under<Above> {
    fn run<B: Board + Drop>(
        desk: &mut Desk<'_>,
        lines: &[&str],
        mut board: B,
    ) -> Result<(Option<Load>, usize), Failure> {
        for (i, line) in lines.iter().enumerate() {
            match desk.asked_by(line)? {
                Some(Asked::Call(call)) => desk.call(line, &mut board, call)?,
                Some(Asked::Load(load)) => return Ok((Some(load), lines.len() - i)),
                Some(Asked::Rename(row)) => {
                    let mut layer = Renaming::new(board);
                    let done = layer.load(row.as_slice());
                    desk.show(line, &layer, Answer::from(done))?;
                    return Above::run(desk, &lines[i + 1..], layer);
                }
                Some(Asked::Allow(limit)) => {
                    let layer = Allowance::new(board, limit);
                    desk.show(line, &layer, Answer::Accepted)?;
                    return Above::run(desk, &lines[i + 1..], layer);
                }
                None => desk.say(line, "not understood")?,
            }
        }
        Ok((None, 0))
    }
}
