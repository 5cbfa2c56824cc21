//! Lists of names, each ended by a zero byte.
ghost use Rattle.std.specs.Prelude.{◌<◌};

use crate::options::PROGRAM;
use crate::verdicts::Verdicts;
use command_line::{Failure, Source, Unread};
use std::alloc::{AllocError, Global};
use std::io::Write;

/// How long a list may be: 64 MiB.
const LIST_BYTES: u32 = 67_108_864;

/// The names of a list. The last one may lack its zero byte.
fn names_of(alloc: Global, list: &[u8]) -> Result<Vec<&[u8]>, AllocError> {
    if list.is_empty() {
        return Ok(Vec::new(alloc));
    }
    let names = list.strip_suffix(&[0]).unwrap_or(list);
    names.split(|byte| *byte == 0).collect(alloc)
}

/// What a list has for each file.
#[derive(Clone, Copy)]
pub(crate) enum Row {
    Name,
    /// The name, and what is printed for it.
    NameAndText,
}

impl Row {
    fn width(self) -> usize
        ensures { 0 < result }
    {
        match self {
            Row::Name => 1,
            Row::NameAndText => 2,
        }
    }
}

/// Judges the files of a list.
pub(crate) fn judge_list<W: Write + Drop>(
    verdicts: &mut Verdicts<'_, W>,
    list: &Source,
    row: Row,
) -> Result<(), Failure> {
    let alloc = verdicts.rt.alloc();
    let bytes = match list.read_whole(verdicts.rt, PROGRAM, LIST_BYTES) {
        Ok(bytes) => bytes,
        Err(unread) => return verdicts.say_unread(list, &unread),
    };
    let names = names_of(alloc, bytes.as_slice())?;
    for parts in names.chunks(row.width()) {
        match (row, parts) {
            (Row::Name, [name]) => verdicts.judge(&Source::file(alloc, *name, *name)?)?,
            (Row::NameAndText, [name, text]) => {
                verdicts.judge(&Source::file(alloc, *name, *text)?)?
            }
            _ => verdicts.say_unread(list, &Unread::NoShown)?,
        }
    }
    Ok(())
}
