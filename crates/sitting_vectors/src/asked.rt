//! What the lines of the table ask for.
use anyhow::bail;
use boards::PLACES;
use std::alloc::Global;
use std::num::ParseIntError;
use std::str::FromStr;
use words::{Make, bytes_of, numbers, slots_of};

/// What a resume or a survey is given, and how long its memory is.
#[derive(Drop)]
pub(crate) struct Request {
    pub(crate) memory: usize,
    pub(crate) tally: Vec<u16>,
    /// Any byte: the table asks for unknown kinds too.
    pub(crate) kind: u8,
    pub(crate) target: Vec<u32>,
}

#[derive(Drop)]
pub(crate) enum Asked {
    Net(Make, Vec<u8>),
    Counts(Vec<u32>, u32),
    Slots(Vec<u8>),
    Rename(Vec<u8>),
    Allow(u32),
    Fire(u16),
    Resume(Request),
    Survey(Request),
}

/// Reads what a line asks for: a word, and what belongs to it; nothing where it is not understood.
pub(crate) fn read(alloc: Global, asked: &str) -> anyhow::Result<Option<Asked>> {
    let (word, rest) = asked.split_once(' ').unwrap_or((asked, ""));
    let asked = match word {
        "net" => return net_of(alloc, rest),
        "counts" => return counts_of(alloc, rest),
        "slots" => Asked::Slots(slots_of(alloc, row_of::<u32>(alloc, rest)?.as_slice())?),
        "rename" => Asked::Rename(row_of::<u8>(alloc, rest)?),
        "allow" => Asked::Allow(rest.parse::<u32>()?),
        "fire" => Asked::Fire(rest.parse::<u16>()?),
        "resume" => Asked::Resume(request_of(alloc, rest)?),
        "survey" => Asked::Survey(request_of(alloc, rest)?),
        _ => return Ok(None),
    };
    Ok(Some(asked))
}

/// A net file, of either make.
fn net_of(alloc: Global, rest: &str) -> anyhow::Result<Option<Asked>> {
    let Some((make, digits)) = rest.split_once(' ') else {
        return Ok(None);
    };
    let Ok(make) = make.parse::<Make>() else {
        return Ok(None);
    };
    Ok(Some(Asked::Net(make, bytes_of(alloc, digits)?)))
}

/// A spare, and counts that are 0 where the line has none.
fn counts_of(alloc: Global, rest: &str) -> anyhow::Result<Option<Asked>> {
    let row = row_of::<u32>(alloc, rest)?;
    let [spare, counts @ ..] = row.as_slice() else {
        return Ok(None);
    };
    let mut counts = counts.to_vec(alloc)?;
    counts.resize(PLACES, 0)?;
    Ok(Some(Asked::Counts(counts, *spare)))
}

/// Memory, tally, kind and target, with strokes between them.
fn request_of(alloc: Global, rest: &str) -> anyhow::Result<Request> {
    let mut parts = rest.split('/');
    let (Some(memory), Some(tally), Some(kind), Some(target)) = (
        parts.next(),
        parts.next(),
        parts.next(),
        parts.next(),
    ) else {
        bail!("a request without four parts");
    };
    Ok(Request {
        memory: memory.trim().parse::<usize>()?,
        tally: row_of::<u16>(alloc, tally)?,
        kind: kind.trim().parse::<u8>()?,
        target: row_of::<u32>(alloc, target)?,
    })
}

/// The numbers of a row.
fn row_of<T: FromStr<Err = ParseIntError> + Drop>(
    alloc: Global,
    text: &str,
) -> anyhow::Result<Vec<T>> {
    let words: Vec<&str> = text.split_whitespace().collect(alloc)?;
    Ok(numbers::<T>(alloc, words.as_slice())?)
}
