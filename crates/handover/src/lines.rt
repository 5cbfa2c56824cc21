//! The lines of a hand-over file: what each one says.
use crate::faults::Fault;
use crate::numbers::{number_in, numbers_in, only_number};
use answers::Kind;
use handovers::{OwnedCall, OwnedRequest};
use std::alloc::Global;
use words::renaming_of;

/// How many blocks a step puts down at a place.
#[derive(Clone, Copy)]
pub(crate) struct Yield {
    pub(crate) blocks: u8,
    pub(crate) place: u8,
}

/// How many entries the memory of a resume and of a survey has.
#[derive(Clone, Copy)]
pub(crate) struct Sizes {
    pub(crate) order: u16,
    pub(crate) findings: u16,
}

/// What a line says.
#[derive(Drop)]
pub(crate) enum Line {
    Places(u8),
    Step(u8, Vec<Yield>),
    Start(Vec<u32>),
    Rename(Vec<u8>),
    Allow(u32),
    Spare(u32),
    Memory(u16),
    Findings(u16),
    Call(OwnedCall),
}

const STEP: &str = "step from P yields N at P, N at P, ..";

/// What a line with these words says; a call gets memory of these sizes.
pub(crate) fn read<'a>(
    alloc: Global,
    first: &'a str,
    rest: &[&'a str],
    sizes: Sizes,
) -> Result<Line, Fault<'a>> {
    match first {
        "places" => Ok(Line::Places(only_number(rest, "places N")?)),
        "step" => step(alloc, rest),
        "start" => Ok(Line::Start(numbers_in(alloc, rest)?)),
        "rename" => Ok(Line::Rename(renaming_of(numbers_in(alloc, rest)?)?)),
        "fire" => Ok(Line::Call(OwnedCall::Fire(only_number(rest, "fire T")?))),
        "resume" => Ok(Line::Call(OwnedCall::Resume(request(alloc, rest, sizes.order)?))),
        "survey" => Ok(Line::Call(OwnedCall::Survey(request(alloc, rest, sizes.findings)?))),
        _ => setting(first, rest),
    }
}

/// What a line says that only has a number behind its first word.
fn setting<'a>(first: &'a str, rest: &[&'a str]) -> Result<Line, Fault<'a>> {
    match first {
        "allow" => Ok(Line::Allow(only_number(rest, "allow N")?)),
        "spare" => Ok(Line::Spare(only_number(rest, "spare N")?)),
        "memory" => Ok(Line::Memory(only_number(rest, "memory N")?)),
        "findings" => Ok(Line::Findings(only_number(rest, "findings N")?)),
        _ => Err(Fault::Unknown(first)),
    }
}

/// A step: where it takes, and what it yields.
fn step<'a>(alloc: Global, words: &[&'a str]) -> Result<Line, Fault<'a>> {
    let ["from", input, "yields", rest @ ..] = words else {
        return Err(Fault::Form(STEP));
    };
    let input = number_in(*input)?;
    let mut yields = Vec::new(alloc);
    for part in rest.chunks(3) {
        yields.push(yield_of(part)?)?;
    }
    Ok(Line::Step(input, yields))
}

fn yield_of<'a>(words: &[&'a str]) -> Result<Yield, Fault<'a>> {
    match words {
        [blocks, "at", place] => Ok(Yield {
            blocks: number_in(*blocks)?,
            place: number_in(*place)?,
        }),
        _ => Err(Fault::Form(STEP)),
    }
}

/// A tally, and behind it a target with its kind.
fn request<'a>(alloc: Global, words: &[&'a str], memory: u16) -> Result<OwnedRequest, Fault<'a>> {
    let (tally, kind, row) = (0..words.len())
        .find_map(|end| parts_at(words, end))
        .ok_or(Fault::NoTarget)?;
    Ok(OwnedRequest {
        tally: numbers_in(alloc, tally)?,
        numbers: numbers_in(alloc, row)?,
        kind: kind.into(),
        memory: usize::from(memory),
    })
}

/// The words of a tally that ends here, and behind it a target's kind and words.
fn parts_at<'w, 'a>(
    words: &'w [&'a str],
    end: usize,
) -> Option<(&'w [&'a str], Kind, &'w [&'a str])> {
    let tally = words.get(..end)?;
    match words.get(end..)? {
        ["exact", row @ ..] => Some((tally, Kind::Exact, row)),
        ["at", "least", row @ ..] => Some((tally, Kind::AtLeast, row)),
        _ => None,
    }
}
