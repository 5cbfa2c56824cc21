//! What the lines of the table ask for.
use board_calls::Call;
use std::alloc::Global;
use words::{numbers, slots_of, understood};

/// What is asked of a pile, or of a board before any layer is over it.
#[derive(Drop)]
pub(crate) enum Asked {
    Counts(Vec<u32>, u32),
    Slots(Vec<u8>),
    Rename(Vec<u8>),
    Allow(u32),
    Call(Call),
}

/// Reads what a line asks for: a word, then numbers; nothing where it is not understood.
pub(crate) fn read(alloc: Global, asked: &str) -> anyhow::Result<Option<Asked>> {
    let words: Vec<&str> = asked.split_whitespace().collect(alloc)?;
    let Some((word, row)) = words.as_slice().split_first() else {
        return Ok(None);
    };
    let Some(row) = understood(numbers::<u32>(alloc, row))? else {
        return Ok(None);
    };
    let asked = match (*word, row.as_slice()) {
        ("counts", [spare, counts @ ..]) => Asked::Counts(counts.to_vec(alloc)?, *spare),
        ("slots", runs) => Asked::Slots(slots_in(alloc, runs)?),
        ("rename", places) => Asked::Rename(places.iter().map(|n| byte(*n)).collect(alloc)?),
        ("allow", [left]) => Asked::Allow(*left),
        ("take", [place]) => Asked::Call(Call::Take(byte(*place))),
        ("put", [place, n]) => Asked::Call(Call::Put(byte(*place), *n)),
        ("count", [place]) => Asked::Call(Call::Count(byte(*place))),
        ("spare", []) => Asked::Call(Call::Spare),
        _ => return Ok(None),
    };
    Ok(Some(asked))
}

/// The slots of runs; a last number that stands alone is no run.
fn slots_in(alloc: Global, runs: &[u32]) -> anyhow::Result<Vec<u8>> {
    let (runs, _) = runs.as_chunks::<2>();
    let runs: Vec<u32> = runs
        .iter()
        .flat_map(|[length, held]| [*length, u32::from(byte(*held))])
        .collect(alloc)?;
    slots_of(alloc, runs.as_slice())
}

/// The number as a byte, and the greatest one where it is above all.
fn byte(number: u32) -> u8 {
    u8::try_from(number).unwrap_or(u8::MAX)
}
