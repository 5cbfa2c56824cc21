//! A board script: its lines, and what each asks for.
use board_calls::Call;
use boards::PLACES;
use slot_board::SLOTS;
use std::alloc::{AllocError, Global};
use words::{Fault, code_of, number_of, numbers, renaming_of, understood};

/// What a new board holds.
#[derive(Drop)]
pub(crate) enum Load {
    Counts(Vec<u32>, u32),
    Slots(Vec<u8>),
}

/// What a line asks for: a new board, or something of the pile.
#[derive(Drop)]
pub(crate) enum Asked {
    Load(Load),
    Rename(Vec<u8>),
    Allow(u32),
    Call(Call),
}

/// The lines of a script without their comments; those that have nothing else are left out.
pub(crate) fn lines_of(alloc: Global, text: &str) -> Result<Vec<&str>, AllocError> {
    text.lines()
        .map(|line| code_of(line))
        .filter(|code| !code.is_empty())
        .collect(alloc)
}

/// What a line asks for; nothing where it is not understood. Each is read as its turn comes: a short line may ask for
/// a row of 4,096 bytes, so a script whose lines were all read first would take hundreds of times its length.
pub(crate) fn asked_by(alloc: Global, code: &str) -> Result<Option<Asked>, AllocError> {
    let words: Vec<&str> = code.split_whitespace().collect(alloc)?;
    understood(read(alloc, words.as_slice()))
}

/// A load has the counts of the first places and the spare, or what the first slots hold; the others are empty. A
/// renaming says what the first places stand for.
fn read(alloc: Global, words: &[&str]) -> Result<Asked, Fault> {
    let asked = match words {
        ["load", "count", counts @ .., "spare", spare] => {
            let mut row = numbers::<u32>(alloc, counts)?;
            row.resize(row.len().max(PLACES), 0)?;
            Asked::Load(Load::Counts(row, number_of::<u32>(spare)?))
        }
        ["load", "slots", slots @ ..] => {
            let mut row = numbers::<u8>(alloc, slots)?;
            row.resize(row.len().max(SLOTS), 0)?;
            Asked::Load(Load::Slots(row))
        }
        ["rename", places @ ..] => Asked::Rename(renaming_of(numbers::<u8>(alloc, places)?)?),
        ["allow", left] => Asked::Allow(number_of::<u32>(left)?),
        ["spare"] => Asked::Call(Call::Spare),
        ["count", place] => Asked::Call(Call::Count(number_of::<u8>(place)?)),
        ["take", place] => Asked::Call(Call::Take(number_of::<u8>(place)?)),
        ["put", place, n] => Asked::Call(Call::Put(number_of::<u8>(place)?, number_of::<u32>(n)?)),
        _ => return Err(Fault::NotUnderstood),
    };
    Ok(asked)
}
