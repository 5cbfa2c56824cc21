//! The arguments of a program, which may be any bytes.
ghost use Rattle.std.specs.Prelude.{◌≡◌, ℕ, ◌<◌, IfOk, length, slice_index_or, MatchOption};
ghost use Rattle.command_line.specs.Files.{BeginsWith, IsShownAs};

use crate::endings::Failure;
use crate::files::{Opened, Source};
use crate::names::one_line;
use std::alloc::{AllocError, Global};
use std::env::FillError;
use std::rt::Env;

/// How often the room for an argument is doubled: from 256 bytes to more than any system passes.
const DOUBLINGS: u8 = 24;

/// The bytes of an argument; none where there are not so many arguments.
fn argument<R: Env + AllocGlobal>(rt: &R, place: usize) -> Result<Option<Vec<u8>>, AllocError> {
    let mut room = 256usize;
    for _ in 0..DOUBLINGS {
        let mut bytes = vec![in rt.alloc(); 0u8; room]?;
        match rt.arg(place, bytes.as_mut_slice()) {
            Ok(length) => {
                bytes.truncate(length);
                return Ok(Some(bytes));
            }
            Err(FillError::NotPresent) => return Ok(None),
            Err(FillError::TooLong) => room = room.saturating_mul(2),
        }
    }
    Err(AllocError)
}

/// The words of the command line for a parser of options, which reads text: the program as its user calls it, then
/// each argument on one line, as [`one_line`] writes it. So a parser takes arguments of any bytes, and what it says
/// of one has no control characters.
pub fn words<R: Env + AllocGlobal>(rt: &R, program: &str) -> Result<Vec<String>, AllocError>
    ensures { IfOk result (λ words. BeginsWith program.now words.items) }
{
    let mut words = vec![in rt.alloc(); String::from_str(rt.alloc(), program)?]?;
    for place in 1..usize::MAX {
        let Some(argument) = argument(rt, place)? else {
            break;
        };
        words.push(one_line(rt.alloc(), argument.as_slice())?)?;
    }
    Ok(words)
}

/// What each word names.
fn named(alloc: Global, names: &[&str]) -> Result<Vec<Source>, AllocError>
    ensures count { IfOk result (λ all. length all.items ≡ length names.now) }
    ensures shown { IfOk result (λ all. (k : ℕ) (name : _) (source : _) → k < length names.now →
        IsShownAs (slice_index_or names.now k name).now (slice_index_or all.items k source)) }
{
    names
        .iter()
        .map(|name| Source::of_word(alloc, *name))
        .try_collect(alloc)
}

/// What words of a command line name: files, or standard input for `-`, which is refused a second time, since nothing
/// is left to read then.
pub fn sources(alloc: Global, names: &[&str]) -> Result<Vec<Source>, Failure>
    ensures count { IfOk result (λ all. length all.items ≡ length names.now) }
    ensures shown { IfOk result (λ all. (k : ℕ) (name : _) (source : _) → k < length names.now →
        IsShownAs (slice_index_or names.now k name).now (slice_index_or all.items k source)) }
{
    if names.iter().filter(|name| **name == "-").count() > 1 {
        return Err(Failure::InputTwice);
    }
    Ok(named(alloc, names)?)
}

/// What a word of a command line names; standard input where there is none.
pub fn only_source(alloc: Global, word: Option<&str>) -> Result<Source, AllocError>
    ensures { IfOk result (λ source. MatchOption word.entry (source.opened
        ≡ Opened.Input) (λ name. IsShownAs name.now source)) }
{
    match word {
        Some(word) => Source::of_word(alloc, word),
        None => Source::input(alloc),
    }
}
