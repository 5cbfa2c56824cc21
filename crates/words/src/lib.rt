//! What the programs read in lines of words: makes of net, numbers, files, slots and renamings.
#![tactic(auto)]

ghost use Rattle.std.specs.Prelude.{◌≡◌, ◌<◌, ◌⊎◌, ℕ, Ok, Err, [], ◌∷◌, codes, length};
ghost use Rattle.std.specs.Prelude.{slice_index_or, IfOk, List};
ghost use Rattle.hex.specs.Hex.{decode_of, encode_lower};
ghost use Rattle.words.specs.Codes.{code_of, renaming_of};
ghost use Rattle.words.specs.Faults.{understood_of};
ghost use Rattle.words.specs.Slots.{slots_of};
ghost use Rattle.words.specs.declared.Fault.{Fault};
ghost use Rattle.words.specs.declared.Fault.TheVariants.{NotUnderstood, Memory};

mod make;

use anyhow::ensure;
use boards::LAST_PLACE;
pub use make::{MAKES, Make, UnknownMake};
use std::alloc::{AllocError, Global};
use std::iter::repeat_n;
use std::str::FromStr;
use thiserror::Error;

/// What is said of a letter among digits.
const NO_DIGIT: &str = "not a hexadecimal digit";

/// Why words are not read.
#[derive(Debug, Drop, Error)]
pub enum Fault {
    #[error("a word is not understood")]
    NotUnderstood,
    #[error("there is no memory left")]
    Memory(AllocError),
}

impl From<AllocError> for Fault {
    ghost from_gives = { λ error fault. fault ≡ Memory error };

    fn from(error: AllocError) -> Fault {
        Fault::Memory(error)
    }
}

/// What was read; nothing where it was not understood.
pub fn understood<T>(read: Result<T, Fault>) -> Result<Option<T>, AllocError>
    ensures { result ≡ understood_of read }
{
    match read {
        Ok(value) => Ok(Some(value)),
        Err(Fault::NotUnderstood) => Ok(None),
        Err(Fault::Memory(error)) => Err(error),
    }
}

/// A line without its comment, which a `#` begins, and the spaces around it.
pub fn code_of(line: &str) -> &str
    ensures { result.now ≡ code_of line.now }
{
    let code = match line.split_once('#') {
        Some((code, _)) => code,
        None => line,
    };
    code.trim()
}

/// A word as a number: digits alone, though `parse` takes a sign before them.
pub fn number_of<T: FromStr>(word: &str) -> Result<T, Fault>
where
    T::Err: Drop,
    ensures number { IfOk result (λ number. T.from_str_gives word.now (Ok number)) }
    ensures sign { (rest : List ℕ) → word.now ≡ 43 ∷ rest → result ≡ Err NotUnderstood }
{
    if word.starts_with('+') {
        return Err(Fault::NotUnderstood);
    }
    word.parse::<T>().map_err(|_| Fault::NotUnderstood)
}

/// The words as numbers; an error where one of them is none.
pub fn numbers<T: FromStr + Drop>(alloc: Global, words: &[&str]) -> Result<Vec<T>, Fault>
where
    T::Err: Drop,
    ensures count { IfOk result (λ all. length all.items ≡ length words.now) }
    ensures each { IfOk result (λ all. (k : ℕ) (word : _) (number : T) → k < length words.now →
        T.from_str_gives (slice_index_or words.now k word).now (Ok (slice_index_or all.items k number))) }
{
    words
        .iter()
        .map(|word| number_of::<T>(word))
        .try_collect(alloc)
}

/// A renaming's row that begins with these numbers: each place past them stands for itself.
pub fn renaming_of(mut numbers: Vec<u8>) -> Result<Vec<u8>, AllocError>
    ensures { IfOk result (λ row. row.items ≡ renaming_of numbers.items) }
{
    let places = LAST_PLACE + 1;
    let named = u8::try_from(numbers.len()).unwrap_or(places);
    numbers.extend(named..places)?;
    Ok(numbers)
}

/// The bytes that hexadecimal digits write down; letters among them stand in lower case.
pub fn bytes_of(alloc: Global, digits: &str) -> anyhow::Result<Vec<u8>>
    ensures bytes { IfOk result (λ bytes. decode_of digits.now ≡ Ok bytes.items) }
    ensures lower { IfOk result (λ bytes. digits.now ≡ encode_lower bytes.items) }
{
    let pairs = &digits.as_bytes()[..digits.len() / 2 * 2];
    let are_digits = pairs
        .iter()
        .all(|digit| matches!(*digit, b'0'..=b'9' | b'a'..=b'f'));
    ensure!(are_digits, NO_DIGIT);
    ensure!(pairs.len() == digits.len(), "an odd number of digits");
    let bytes = hex::decode(alloc, digits)?;
    let lower = hex::encode(alloc, bytes.as_slice())?;
    // never otherwise, as all of them are digits; `lower` says so
    ensure!(lower.as_str() == digits, NO_DIGIT);
    Ok(bytes)
}

/// The bytes of a file that hexadecimal digits write down; none for `-`.
pub fn file_of(alloc: Global, digits: &str) -> anyhow::Result<Vec<u8>>
    ensures bytes { IfOk result (λ file. ((digits.now ≡ codes "-") × (file.items ≡ []))
        ⊎ (decode_of digits.now ≡ Ok file.items)) }
    ensures lower { IfOk result (λ file. ((digits.now ≡ codes "-") × (file.items ≡ []))
        ⊎ (digits.now ≡ encode_lower file.items)) }
{
    if digits == "-" {
        return Ok(Vec::new(alloc));
    }
    bytes_of(alloc, digits)
}

/// The slots of runs, each a length and what its slots hold.
pub fn slots_of(alloc: Global, runs: &[u32]) -> anyhow::Result<Vec<u8>>
    ensures { IfOk result (λ slots. slots.items ≡ slots_of runs.now) }
{
    let mut slots = Vec::new(alloc);
    let mut left = runs;
    while let [length, held, rest @ ..] = left {
        let held = u8::try_from(*held)?;
        slots.extend(repeat_n(held, usize::try_from(*length)?))?;
        left = rest;
    }
    ensure!(left.is_empty(), "an odd number of numbers");
    Ok(slots)
}

#[cfg(test)]
mod tests;
