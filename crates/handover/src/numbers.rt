//! The words of a line, and the numbers among them.
use crate::faults::Fault;
use std::alloc::{AllocError, Global};
use std::str::FromStr;
use words::number_of;

/// The numbers of a file: of one, two or four bytes.
pub(crate) trait Number: FromStr + Drop {
    /// The largest.
    const MOST: u32;
}

// A constant's value calls no `from`, so the smaller ones are cast.
impl Number for u8 {
    const MOST: u32 = u8::MAX as u32;
}

impl Number for u16 {
    const MOST: u32 = u16::MAX as u32;
}

impl Number for u32 {
    const MOST: u32 = u32::MAX;
}

/// The words of a line; a comma counts as a space.
pub(crate) fn words_of<'a>(alloc: Global, code: &'a str) -> Result<Vec<&'a str>, AllocError> {
    code.split([' ', '\t', ','])
        .filter(|word| !word.is_empty())
        .collect(alloc)
}

/// A word as a number.
pub(crate) fn number_in<'a, T: Number>(word: &'a str) -> Result<T, Fault<'a>>
where
    T::Err: Drop,
{
    number_of(word).map_err(|_| Fault::NoNumber(word, T::MOST))
}

/// The only word as a number; the form is that of the whole line.
pub(crate) fn only_number<'a, T: Number>(
    words: &[&'a str],
    form: &'static str,
) -> Result<T, Fault<'a>>
where
    T::Err: Drop,
{
    match words {
        [word] => number_in(*word),
        _ => Err(Fault::Form(form)),
    }
}

/// The words as numbers. It stands beside `words::numbers`, whose fault does not name the word.
pub(crate) fn numbers_in<'a, T: Number>(
    alloc: Global,
    words: &[&'a str],
) -> Result<Vec<T>, Fault<'a>>
where
    T::Err: Drop,
{
    // A `try_collect` is not covered by the borrow checker's part of a proof: the words outlive the row.
    let mut all = Vec::new(alloc);
    for word in words {
        all.push(number_in(*word)?)?;
    }
    Ok(all)
}
