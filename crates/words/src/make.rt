//! The makes of net, by their words.
ghost use Rattle.std.specs.Prelude.{Some};
ghost use Rattle.words.specs.Makes.{make_name, ReadsMake};

use std::fmt;
use std::str::FromStr;
use thiserror::Error;

/// How a file writes a net down.
#[derive(Clone, Copy, Debug, PartialEq, Eq)]
pub enum Make {
    Grid,
    Chained,
}

/// The words for the makes.
pub const MAKES: &[&str] = &["grid", "chained"];

/// A word is that of no make.
#[derive(Clone, Copy, Debug, Error)]
#[error("an unknown make of net")]
pub struct UnknownMake;

impl FromStr for Make {
    type Err = UnknownMake;

    ghost from_str_gives = { ReadsMake };

    fn from_str(word: &str) -> Result<Make, UnknownMake> {
        match word {
            "grid" => Ok(Make::Grid),
            "chained" => Ok(Make::Chained),
            _ => Err(UnknownMake),
        }
    }
}

impl fmt::Display for Make {
    ghost output = { λ make. Some (make_name make) };

    fn fmt<W: fmt::Write>(&self, f: &mut fmt::Formatter<W>) -> fmt::Result {
        match self {
            Make::Grid => f.write_str("grid"),
            Make::Chained => f.write_str("chained"),
        }
    }
}
