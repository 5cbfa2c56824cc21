//! What the programs share of a command line: arguments of any bytes, names on one line, files with their limits, and
//! how a program ends.
#![tactic(auto)]

mod arguments;
mod endings;
mod files;
mod names;

pub use arguments::{only_source, sources, words};
pub use endings::{Failure, end, say};
pub use files::{Opened, Source, Unread, first_bytes, text_of};
pub use names::{one_line, read_back};
