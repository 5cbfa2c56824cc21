//! The command line of the program.
use clap::{Arg, Command};
use std::alloc::Global;

/// The program as its user calls it.
pub(crate) const PROGRAM: &str = "zaldrum board";

const ABOUT: &str = "\
Carries out a script of takes and puts on a pile of boards, and prints each answer and what it changed.
docs/FORMATS.md says what a script may have.";

const MORE: &str = "\
Example: zaldrum board examples/pile.board

Exit status: 0 where the script was read, whatever its lines were answered; 1 if it could not be read; 2 if the
command line is not understood.";

pub(crate) fn command<'a>(alloc: Global) -> Result<Command<'a>, clap::Error> {
    let file = Arg::new(alloc, "FILE").help("The script; - or nothing is standard input");
    let command = Command::new(alloc, PROGRAM)
        .about(ABOUT)
        .after_help(MORE)
        .arg(file)?;
    Ok(command)
}
