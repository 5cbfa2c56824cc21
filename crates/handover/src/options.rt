//! The command line of the program.
use clap::{Arg, Command};
use std::alloc::Global;

/// The program as its user calls it.
pub(crate) const PROGRAM: &str = "zaldrum handover";

const ABOUT: &str = "\
Makes the calls of a day on one board, hands its counters over to a second board, and prints what was said and both
markings. docs/FORMATS.md says what a hand-over file has.";

const MORE: &str = "\
Example: zaldrum handover examples/day.handover

Exit status: 0 if the markings agree after an accepted hand-over; 1 if they differ, if the hand-over is refused, or if
the file is at fault or could not be read; 2 if the command line is not understood.";

pub(crate) fn command<'a>(alloc: Global) -> Result<Command<'a>, clap::Error> {
    let file = Arg::new(alloc, "FILE").help("The hand-over file; - or nothing is standard input");
    let command = Command::new(alloc, PROGRAM)
        .about(ABOUT)
        .after_help(MORE)
        .arg(file)?;
    Ok(command)
}
