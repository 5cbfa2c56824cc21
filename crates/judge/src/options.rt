//! The command line of the program.
use clap::{Arg, Command};
use std::alloc::Global;

/// The program as its user calls it.
pub(crate) const PROGRAM: &str = "zaldrum judge";

const ABOUT: &str = "\
Judges exam sheets: says of each the first order of steps that does its tally, or why there is none.
Each file gets a line NAME: VERDICT, in the sequence of the names; standard input alone gets the verdict alone.";

const MORE: &str = "\
Example: zaldrum judge examples/*.sheet

Exit status: 0 whatever the verdicts are; 1 if a file could not be read, and the others are judged all the same;
2 if the command line is not understood.";

pub(crate) fn command<'a>(alloc: Global) -> Result<Command<'a>, clap::Error> {
    let files = Arg::new(alloc, "FILE").num_args(0..).help(
        "Sheets to judge; - is standard input, which is judged too where nothing is named",
    );
    let files0 = Arg::new(alloc, "files0")
        .long("files0")
        .value_name("LIST")
        .help(
            "Judges the files whose names LIST has, each ended by a zero byte; - is standard input",
        )
        .conflicts_with("FILE")?
        .conflicts_with("named0")?;
    let named0 = Arg::new(alloc, "named0")
        .long("named0")
        .value_name("LIST")
        .help(
            "The same, but behind each name stands what is printed for it, also ended by a zero byte",
        )
        .conflicts_with("FILE")?;
    let command = Command::new(alloc, PROGRAM)
        .about(ABOUT)
        .after_help(MORE)
        .arg(files)?
        .arg(files0)?
        .arg(named0)?;
    Ok(command)
}
