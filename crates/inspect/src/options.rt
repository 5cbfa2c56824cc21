//! The command line of the program.
use clap::{Arg, Command};
use std::alloc::Global;
use words::MAKES;

/// The program as its user calls it.
pub(crate) const PROGRAM: &str = "zaldrum inspect";

const ABOUT: &str = "\
Shows what net files mean, each step with its input place and its yields, or why a file is refused.
Where several files are named, a line with its name stands above each.";

const MORE: &str = "\
Example: zaldrum inspect grid examples/detour.grid

Exit status: 0 if each file is accepted; 1 if one is refused or could not be read, and the others are shown all the
same; 2 if the command line is not understood.";

pub(crate) fn command<'a>(alloc: Global) -> Result<Command<'a>, clap::Error> {
    let make = Arg::new(alloc, "MAKE")
        .required(true)
        .value_parser(MAKES)
        .help("How the files write a net down");
    let files = Arg::new(alloc, "FILE").num_args(0..).help(
        "Net files; - is standard input, which is read too where nothing is named",
    );
    let command = Command::new(alloc, PROGRAM)
        .about(ABOUT)
        .after_help(MORE)
        .arg(make)?
        .arg(files)?;
    Ok(command)
}
