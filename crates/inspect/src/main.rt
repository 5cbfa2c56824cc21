//! Shows what net files mean, or why they are refused.
#![tactic(auto)]

mod options;
mod table;

use command_line::{Failure, Source, end, say, sources, words};
use nets::{ChainedNet, GridNet, Net};
use options::{PROGRAM, command};
use refusals::Refusal;
use std::io;
use std::process::ExitCode;
use words::Make;

/// How much of a file is read: a byte more than any net of its make has. A longer one is refused for its length where
/// its head is not refused before, and so are its first bytes, since no head tells so many.
const GRID_BYTES: u64 = 8_323;

const CHAINED_BYTES: u64 = 4_481;

/// Shows the net of a file, or why the file is refused; true where it is accepted.
fn show<'a, N: Net + TryFrom<&'a [u8], Error = Refusal> + Drop>(
    rt: &HostRuntime,
    make: Make,
    file: &'a [u8],
) -> io::Result<bool> {
    match N::try_from(file) {
        Ok(net) => {
            table::show(rt, make, &net)?;
            Ok(true)
        }
        Err(refusal) => {
            println!(rt; "{make} net: {refusal}")?;
            Ok(false)
        }
    }
}

/// Shows one file, maybe under its name; true where it is accepted.
fn inspect(rt: &HostRuntime, make: Make, source: &Source, titled: bool) -> Result<bool, Failure> {
    let most = match make {
        Make::Grid => GRID_BYTES,
        Make::Chained => CHAINED_BYTES,
    };
    let name = source.shown.as_str();
    let file = match source.read(rt, PROGRAM, most) {
        Ok(file) => file,
        Err(unread) => {
            say(rt, PROGRAM, format_args!("{name}: {unread}"));
            return Ok(false);
        }
    };
    if titled {
        println!(rt; "{name}:")?;
    }
    let accepted = match make {
        Make::Grid => show::<GridNet>(rt, make, file.as_slice())?,
        Make::Chained => show::<ChainedNet>(rt, make, file.as_slice())?,
    };
    Ok(accepted)
}

/// Shows each file, under its name where there are several; true where all are accepted.
fn inspect_all(rt: &HostRuntime, make: Make, sources: &[Source]) -> Result<bool, Failure> {
    let mut all = true;
    for source in sources {
        all = inspect(rt, make, source, sources.len() > 1)? && all;
    }
    Ok(all)
}

fn run(rt: &HostRuntime) -> Result<ExitCode, Failure> {
    let words = words(rt, PROGRAM)?;
    let matches = command(rt.alloc())?.try_get_matches_from(words.as_slice())?;
    // `command` lets nothing pass that is no make.
    let make = matches.get_one::<Make>("MAKE").unwrap_or(Make::Grid);
    let mut sources = sources(rt.alloc(), matches.get_strs("FILE").unwrap_or(&[]))?;
    if sources.is_empty() {
        sources.push(Source::input(rt.alloc())?)?;
    }
    if inspect_all(rt, make, sources.as_slice())? {
        Ok(ExitCode::SUCCESS)
    } else {
        Ok(ExitCode::FAILURE)
    }
}

fn main(rt: HostRuntime) -> ExitCode {
    end(&rt, PROGRAM, run(&rt))
}
