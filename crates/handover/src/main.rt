//! Reads a hand-over file, makes its calls and the hand-over, and prints what was said and what is left.
#![tactic(auto)]

mod day;
mod faults;
mod lines;
mod net_file;
mod numbers;
mod options;
mod piles;
mod report;

use command_line::{Failure, end, only_source, words};
use day::Day;
use faults::Unfit;
use handovers::transcribe;
use nets::GridNet;
use options::{PROGRAM, command};
use piles::{Pile, first_board};
use report::{Outcome, show};
use slot_board::SlotBoard;
use std::process::ExitCode;

/// How long a hand-over file may be: 1 MiB.
const FILE_BYTES: u32 = 1_048_576;

/// The boards of a day and of its hand-over, with the start on both.
fn boards_of(day: &Day<'_>) -> Result<(SlotBoard, Pile), Unfit> {
    let start = day.start()?;
    Ok((first_board(start)?, day.second.with(start)?))
}

/// Makes the calls of a day and its hand-over, and prints what was said and what is left.
fn run(rt: &HostRuntime) -> Result<ExitCode, Failure> {
    let alloc = rt.alloc();
    let words = words(rt, PROGRAM)?;
    let matches = command(alloc)?.try_get_matches_from(words.as_slice())?;
    let source = only_source(alloc, matches.get_str("FILE"))?;
    let text = source.read_text(rt, PROGRAM, FILE_BYTES)?;
    let day = Day::read(alloc, text.as_str()).map_err(|error| source.fault(alloc, error))?;
    let file = day.net_bytes().map_err(|error| source.fault(alloc, error))?;
    let net = GridNet::try_from(file.as_slice()).map_err(|refusal| source.fault(
        alloc,
        Unfit::Net(refusal),
    ))?;
    let (first, second) = boards_of(&day).map_err(|unfit| source.fault(alloc, unfit))?;
    let memory = usize::from(day.sizes.order);
    let ended = transcribe(alloc, net, first, second, day.calls.as_slice(), memory)?;
    match show(rt, day.asked.as_slice(), &ended)? {
        Outcome::Agree => Ok(ExitCode::SUCCESS),
        Outcome::Differ | Outcome::Refused => Ok(ExitCode::FAILURE),
    }
}

fn main(rt: HostRuntime) -> ExitCode {
    end(&rt, PROGRAM, run(&rt))
}
