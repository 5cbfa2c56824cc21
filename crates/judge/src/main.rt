//! Judges exam sheets: of files that are named, of the files of a list, or the one on standard input.
#![tactic(auto)]

mod name_lists;
mod options;
mod verdicts;

use command_line::{Failure, Source, end, sources, words};
use name_lists::{Row, judge_list};
use options::{PROGRAM, command};
use std::io;
use std::io::{BufWriter, Write};
use std::process::ExitCode;
use verdicts::Verdicts;

/// How many bytes of verdicts are written at once.
const ROOM: usize = 65_536;

/// Judges what the command line names.
fn judge_asked<W: Write + Drop>(
    rt: &HostRuntime,
    verdicts: &mut Verdicts<'_, W>,
) -> Result<(), Failure> {
    let words = words(rt, PROGRAM)?;
    let matches = command(rt.alloc())?.try_get_matches_from(words.as_slice())?;
    if let Some(list) = matches.get_str("files0") {
        return judge_list(verdicts, &Source::of_word(rt.alloc(), list)?, Row::Name);
    }
    if let Some(list) = matches.get_str("named0") {
        return judge_list(
            verdicts,
            &Source::of_word(rt.alloc(), list)?,
            Row::NameAndText,
        );
    }
    let sources = sources(rt.alloc(), matches.get_strs("FILE").unwrap_or(&[]))?;
    if sources.is_empty() {
        return verdicts.judge_input();
    }
    for source in &sources {
        verdicts.judge(source)?;
    }
    Ok(())
}

fn run(rt: &HostRuntime) -> Result<ExitCode, Failure> {
    let out = BufWriter::with_capacity(rt.alloc(), ROOM, io::writer(rt))?;
    let mut verdicts = Verdicts::new(rt, out);
    judge_asked(rt, &mut verdicts)?;
    if verdicts.end()? {
        Ok(ExitCode::SUCCESS)
    } else {
        Ok(ExitCode::FAILURE)
    }
}

fn main(rt: HostRuntime) -> ExitCode {
    end(&rt, PROGRAM, run(&rt))
}
