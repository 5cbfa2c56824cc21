//! How a program ends: with what it found, or early.
ghost use Rattle.std.specs.Prelude.{◌≡◌};

use std::alloc::{AllocError, AllocFailed};
use std::fmt::Display;
use std::io;
use std::process::ExitCode;
use thiserror::Error;

/// The status of a command line that is not understood.
const MISUSED: u8 = 2;

/// Why a program ends before it is done.
#[derive(Debug, Drop, Error)]
pub enum Failure {
    /// What the parser of options says, with help among it.
    #[error("{0}")]
    Options(clap::Error),
    #[error("standard input is named more than once: name it once")]
    InputTwice,
    /// A sentence for the user.
    #[error("{0}")]
    Said(String),
    #[error("what it prints cannot be written: {0}")]
    Output(io::Error),
    #[error("there is no memory left")]
    Memory,
}

impl From<clap::Error> for Failure {
    fn from(error: clap::Error) -> Failure {
        Failure::Options(error)
    }
}

impl From<io::Error> for Failure {
    fn from(error: io::Error) -> Failure {
        Failure::Output(error)
    }
}

impl From<AllocError> for Failure {
    fn from(_error: AllocError) -> Failure {
        Failure::Memory
    }
}

impl<T: Drop> From<AllocFailed<T>> for Failure {
    fn from(_error: AllocFailed<T>) -> Failure {
        Failure::Memory
    }
}

/// Says something on standard error, on a line of its own. Where that cannot be written, nobody is there to be told,
/// and the work goes on.
pub fn say<D: Display + Drop>(rt: &HostRuntime, program: &str, words: D) {
    let _ = eprintln!(rt; "{program}: {words}");
}

/// The status where what a program prints cannot be written: 0 where nobody reads it any more, else 1, after words.
fn after_output(rt: &HostRuntime, program: &str, error: &io::Error) -> ExitCode {
    if error.kind() == io::ErrorKind::BrokenPipe {
        return ExitCode::SUCCESS;
    }
    say(
        rt,
        program,
        format_args!("what it prints cannot be written: {error}"),
    );
    ExitCode::FAILURE
}

/// Prints what the parser of options says: help, with the status 0, or a mistake with 2.
fn after_options(rt: &HostRuntime, program: &str, said: &clap::Error) -> ExitCode {
    match said.print(rt) {
        _ if said.use_stderr() => ExitCode::from(MISUSED),
        Ok(()) => ExitCode::SUCCESS,
        Err(error) => after_output(rt, program, &error),
    }
}

/// Ends a program: with the status that it came to, or after words on standard error that say why it ends early.
pub fn end(rt: &HostRuntime, program: &str, ended: Result<ExitCode, Failure>) -> ExitCode
    ensures { (status : _) → ended ≡ Ok status → result ≡ status }
{
    match ended {
        Ok(status) => status,
        Err(Failure::Options(said)) => after_options(rt, program, &said),
        Err(Failure::Output(error)) => after_output(rt, program, &error),
        Err(Failure::InputTwice) => {
            say(rt, program, Failure::InputTwice);
            ExitCode::from(MISUSED)
        }
        Err(failure) => {
            say(rt, program, failure);
            ExitCode::FAILURE
        }
    }
}
