//! What can be wrong with a hand-over file, in words.
use refusals::Refusal;
use std::alloc::{AllocError, AllocFailed};
use thiserror::Error;

/// What is wrong with a line.
#[derive(Debug, Drop, Error)]
pub(crate) enum Fault<'a> {
    #[error("no line begins with '{0}'")]
    Unknown(&'a str),
    #[error("the line should read '{0}'")]
    Form(&'static str),
    #[error("the line has neither 'exact' nor 'at least'")]
    NoTarget,
    #[error("'{0}' is no number of 0 to {1}")]
    NoNumber(&'a str, u32),
    #[error("'{0}' stands before 'places'")]
    BeforePlaces(&'static str),
    #[error("'{0}' stands above already")]
    Twice(&'static str),
    #[error("the net has no place {0} to yield at")]
    Outside(u8),
    #[error("the step yields at place {0} twice")]
    YieldTwice(u8),
    #[error("the start has {0} numbers for {1} places")]
    StartLength(usize, u8),
    #[error("there is no memory left")]
    Memory,
}

impl From<AllocError> for Fault<'_> {
    fn from(_error: AllocError) -> Self {
        Fault::Memory
    }
}

impl<T: Drop> From<AllocFailed<T>> for Fault<'_> {
    fn from(_error: AllocFailed<T>) -> Self {
        Fault::Memory
    }
}

/// Why a day cannot begin.
#[derive(Clone, Copy, Debug, Error)]
pub(crate) enum Unfit {
    #[error("there is no line 'places'")]
    NoPlaces,
    #[error("there is no line 'start'")]
    NoStart,
    #[error("the net: {0}")]
    Net(Refusal),
    #[error("the start on the first board: {0}")]
    FirstBoard(Refusal),
    #[error("the start on the second board: {0}")]
    SecondBoard(Refusal),
}
