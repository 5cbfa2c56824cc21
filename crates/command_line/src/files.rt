//! Files that a user names, standard input among them: what is read of one, how much, and what is said where it
//! cannot be read.
ghost use Rattle.std.specs.Prelude.{◌≡◌, ◌≢◌, ◌≤◌, IfOk, IfSome, take, string_bytes, vec_len};
ghost use Rattle.std.specs.Prelude.{codes, MatchResult};
ghost use Rattle.command_line.specs.Names.{one_line};
ghost use Rattle.command_line.specs.Files.{Opens, IsShownAs};
ghost use Rattle.std.specs.Str.{IsUtf8};

use crate::endings::{Failure, say};
use crate::names::{one_line, read_back};
use std::alloc::{AllocError, Global};
use std::fmt::Display;
use std::fs::File;
use std::io::{ErrorKind, IsTerminal, Read};
use std::{io, str};
use thiserror::Error;

/// Why a file cannot be read.
#[derive(Debug, Drop, Error)]
pub enum Unread {
    #[error("there is no file of this name; look at its spelling and its folder")]
    Missing,
    #[error("it is a folder; name the files in it")]
    Folder,
    #[error("there is no leave to read it; its owner gives leave by 'chmod a+r'")]
    NoLeave,
    #[error("its name is no text in UTF-8, so this program cannot open it; give the file on standard input, with '<'")]
    NameNoText,
    #[error("the name of a file is empty")]
    NoName,
    #[error("its last name has no text behind it to print, so that file is not judged")]
    NoShown,
    #[error("it has more than {0} bytes, the most that is read here; is it another file?")]
    TooLong(u32),
    #[error("line {0}: a byte that is no text in UTF-8; save the file as UTF-8")]
    NoText(usize),
    #[error("it cannot be read: {0}")]
    Failed(io::Error),
}

impl From<io::Error> for Unread {
    fn from(error: io::Error) -> Unread {
        match error.kind() {
            ErrorKind::NotFound => Unread::Missing,
            ErrorKind::IsADirectory => Unread::Folder,
            ErrorKind::PermissionDenied => Unread::NoLeave,
            _ => Unread::Failed(error),
        }
    }
}

/// What is opened.
#[derive(Drop)]
pub enum Opened {
    Input,
    File(String),
    /// A file whose name is no text, which cannot be opened here.
    NoText,
}

/// What is read: a file, or standard input.
#[derive(Drop)]
pub struct Source {
    pub opened: Opened,
    /// What is printed for it, on one line.
    pub shown: String,
}

impl Source {
    /// Standard input.
    pub fn input(alloc: Global) -> Result<Source, AllocError>
        ensures opened { IfOk result (λ s. s.opened ≡ Opened.Input) }
        ensures shown { IfOk result (λ s. string_bytes s.shown ≡ codes "standard input") }
    {
        Ok(Source {
            opened: Opened::Input,
            shown: String::from_str(alloc, "standard input")?,
        })
    }

    /// The file with this name, and what is printed for it.
    pub fn file(alloc: Global, name: &[u8], shown: &[u8]) -> Result<Source, AllocError>
        ensures opened { IfOk result (λ s. Opens name.now s.opened) }
        ensures shown { IfOk result (λ s. string_bytes s.shown ≡ one_line shown.now) }
    {
        let opened = match str::from_utf8(name) {
            Ok(text) => Opened::File(String::from_str(alloc, text)?),
            Err(_) => Opened::NoText,
        };
        let shown = one_line(alloc, shown)?;
        Ok(Source { opened, shown })
    }

    /// What an argument names, which is given on one line: standard input for `-`, else a file. A word that no
    /// argument has on one line names a file that cannot be opened.
    pub fn of_word(alloc: Global, word: &str) -> Result<Source, AllocError>
        ensures { IfOk result (IsShownAs word.now) }
    {
        if word == "-" {
            return Source::input(alloc);
        }
        match read_back(alloc, word)? {
            Some(name) => Source::file(alloc, name.as_slice(), name.as_slice()),
            None => Ok(Source {
                opened: Opened::NoText,
                shown: String::from_str(alloc, word)?,
            }),
        }
    }

    /// The first bytes of the file, at most so many. At a terminal, says first that `program` reads.
    pub fn read(&self, rt: &HostRuntime, program: &str, most: u64) -> Result<Vec<u8>, Unread> {
        match &self.opened {
            Opened::Input => {
                say_at_a_terminal(rt, program);
                Ok(first_bytes(rt.alloc(), rt.stdin(), most)?)
            }
            Opened::File(name) if name.is_empty() => Err(Unread::NoName),
            Opened::File(name) => {
                let file = File::open(rt, name.as_str())?;
                Ok(first_bytes(rt.alloc(), file, most)?)
            }
            Opened::NoText => Err(Unread::NameNoText),
        }
    }

    /// The bytes of a file that has at most so many.
    pub fn read_whole(&self, rt: &HostRuntime, program: &str, most: u32) -> Result<Vec<u8>, Unread>
        ensures { IfOk result (λ bytes. vec_len bytes ≤ most) }
    {
        let bytes = self.read(rt, program, u64::from(most) + 1)?;
        if bytes.len() as u64 > u64::from(most) {
            return Err(Unread::TooLong(most));
        }
        Ok(bytes)
    }
}

impl Source {
    /// What is said where the file is of no use: its name, and what is wrong with it, which may quote the file.
    pub fn fault<D: Display + Drop>(&self, alloc: Global, wrong: D) -> Failure {
        self.sentence(alloc, wrong)
            .map_or(Failure::Memory, Failure::Said)
    }

    fn sentence<D: Display + Drop>(&self, alloc: Global, wrong: D) -> Result<String, AllocError> {
        let wrong = format!(in alloc; "{wrong}")?;
        let wrong = one_line(alloc, wrong.as_bytes())?;
        let name = self.shown.as_str();
        format!(in alloc; "{name}: {wrong}")
    }

    /// The text of a file that has at most so many bytes.
    pub fn read_text(&self, rt: &HostRuntime, program: &str, most: u32) -> Result<String, Failure> {
        let alloc = rt.alloc();
        let bytes = self
            .read_whole(rt, program, most)
            .map_err(|unread| self.fault(alloc, unread))?;
        let _ = text_of(bytes.as_slice()).map_err(|unread| self.fault(alloc, unread))?;
        // what was read becomes the text, as a copy would take as much again
        String::from_utf8(bytes).map_err(|error| self.fault(alloc, error))
    }
}

/// Says what is read where standard input is a terminal, which gives no sign of waiting.
fn say_at_a_terminal(rt: &HostRuntime, program: &str) {
    if rt.stdin().is_terminal() {
        say(
            rt,
            program,
            "reads standard input, here what you type; Ctrl-D at the start of a line ends it",
        );
    }
}

/// The first bytes that a reader gives, at most so many.
pub fn first_bytes<R: Read + Drop>(alloc: Global, reader: R, most: u64) -> io::Result<Vec<u8>>
    ensures { IfOk result (λ bytes. IfSome (R.remaining reader) (λ all. bytes.items ≡ take most all)) }
{
    let mut bytes = Vec::new(alloc);
    reader.take(most).read_to_end(&mut bytes)?;
    Ok(bytes)
}

/// The text of a file's bytes.
pub fn text_of(bytes: &[u8]) -> Result<&str, Unread>
    ensures { MatchResult result (λ text. text.now ≡ bytes.now) (λ _. ¬ (IsUtf8 bytes.now)) }
{
    str::from_utf8(bytes).map_err(|error| Unread::NoText(line_at(bytes, error.valid_up_to())))
}

/// The line of a byte, counted from 1.
fn line_at(bytes: &[u8], place: usize) -> usize {
    let before = bytes.get(..place).unwrap_or(bytes);
    let ends = before.iter().filter(|byte| **byte == b'\n').count();
    ends.saturating_add(1)
}
