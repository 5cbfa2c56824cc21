//! What is said of each sheet.
use crate::options::PROGRAM;
use command_line::{Failure, Opened, Source, Unread, say};
use sheets::line_of;
use std::fs;
use std::io::{BufWriter, Write};

/// How much of a sheet is read: a byte more than any sheet has. A longer one is refused for its length where its head
/// is not refused before, and so are its first bytes, since no head tells so many.
const SHEET_BYTES: u64 = 5_250;

/// Where the verdicts are written, and whether each file was read.
#[derive(Drop)]
pub(crate) struct Verdicts<'a, W: Write + Drop> {
    pub(crate) rt: &'a HostRuntime,
    out: BufWriter<W>,
    all_read: bool,
}

impl<'a, W: Write + Drop> Verdicts<'a, W> {
    pub(crate) fn new(rt: &'a HostRuntime, out: BufWriter<W>) -> Verdicts<'a, W> {
        Verdicts {
            rt,
            out,
            all_read: true,
        }
    }

    /// Judges standard input, and prints the verdict alone.
    pub(crate) fn judge_input(&mut self) -> Result<(), Failure> {
        let input = Source::input(self.rt.alloc())?;
        match input.read(self.rt, PROGRAM, SHEET_BYTES) {
            Ok(sheet) => self.print(sheet.as_slice()),
            Err(unread) => self.say_unread(&input, &unread),
        }
    }

    /// Judges a file, and prints its name and the verdict. Where it may have to wait for the file, the verdicts so far
    /// are written before.
    pub(crate) fn judge(&mut self, source: &Source) -> Result<(), Failure> {
        if self.may_wait(source) {
            self.out.flush()?;
        }
        match source.read(self.rt, PROGRAM, SHEET_BYTES) {
            Ok(sheet) => {
                let name = source.shown.as_str();
                write!(self.out, "{name}: ")?;
                self.print(sheet.as_slice())
            }
            Err(unread) => self.say_unread(source, &unread),
        }
    }

    /// Whether it may have to be waited for: for all but a file on a disk.
    fn may_wait(&self, source: &Source) -> bool {
        match &source.opened {
            Opened::File(name) => {
                !fs::metadata(self.rt, name.as_str()).is_ok_and(|file| file.is_file())
            }
            _ => true,
        }
    }

    fn print(&mut self, sheet: &[u8]) -> Result<(), Failure> {
        let line = line_of(self.rt.alloc(), sheet)?;
        Ok(self.out.write_all(line.as_slice())?)
    }

    /// Says on standard error that a file was not read, behind the verdicts so far.
    pub(crate) fn say_unread(&mut self, source: &Source, unread: &Unread) -> Result<(), Failure> {
        self.all_read = false;
        self.out.flush()?;
        let name = source.shown.as_str();
        say(self.rt, PROGRAM, format_args!("{name}: {unread}"));
        Ok(())
    }

    /// Writes what is not written yet, and says whether each file was read.
    pub(crate) fn end(&mut self) -> Result<bool, Failure> {
        self.out.flush()?;
        Ok(self.all_read)
    }
}
