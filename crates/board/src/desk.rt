//! The desk: what was last shown of the board, and what is printed of a line.
use crate::script;
use crate::script::Asked;
use board_calls::{Answer, Call, perform};
use boards::{Board, PLACES, all_counts};
use command_line::{Failure, one_line};
use std::alloc::AllocError;
use std::io;

/// The longest bar of a picture.
const WIDEST: u32 = 40;

#[derive(Drop)]
pub(crate) struct Desk<'a> {
    rt: &'a HostRuntime,
    counts: [u32; PLACES],
    spare: u32,
}

impl<'a> Desk<'a> {
    pub(crate) fn new(rt: &'a HostRuntime) -> Desk<'a> {
        Desk {
            rt,
            counts: [0; PLACES],
            spare: 0,
        }
    }

    /// What a line of the script asks for; nothing where it is not understood.
    pub(crate) fn asked_by(&self, line: &str) -> Result<Option<Asked>, AllocError> {
        script::asked_by(self.rt.alloc(), line)
    }

    /// Prints a line of the script.
    fn echo(&self, line: &str) -> Result<(), Failure> {
        let line = one_line(self.rt.alloc(), line.as_bytes())?;
        println!(self.rt; "> {line}")?;
        Ok(())
    }

    /// Prints a line with the words.
    pub(crate) fn say(&self, line: &str, words: &str) -> Result<(), Failure> {
        self.echo(line)?;
        println!(self.rt; "  {words}")?;
        Ok(())
    }

    /// Makes the call of a line, and prints the line with its answer and what it changed.
    pub(crate) fn call<B: Board>(
        &mut self,
        line: &str,
        board: &mut B,
        call: Call,
    ) -> Result<(), Failure> {
        let answer = perform(board, call);
        self.show(line, board, answer)
    }

    /// Prints a line with its answer and what it changed.
    pub(crate) fn show<B: Board>(
        &mut self,
        line: &str,
        board: &B,
        answer: Answer,
    ) -> Result<(), Failure> {
        self.echo(line)?;
        print_answer(self.rt, answer)?;
        let counts = all_counts(board);
        for (place, (before, after)) in self.counts.iter().zip(&counts).enumerate() {
            if before != after {
                print_change(self.rt, place, *before, *after)?;
            }
        }
        let spare = board.spare();
        if spare != self.spare {
            let before = self.spare;
            println!(self.rt; "  spare: {before} -> {spare}")?;
        }
        self.counts = counts;
        self.spare = spare;
        Ok(())
    }
}

/// Prints an answer, and a refusal's words with it.
fn print_answer(rt: &HostRuntime, answer: Answer) -> io::Result<()> {
    if let Answer::Refused(refusal) = answer {
        let words = refusal.words();
        return println!(rt; "  {answer}: {words}");
    }
    println!(rt; "  {answer}")
}

/// Prints a place whose count changed, with a bar for its blocks.
fn print_change(rt: &HostRuntime, place: usize, before: u32, after: u32) -> Result<(), Failure> {
    let space = if after > 0 { " " } else { "" };
    let bar = "#".repeat(rt.alloc(), after.min(WIDEST) as usize)?;
    let more = if after > WIDEST { "+" } else { "" };
    println!(rt; "  place {place}: {before} -> {after}{space}{bar}{more}")?;
    Ok(())
}
