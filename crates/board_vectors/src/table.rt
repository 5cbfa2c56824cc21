//! How far the lines of the table agree with what the boards here answer.
use board_calls::Answer;
use boards::{Board, all_counts};
use comparisons::{Comparison, Digest, Line};
use std::alloc::Global;
use std::io;

#[derive(Drop)]
pub(crate) struct Table<'a> {
    rt: &'a HostRuntime,
    comparison: Comparison,
}

impl<'a> Table<'a> {
    pub(crate) fn new(rt: &'a HostRuntime) -> Table<'a> {
        Table {
            rt,
            comparison: Comparison::default(),
        }
    }

    pub(crate) fn alloc(&self) -> Global {
        self.rt.alloc()
    }

    /// Compares the answer in a line, and the counts and spare after it, with those here.
    pub(crate) fn compare<B: Board>(
        &mut self,
        line: &Line<'_>,
        board: &B,
        answer: Answer,
    ) -> anyhow::Result<()> {
        let mut state = Digest::of(&all_counts(board));
        state.add(board.spare());
        let state = state.value;
        let here = format!(in self.alloc(); "{answer} {state}")?;
        if !self.comparison.compare(line.expected(), here.as_str()) {
            let text = line.text;
            let asked = line.asked();
            println!(self.rt; "the table has {text}\nbut here it is {asked} = {here}")?;
        }
        Ok(())
    }

    /// Prints how many lines are left, if any, and how many agree.
    pub(crate) fn report(&self, left: usize) -> io::Result<()> {
        if left > 0 {
            println!(self.rt; "{left} lines were not understood")?;
        }
        let agreed = self.comparison.agreed;
        println!(self.rt; "{agreed} lines agree")
    }
}
