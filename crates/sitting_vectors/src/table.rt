//! The table, and how far its lines agree with what is answered here.
use crate::summary::Totals;
use board_calls::Answer;
use comparisons::{Comparison, Digest, Line};
use std::alloc::Global;
use std::io;

/// How many differences are printed.
const PRINTED: u32 = 20;

#[derive(Drop)]
pub(crate) struct Table<'a> {
    rt: &'a HostRuntime,
    comparison: Comparison,
    pub(crate) totals: Totals,
}

impl<'a> Table<'a> {
    pub(crate) fn new(rt: &'a HostRuntime) -> Table<'a> {
        Table {
            rt,
            comparison: Comparison::default(),
            totals: Totals::new(rt.alloc()),
        }
    }

    pub(crate) fn alloc(&self) -> Global {
        self.rt.alloc()
    }

    /// Compares the answer in a line with the one here.
    pub(crate) fn compare(&mut self, line: &Line<'_>, answer: Answer) -> anyhow::Result<()> {
        let here = answer.to_string(self.alloc())?;
        Ok(self.compare_text(line.expected(), here.as_str())?)
    }

    /// Compares it with an answer and a digest of everything after it.
    pub(crate) fn compare_state(
        &mut self,
        line: &Line<'_>,
        answer: Answer,
        state: Digest,
    ) -> anyhow::Result<()> {
        let state = state.value;
        let here = format!(in self.alloc(); "{answer} {state}")?;
        Ok(self.compare_text(line.expected(), here.as_str())?)
    }

    fn compare_text(&mut self, expected: &str, here: &str) -> io::Result<()> {
        if self.comparison.compare(expected, here) || self.comparison.differing > PRINTED {
            return Ok(());
        }
        let line = self.comparison.compared();
        println!(self.rt; "line {line}: the table has {expected}, but here it is {here}")
    }

    /// Prints what was counted, how many lines are left, if any, and how many differ.
    pub(crate) fn report(&self, left: usize) -> io::Result<()> {
        self.totals.print(self.rt)?;
        if left > 0 {
            println!(self.rt; "{left} lines were not understood")?;
        }
        let differences = self.comparison.differing;
        println!(self.rt; "{differences} differences")
    }
}
