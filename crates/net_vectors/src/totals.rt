//! How many files were read, by make and by refusal, and how many answers differ.
use comparisons::{Comparison, Outcomes, Refused};
use std::alloc::Global;
use std::io;
use words::Make;

/// The refusals of a net file, by number, as they are counted: those of the enum have places and steps with them.
const OF_FILES: [u8; 6] = [1, 2, 3, 4, 5, 6];

/// What was counted so far.
#[derive(Drop)]
pub(crate) struct Totals {
    pub(crate) grid: Outcomes,
    pub(crate) chained: Outcomes,
    pub(crate) refused: Refused,
    pub(crate) comparison: Comparison,
}

impl Totals {
    pub(crate) fn new(alloc: Global) -> Totals {
        Totals {
            grid: Outcomes::default(),
            chained: Outcomes::default(),
            refused: Refused::new(alloc),
            comparison: Comparison::default(),
        }
    }

    /// Prints the counts.
    pub(crate) fn print(&self, rt: &HostRuntime) -> io::Result<()> {
        print_files(rt, Make::Grid, self.grid)?;
        print_files(rt, Make::Chained, self.chained)?;
        let refused = self.refused.lines(rt.alloc(), &OF_FILES)?;
        print!(rt; "{refused}")?;
        let differences = self.comparison.differing;
        println!(rt; "{differences} differences")
    }
}

fn print_files(rt: &HostRuntime, make: Make, files: Outcomes) -> io::Result<()> {
    let all = files.accepted.saturating_add(files.refused);
    println!(rt; "{make}: {all} files, {files}")
}
