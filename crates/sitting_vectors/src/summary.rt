//! How many calls were made, and how they were answered.
use comparisons::{Outcomes, Refused};
use refusals::Refusal;
use std::alloc::{AllocError, Global};
use std::io;

/// The refusals of a sitting, by number, as they are counted: those of the enum have places with them.
const OF_SITTINGS: [u8; 10] = [7, 8, 9, 10, 11, 12, 13, 14, 15, 21];

/// What was counted so far.
#[derive(Drop)]
pub(crate) struct Totals {
    sittings: u32,
    refused_files: u32,
    fires: Outcomes,
    resumes: Outcomes,
    surveys: Outcomes,
    refused: Refused,
    longest_order: usize,
    most_findings: usize,
}

impl Totals {
    pub(crate) fn new(alloc: Global) -> Totals {
        Totals {
            sittings: 0,
            refused_files: 0,
            fires: Outcomes::default(),
            resumes: Outcomes::default(),
            surveys: Outcomes::default(),
            refused: Refused::new(alloc),
            longest_order: 0,
            most_findings: 0,
        }
    }

    /// A new sitting.
    pub(crate) fn begin(&mut self) {
        self.sittings = self.sittings.saturating_add(1);
    }

    /// A net file that was refused.
    pub(crate) fn refuse_file(&mut self) {
        self.refused_files = self.refused_files.saturating_add(1);
    }

    /// What a fire answered.
    pub(crate) fn fire(&mut self, done: Result<(), Refusal>) -> Result<(), AllocError> {
        self.fires.add(done.is_ok());
        self.count_refusal(done.err())
    }

    /// What a resume answered.
    pub(crate) fn resume(&mut self, done: Result<usize, Refusal>) -> Result<(), AllocError> {
        self.resumes.add(done.is_ok());
        self.longest_order = self.longest_order.max(done.unwrap_or(0));
        self.count_refusal(done.err())
    }

    /// What a survey answered.
    pub(crate) fn survey(&mut self, done: Result<usize, Refusal>) -> Result<(), AllocError> {
        self.surveys.add(done.is_ok());
        self.most_findings = self.most_findings.max(done.unwrap_or(0));
        self.count_refusal(done.err())
    }

    fn count_refusal(&mut self, refusal: Option<Refusal>) -> Result<(), AllocError> {
        match refusal {
            Some(refusal) => self.refused.add(refusal),
            None => Ok(()),
        }
    }

    /// Prints the counts.
    pub(crate) fn print(&self, rt: &HostRuntime) -> io::Result<()> {
        let sittings = self.sittings;
        let files = self.refused_files;
        println!(rt; "{sittings} sittings, {files} net files refused")?;
        let fires = self.fires;
        println!(rt; "fire: {fires}")?;
        let resumes = self.resumes;
        println!(rt; "resume: {resumes}")?;
        let surveys = self.surveys;
        println!(rt; "survey: {surveys}")?;
        let refused = self.refused.lines(rt.alloc(), &OF_SITTINGS)?;
        print!(rt; "{refused}")?;
        let order = self.longest_order;
        println!(rt; "longest order: {order}")?;
        let findings = self.most_findings;
        println!(rt; "most findings: {findings}")
    }
}
