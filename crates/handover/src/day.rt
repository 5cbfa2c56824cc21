//! The day of a hand-over file: a net, a start, what the second board is like, and the calls.
ghost use Rattle.std.specs.Prelude.{◌≡◌, Some, MatchResult};

use crate::faults::{Fault, Unfit};
use crate::lines;
use crate::lines::{Line, Sizes, Yield};
use crate::net_file::NetFile;
use crate::numbers::words_of;
use crate::piles::SecondBoard;
use answers::{DONE_LIMIT, FINDINGS_NEEDED};
use anyhow::anyhow;
use handovers::OwnedCall;
use std::alloc::Global;
use words::code_of;

/// How many entries memory has before a line says another number: as many as any order has, and as many
/// as a survey asks for. A constant's value calls no `try_from`, so both are cast: they are proved to fit.
const SIZES: Sizes = Sizes {
    order: DONE_LIMIT as u16,
    findings: FINDINGS_NEEDED as u16,
};

/// What the lines of a file say.
#[derive(Drop)]
pub(crate) struct Day<'a> {
    alloc: Global,
    net: Option<NetFile>,
    start: Option<Vec<u32>>,
    pub(crate) second: SecondBoard,
    pub(crate) sizes: Sizes,
    /// The lines of the calls; beside the calls and not with them, since a hand-over takes those alone.
    pub(crate) asked: Vec<&'a str>,
    pub(crate) calls: Vec<OwnedCall>,
}

impl<'a> Day<'a> {
    fn new(alloc: Global) -> Day<'a> {
        Day {
            alloc,
            net: None,
            start: None,
            second: SecondBoard::default(),
            sizes: SIZES,
            asked: Vec::new(alloc),
            calls: Vec::new(alloc),
        }
    }

    /// The day that a text tells of.
    pub(crate) fn read(alloc: Global, text: &'a str) -> anyhow::Result<Day<'a>> {
        let mut day = Day::new(alloc);
        for (before, line) in text.lines().enumerate() {
            if let Err(fault) = day.read_line(code_of(line)) {
                let number = before.saturating_add(1);
                return Err(anyhow!(format!(in alloc; "line {number}: {fault}")?));
            }
        }
        Ok(day)
    }

    /// The bytes of the net as a grid net.
    pub(crate) fn net_bytes(&self) -> anyhow::Result<Vec<u8>> {
        let net = self.net.as_ref().ok_or(Unfit::NoPlaces)?;
        Ok(net.bytes(self.alloc)?)
    }

    /// How many blocks lie at each place of the net at the start.
    pub(crate) fn start(&self) -> Result<&[u32], Unfit> {
        let start = self.start.as_ref().ok_or(Unfit::NoStart)?;
        Ok(start.as_slice())
    }

    fn read_line(&mut self, code: &'a str) -> Result<(), Fault<'a>> {
        let words = words_of(self.alloc, code)?;
        let Some((first, rest)) = words.as_slice().split_first() else {
            return Ok(());
        };
        match lines::read(self.alloc, *first, rest, self.sizes)? {
            Line::Places(places) => once(&mut self.net, NetFile::new(self.alloc, places), "places"),
            Line::Step(input, yields) => self.add_step(input, yields.as_slice()),
            Line::Start(start) => self.set_start(start),
            Line::Rename(row) => once(&mut self.second.rename, row, "rename"),
            Line::Allow(left) => once(&mut self.second.allow, left, "allow"),
            Line::Spare(spare) => once(&mut self.second.spare, spare, "spare"),
            Line::Memory(entries) => {
                self.sizes.order = entries;
                Ok(())
            }
            Line::Findings(entries) => {
                self.sizes.findings = entries;
                Ok(())
            }
            Line::Call(call) => self.add_call(code, call),
        }
    }

    fn add_step(&mut self, input: u8, yields: &[Yield]) -> Result<(), Fault<'a>> {
        let net = self.net.as_mut().ok_or(Fault::BeforePlaces("step"))?;
        net.add_step(self.alloc, input, yields)
    }

    fn set_start(&mut self, start: Vec<u32>) -> Result<(), Fault<'a>> {
        let net = self.net.as_ref().ok_or(Fault::BeforePlaces("start"))?;
        let places = net.places();
        if start.len() != usize::from(places) {
            return Err(Fault::StartLength(start.len(), places));
        }
        once(&mut self.start, start, "start")
    }

    fn add_call(&mut self, code: &'a str, call: OwnedCall) -> Result<(), Fault<'a>> {
        self.asked.push(code)?;
        self.calls.push(call)?;
        Ok(())
    }
}

/// Keeps a value that only one line may give.
fn once<'a, T: Drop>(kept: &mut Option<T>, value: T, word: &'static str) -> Result<(), Fault<'a>>
    ensures { MatchResult result (λ _. kept.new ≡ Some value) (λ _. kept.new ≡ kept.old) }
{
    if kept.is_some() {
        return Err(Fault::Twice(word));
    }
    *kept = Some(value);
    Ok(())
}
