//! How many calls were accepted and refused.
ghost use Rattle.std.specs.Prelude.{◌≡◌, ◌≢◌, ℕ, not, Some, IfOk, OnOk, []};
ghost use Rattle.std.specs.Ordering.{nat_cmp};
ghost use Rattle.std.specs.BTreeMap.{get};
ghost use Rattle.std.specs.String.{string_bytes};
ghost use Rattle.refusals.specs.Refusals.{number_of};
ghost use Rattle.comparisons.specs.Counted.{count_at, counted, one_more};
ghost use Rattle.comparisons.specs.Shown.{count_lines, shown_outcomes};

use refusals::Refusal;
use std::alloc::{AllocError, Global};
use std::collections::BTreeMap;
use std::fmt;
use std::fmt::Write;

/// How many calls were accepted, and how many were refused.
#[derive(Clone, Copy, Default)]
pub struct Outcomes {
    pub accepted: u32,
    pub refused: u32,
}

/// How many calls were refused, by the number of the refusal.
#[derive(Drop)]
pub struct Refused {
    pub counts: BTreeMap<u8, u32>,
}

impl Outcomes {
    /// Counts a call.
    pub fn add(&mut self, is_accepted: bool)
        ensures accepted { self.new.accepted ≡ counted is_accepted self.old.accepted }
        ensures refused { self.new.refused ≡ counted (not is_accepted) self.old.refused }
    {
        if is_accepted {
            self.accepted = self.accepted.saturating_add(1);
        } else {
            self.refused = self.refused.saturating_add(1);
        }
    }
}

impl fmt::Display for Outcomes {
    ghost output = { λ outcomes. Some (shown_outcomes outcomes) };

    fn fmt<W: fmt::Write>(&self, f: &mut fmt::Formatter<W>) -> fmt::Result {
        let accepted = self.accepted;
        let refused = self.refused;
        write!(f, "{accepted} accepted, {refused} refused")
    }
}

impl Refused {
    /// No call yet.
    pub fn new(alloc: Global) -> Refused
        ensures { (n : ℕ) → count_at result.counts n ≡ 0 }
    {
        Refused {
            counts: BTreeMap::new(alloc),
        }
    }

    /// Counts a refused call; where memory fails, nothing is said of the counts.
    pub fn add(&mut self, refusal: Refusal) -> Result<(), AllocError>
        ensures counted { OnOk result (count_at self.new.counts (number_of refusal)
            ≡ one_more (count_at self.old.counts (number_of refusal))) }
        ensures others { OnOk result ((n : ℕ) → n ≢ number_of refusal →
            count_at self.new.counts n ≡ count_at self.old.counts n) }
    {
        let number = refusal.number();
        let count = self.count(number);
        self.counts.insert(number, count.saturating_add(1))?;
        Ok(())
    }

    /// How many calls were refused with the number.
    pub fn count(&self, number: u8) -> u32
        ensures { result ≡ count_at self.now.counts number }
    {
        self.counts.get(&number).copied().unwrap_or(0)
    }

    /// A line for each of the numbers, with how many calls were refused with it.
    pub fn lines(&self, alloc: Global, numbers: &[u8]) -> Result<String, AllocError>
        ensures { IfOk result (λ lines. string_bytes lines ≡ count_lines self.now.counts numbers.now) }
    {
        let mut lines = String::new(alloc);
        for number in numbers {
            let count = self.count(*number);
            writeln!(lines, "refusal {number}: {count}")?;
        }
        Ok(lines)
    }
}
