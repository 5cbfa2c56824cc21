//! Final numbers: what a tally leaves at each place, and the places that are short or miss a target.
ghost use Rattle.std.specs.Prelude.{◌≡◌, ℕ, ◌+◌, ◌^◌, ◌<◌, pos, ◌-ℤ◌, neg_ℤ, ◌<ℤ◌};
ghost use Rattle.answers.specs.Answers.{is_missed};
ghost use Rattle.answers.specs.Kinds.{target_with};
ghost use Rattle.answers.specs.Targets.{lent_target};
ghost use Rattle.theory.specs.Rows.{at};
ghost use Rattle.theory.specs.Tallies.{spent, gained, final_number};
ghost use Rattle.theory.specs.Tests.{least, is_short};

use crate::flow::Flow;
use answers::{Kind, Target};
use nets::Net;
use sets::least_below;

/// What is asked of a net: a tally, by its flow, the blocks at the places, and the target that it is to meet.
#[derive(Drop)]
pub struct Asked<'a, N: Net> {
    pub flow: &'a Flow<'a, N>,
    pub counts: &'a [u32],
    pub target: &'a [u32],
    pub kind: Kind,
}

impl<'a, N: Net> Asked<'a, N> {
    /// The blocks that are spent at the place.
    fn spent(&self, place: u8) -> u32
        ensures { let flow = self.now.flow.now in let net = (N.net flow.net.now) in
            result ≡ spent net (at flow.tally.now) place }
    {
        self.flow.spent(place)
    }

    /// The blocks that the place has and gains.
    fn has_and_gains(&self, place: u8) -> u64
        ensures answer { let flow = self.now.flow.now in let net = (N.net flow.net.now) in
            result ≡ at self.now.counts.now place + gained net (at flow.tally.now) place }
        ensures bound { result < 2 ^ 49 }
    {
        let has = self.counts.get(usize::from(place)).copied().unwrap_or(0);
        u64::from(has) + u64::from(self.flow.gained(place))
    }

    /// The blocks that the target wants at the place; 0 past its end.
    fn wanted(&self, place: u8) -> u32
        ensures { result ≡ at self.now.target.now place }
    {
        self.target.get(usize::from(place)).copied().unwrap_or(0)
    }

    /// Whether more is spent at the place than it has and gains.
    pub fn is_short(&self, place: u8) -> bool
        ensures { let flow = self.now.flow.now in let net = (N.net flow.net.now) in
            result ≡ is_short net (at self.now.counts.now) (at flow.tally.now) place }
    {
        self.has_and_gains(place) < u64::from(self.spent(place))
    }

    /// The final number of the place.
    pub fn final_number(&self, place: u8) -> i64
        ensures answer { let flow = self.now.flow.now in let net = (N.net flow.net.now) in
            result ≡ final_number net (at self.now.counts.now) (at flow.tally.now) place }
        ensures bound { (neg_ℤ (pos (2 ^ 48)) <ℤ result) × (result <ℤ pos (2 ^ 49)) }
    {
        // below 2^49, so the cast keeps it
        self.has_and_gains(place) as i64 - i64::from(self.spent(place))
    }

    /// Whether the tally would leave other than the wanted blocks at the place: more or fewer for an exact target,
    /// fewer for one that is to be covered.
    pub fn is_missed(&self, place: u8) -> bool
        ensures { let flow = self.now.flow.now in let net = (N.net flow.net.now) in
            let target = target_with self.now.target.now self.now.kind in
            result ≡ is_missed net (at self.now.counts.now) (at flow.tally.now) target place }
    {
        let here = self.has_and_gains(place);
        let wanted = u64::from(self.wanted(place)) + u64::from(self.spent(place));
        match self.kind {
            Kind::Exact => here != wanted,
            Kind::AtLeast => here < wanted,
        }
    }

    /// The same for a target of its own, of any byte: one that is no kind's is compared as at least is.
    pub fn is_missed_by(&self, target: Target<'_>, place: u8) -> bool
        ensures { let flow = self.now.flow.now in let net = (N.net flow.net.now) in
            result ≡ is_missed net (at self.now.counts.now) (at flow.tally.now) (lent_target target.entry) place }
    {
        let asked = Asked {
            flow: self.flow,
            counts: self.counts,
            target: target.numbers,
            kind: Kind::compared_by(target.kind),
        };
        asked.is_missed(place)
    }

    /// By how many blocks the tally overshoots the target at the place; below 0 where it falls behind.
    pub fn missed_by(&self, place: u8) -> i64
        ensures { let flow = self.now.flow.now in let net = (N.net flow.net.now) in
            result ≡ final_number net (at self.now.counts.now) (at flow.tally.now) place -ℤ pos
            (at self.now.target.now place) }
    {
        self.final_number(place) - i64::from(self.wanted(place))
    }

    // The two below are one call each, with another test; their casts keep a number below the places, a byte.

    /// The least short place.
    pub fn least_short(&self) -> Option<u8>
        ensures { let flow = self.now.flow.now in let net = (N.net flow.net.now) in
            result ≡ least (is_short net (at self.now.counts.now) (at flow.tally.now)) net.places }
    {
        let places = u16::from(self.flow.net.places());
        least_below(places, |place| self.is_short(place as u8)).map(|place| place as u8)
    }

    /// The least place that misses the target.
    pub fn least_missed(&self) -> Option<u8>
        ensures { let flow = self.now.flow.now in let net = (N.net flow.net.now) in
            let target = target_with self.now.target.now self.now.kind in
            result ≡ least (is_missed net (at self.now.counts.now) (at flow.tally.now) target) net.places }
    {
        let places = u16::from(self.flow.net.places());
        least_below(places, |place| self.is_missed(place as u8)).map(|place| place as u8)
    }

    /// The same for a target of its own, of any byte.
    pub fn least_missed_by(&self, target: Target<'_>) -> Option<u8>
        ensures { let flow = self.now.flow.now in let net = (N.net flow.net.now) in
            let target = lent_target target.entry in
            result ≡ least (is_missed net (at self.now.counts.now) (at flow.tally.now) target) net.places }
    {
        let places = u16::from(self.flow.net.places());
        least_below(places, |place| self.is_missed_by(target, place as u8)).map(|place| place as u8)
    }
}
