//! The flow of a tally: what its steps take from each place of a net and put down there.
ghost use Rattle.std.specs.Prelude.{◌≡◌, ℕ, ◌^◌, ◌<◌};
ghost use Rattle.answers.specs.States.{yields_asked};
ghost use Rattle.theory.specs.Rows.{at};
ghost use Rattle.theory.specs.Tallies.{spent, gained};

use crate::by_place::{gained_by_place, spent_by_place};
use crate::sums::sum_below;
use nets::Net;
use sets::MOST_PLACES;

/// A tally of a net, with the blocks that its steps take from each place and put down there.
#[derive(Drop)]
pub struct Flow<'a, N: Net> {
    pub net: &'a N,
    pub tally: &'a [u16],
    // Found once for all places, since most calls ask of each place.
    spent_at: [u32; MOST_PLACES],
    gained_at: [u32; MOST_PLACES],
    ghost spent: { (p : ℕ) → at spent_at p ≡ spent (N.net net.now) (at tally.now) p },
    ghost gained: { (p : ℕ) → at gained_at p ≡ gained (N.net net.now) (at tally.now) p },
}

impl<'a, N: Net> Flow<'a, N> {
    /// The flow of the tally in the net.
    pub fn of(net: &'a N, tally: &'a [u16]) -> Flow<'a, N>
        ensures net { result.net.now ≡ net.now }
        ensures tally { result.tally.now ≡ tally.now }
    {
        Flow {
            net,
            tally,
            spent_at: spent_by_place(net, tally),
            gained_at: gained_by_place(net, tally),
        }
    }

    /// The blocks that are spent at the place.
    pub fn spent(&self, place: u8) -> u32
        ensures { result ≡ spent (N.net self.now.net.now) (at self.now.tally.now) place }
    {
        self.spent_at.get(usize::from(place)).copied().unwrap_or(0)
    }

    /// The blocks that the place gains.
    pub fn gained(&self, place: u8) -> u32
        ensures { result ≡ gained (N.net self.now.net.now) (at self.now.tally.now) place }
    {
        self.gained_at.get(usize::from(place)).copied().unwrap_or(0)
    }

    /// The blocks that are spent at each place.
    pub fn spent_row(&self) -> &[u32; MOST_PLACES]
        ensures { (p : ℕ) → at result.now p ≡ spent (N.net self.now.net.now) (at self.now.tally.now) p }
    {
        &self.spent_at
    }

    /// The blocks that each place gains.
    pub fn gained_row(&self) -> &[u32; MOST_PLACES]
        ensures { (p : ℕ) → at result.now p ≡ gained (N.net self.now.net.now) (at self.now.tally.now) p }
    {
        &self.gained_at
    }

    /// All blocks that the steps of the tally yield: what all places gain.
    pub fn yields_asked(&self) -> u64
        ensures answer { result ≡ yields_asked (N.net self.now.net.now) (at self.now.tally.now) }
        ensures bound { result < 2 ^ 48 }
    {
        // a number below the places, a byte, so the cast keeps it
        sum_below(
            u16::from(self.net.places()),
            |place| self.gained(place as u8),
        )
    }
}
