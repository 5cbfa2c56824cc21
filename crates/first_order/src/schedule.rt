//! The schedule: the tables that say which step comes next, built, asked and kept.
ghost use Rattle.reached.specs.Led.{Led, has_at};
ghost use Rattle.sets.specs.Flags.{has};
ghost use Rattle.std.specs.Prelude.{◌≡◌, ℕ, ◌+◌, ◌-◌, ◌^◌, ◌<◌, true, if◌then◌else◌};
ghost use Rattle.std.specs.Prelude.{not, ◌&&◌, ◌||◌, ◌==◌, false, ◌↔◌, IsTrue};
ghost use Rattle.std.specs.Prelude.{IfSome, ◌≤◌};
ghost use Rattle.theory.specs.Firing.{Marking, one_at, fired};
ghost use Rattle.theory.specs.Nets.{NetMeaning};
ghost use Rattle.theory.specs.Orders.{less};
ghost use Rattle.theory.specs.Rows.{at};
ghost use Rattle.theory.specs.Tallies.{NoPlaceCutOff, Tally};
ghost use Rattle.theory.specs.Tests.{least, is_safe};

use crate::takers::takers_at;
use boards::PLACES;
use nets::Net;
use reached::{Origins, marked_in};
use sets::{MOST_STEPS, PlaceSet, StepSet};

/// Where blocks (tokens) lie, how often each step is still to be done, and where blocks can come from there.
// One row for each kind of number: clauses say of each what it holds, where a row of structs would be named
// with a field at each place besides.
#[derive(Drop)]
pub struct Schedule {
    pub(crate) left: [u16; MOST_STEPS],
    pub(crate) inputs: [u8; MOST_STEPS],
    /// Where each step yields.
    pub(crate) yields: [PlaceSet; MOST_STEPS],
    /// How many blocks lie at each place.
    pub(crate) counts: [u32; PLACES],
    /// The places that hold a block.
    pub(crate) marked: PlaceSet,
    /// The steps that are left and find a block.
    pub(crate) ready: StepSet,
    /// For each place, the steps that are left and take there.
    pub(crate) takers: [StepSet; PLACES],
    /// For each place, from where the steps that are left yield there.
    pub(crate) origins: Origins,
    ghost inputs_inside: { (t : ℕ) → at inputs t < 64 },
    ghost ready_inside: { (t : ℕ) → 128 ≤ t → has ready t ≡ false },
}

impl Schedule {
    ghost use Rattle.first_order.specs.Tables.{Fresh, input_in, yields_in};

    /// A schedule of nothing, to be read into.
    pub fn new() -> Schedule
        ensures { Fresh result }
    {
        Schedule {
            left: [0; MOST_STEPS],
            inputs: [0; MOST_STEPS],
            yields: [PlaceSet::empty(); MOST_STEPS],
            counts: [0; PLACES],
            marked: PlaceSet::empty(),
            ready: StepSet::empty(),
            takers: [StepSet::empty(); PLACES],
            origins: Origins::new(),
        }
    }

    /// The place at which a step takes its block.
    pub(crate) fn input(&self, step: u16) -> u8
        requires { step < 128 }
        ensures table { result ≡ input_in self.now step }
        ensures inside { result < 64 }
    {
        // Below 64 already: the remainder is one mask, and what is asked of the place afterwards needs no test of it.
        self.inputs[usize::from(step)] % 64
    }

    /// The places at which a step yields.
    pub(crate) fn yields(&self, step: u16) -> PlaceSet
        requires { step < 128 }
        ensures { (p : ℕ) → has result p ≡ yields_in self.now step p }
    {
        self.yields[usize::from(step)]
    }
}

impl Schedule {
    ghost use Rattle.first_order.specs.Shows.{Shows};
    ghost use Rattle.first_order.specs.Tables.{Asked, Fresh};

    /// Reads the net with these counts at its places and this tally into a new schedule; what a row lacks is 0.
    // The rows are filled where they lie, since a value that is given back is copied, and only for the steps that the
    // net has.
    pub fn read<N: Net>(&mut self, net: &N, counts: &[u32; PLACES], tally: &[u16])
        requires { Fresh self.old }
        ensures { Shows (N.net net.now) (at counts.now) (at tally.now) self.new }
    {
        self.counts = *counts;
        self.marked = marked_in(net, counts);
        for step in 0..net.steps() {
            let row = usize::from(step);
            self.inputs[row] = net.input(step).unwrap_or(0);
            self.yields[row] = net.yield_places(step);
            self.left[row] = tally.get(row).copied().unwrap_or(0);
            self.ask(step);
        }
        self.ready = takers_at(self.marked, &self.takers);
    }

    /// Takes a step in, if it is to be done: it takes at its input place, and its yields are reached from there.
    fn ask(&mut self, step: u16)
        requires { step < 128 }
        ensures { Asked self.old step self.new }
    {
        if self.left[usize::from(step)] > 0 {
            let place = self.input(step);
            let row = usize::from(place);
            self.takers[row] = self.takers[row].with(step);
            let yields = self.yields(step);
            self.origins.add(yields, place);
        }
    }
}

impl Schedule {
    ghost use Rattle.first_order.specs.Shows.{Shows, WhereShown, TellsSafe};
    ghost use Rattle.first_order.specs.Tables.{Kept, TakesLast, keeps_in, marked_after, yields_in};

    /// The least step that is safe, where no place is cut off. Only what searches found changes in the schedule.
    pub fn next_step(&mut self) -> Option<u16>
        ensures answer { WhereShown self.old (λ N m x. NoPlaceCutOff N m x →
            result ≡ least (is_safe N m x) N.steps) }
        ensures ready { IfSome result (λ t. has self.new.ready t ≡ true) }
        ensures kept { (N : NetMeaning) (m : Marking) (x : Tally) → Shows N m x self.old → Shows N m x self.new }
    {
        for step in self.ready.iter() {
            if self.is_safe(step) {
                return Some(step);
            }
        }
        None
    }

    /// Whether a step that is ready is safe, where no place is cut off: it can lose only its input place, and only
    /// by taking the last block there and yielding none.
    fn is_safe(&mut self, step: u16) -> bool
        requires inside { step < 128 }
        requires ready { has self.old.ready step ≡ true }
        ensures answer { TellsSafe self.old step result }
        ensures kept { Kept self.old self.new }
    {
        if self.keeps_input(step) || self.takes_last(step) {
            return true;
        }
        self.comes_back(step)
    }

    /// Whether the input place holds a block after the step.
    fn keeps_input(&self, step: u16) -> bool
        requires { step < 128 }
        ensures { result ≡ keeps_in self.now step }
    {
        let place = self.input(step);
        self.counts[usize::from(place)] > 1 || self.yields(step).contains(place)
    }

    /// Whether no step that is left after this one takes at its input place.
    fn takes_last(&self, step: u16) -> bool
        requires { step < 128 }
        ensures { has_at self.now.takers (at self.now.inputs step) step ≡ true → TakesLast self.now step result }
    {
        // The step takes there itself, so no other does where none is left without the first.
        self.left[usize::from(step)] == 1
            && self.takers[usize::from(self.input(step))]
                .without_first()
                .first()
                .is_none()
    }

    /// Whether the input place, where the step does not yield, is reached from another place that holds a block
    /// after it.
    fn comes_back(&mut self, step: u16) -> bool
        requires inside { step < 128 }
        requires none { yields_in self.old step (at self.old.inputs step) ≡ false }
        ensures answer { IsTrue result ↔ Led (λ q p. has_at self.old.origins.before p q)
            (marked_after self.old step) (at self.old.inputs step) }
        ensures kept { Kept self.old self.new }
    {
        let place = self.input(step);
        let held = self.marked.union(self.yields(step));
        held.intersects(self.origins.others(place))
    }
}

impl Schedule {
    ghost use Rattle.first_order.specs.Shows.{Shows, WhereShown};
    ghost use Rattle.first_order.specs.Tables.{Finished, any_step};

    /// Leaves one less of a step that is left.
    pub(crate) fn count_down(&mut self, step: u16)
        requires { step < 128 }
        ensures { WhereShown self.old (λ N m x. step < N.steps → 0 < x step → Shows N m (less x step) self.new) }
    {
        let left = self.left[usize::from(step)].wrapping_sub(1);
        self.left[usize::from(step)] = left;
        if left == 0 {
            self.finish(step);
        }
    }

    /// Takes a step out that was done for the last time.
    fn finish(&mut self, step: u16)
        requires { step < 128 }
        ensures { Finished self.old step self.new }
    {
        let place = self.input(step);
        let others = self.takers[usize::from(place)].without(step);
        self.takers[usize::from(place)] = others;
        self.ready = self.ready.without(step);
        let lost = self.yields(step).difference(self.yields_of(others));
        self.origins.lose(lost, place);
    }

    /// Where any of the steps yields.
    fn yields_of(&self, steps: StepSet) -> PlaceSet
        ensures { (p : ℕ) → has result p ≡ any_step (λ t. has steps t && has_at self.now.yields t p) }
    {
        let mut places = PlaceSet::empty();
        for step in steps.iter() {
            places = places.union(self.yields(step));
        }
        places
    }
}

impl Schedule {
    ghost use Rattle.first_order.specs.Shows.{Shows, WhereShown};
    ghost use Rattle.first_order.specs.Tables.{KeepsReady};

    /// Fires a step that is ready.
    // The yields are put down before the block is taken: so no sum passes the limit, and a place that the step takes
    // from and yields at stays marked.
    pub fn fire<N: Net>(&mut self, net: &N, step: u16)
        requires ready { has self.old.ready step ≡ true }
        requires fits { (p : ℕ) → at self.old.counts p + (N.net net.now).yields step p < 2 ^ 32 }
        ensures { (m : Marking) (x : Tally) → let M = (N.net net.now) in Shows M m x self.old →
            Shows M (fired M m step) (less x step) self.new }
    {
        self.put_yields(net, step);
        let place = self.input(step);
        self.take_at(place);
        self.count_down(step);
    }

    /// Puts the yields of a step down.
    fn put_yields<N: Net>(&mut self, net: &N, step: u16)
        requires inside { step < 128 }
        requires fits { (p : ℕ) → at self.old.counts p + (N.net net.now).yields step p < 2 ^ 32 }
        ensures { (m : Marking) (x : Tally) → let M = (N.net net.now) in Shows M m x self.old →
            Shows M (λ p. m p + M.yields step p) x self.new }
    {
        let places = self.yields(step);
        add_yields(&mut self.counts, net, step, places);
        self.mark(places);
    }

    /// Takes a block at a place that holds one.
    fn take_at(&mut self, place: u8)
        requires { place < 64 }
        ensures { WhereShown self.old (λ N m x. 0 < m place → Shows N (λ p. m p - one_at place p) x self.new) }
    {
        let count = self.counts[usize::from(place)].wrapping_sub(1);
        self.counts[usize::from(place)] = count;
        if count == 0 {
            self.unmark(place);
        }
    }

    /// The place holds no block any more.
    fn unmark(&mut self, place: u8)
        requires { place < 64 }
        ensures ready { KeepsReady self.old self.new }
        ensures marked { (p : ℕ) → has self.new.marked p ≡ (has self.old.marked p && not (p == place)) }
    {
        self.marked = self.marked.without(place);
        self.ready = self.ready.difference(self.takers[usize::from(place)]);
    }

    /// The places hold a block.
    fn mark(&mut self, places: PlaceSet)
        ensures ready { KeepsReady self.old self.new }
        ensures marked { (p : ℕ) → has self.new.marked p ≡ (has self.old.marked p || has places p) }
    {
        let fresh = places.difference(self.marked);
        self.marked = self.marked.union(places);
        self.ready = self.ready.union(takers_at(fresh, &self.takers));
    }
}

/// Adds what the step yields at the places, of those where it yields.
fn add_yields<N: Net>(counts: &mut [u32; PLACES], net: &N, step: u16, places: PlaceSet)
    requires { (p : ℕ) → at counts.old p + (N.net net.now).yields step p < 2 ^ 32 }
    ensures { (p : ℕ) → at counts.new p ≡ at counts.old p
        + (if has places p then (N.net net.now).yields step p else 0) }
{
    for place in places.iter() {
        counts[usize::from(place)] += u32::from(net.yield_at(step, place));
    }
}
