//! A make of net that holds the answers of another.
ghost use Rattle.std.specs.Prelude.{◌≡◌, ℕ, ◌<◌, ◌≤◌, true, nat_lt};
ghost use Rattle.sets.specs.Flags.{has};
ghost use Rattle.formats.proofs.TableLaw.{table_lawful};
ghost use Rattle.formats.specs.Tables.{cell, yields_somewhere, table_net};
ghost use Rattle.theory.specs.Rows.{at};

use crate::net::Net;
use sets::{MOST_PLACES, MOST_STEPS, PlaceSet};

/// The answers of a net: the input of each step, and for each step a row of yields and the set of their places.
#[derive(Drop)]
pub struct NetTable {
    places: u8,
    steps: u16,
    // Rows by step, which may hold anything from the number of steps on.
    inputs: [u8; MOST_STEPS],
    yields: [[u8; MOST_PLACES]; MOST_STEPS],
    yield_places: [PlaceSet; MOST_STEPS],
    // The law of nets, said of the rows up to the last step. Such a row yields nothing past the places, and the set
    // of a step is the places of its row.
    ghost some_place: { 1 ≤ places },
    ghost few_places: { places ≤ 64 },
    ghost few_steps: { steps ≤ 128 },
    ghost inputs_inside: { (t : ℕ) → t < steps → at inputs t < places },
    ghost yields_small: { (t p : ℕ) → t < steps → p < places → cell yields t p ≤ 255 },
    ghost yields_something: { (t : ℕ) → t < steps → yields_somewhere yields places t ≡ true },
    ghost nothing_outside: { (t p : ℕ) → t < steps →
        cell yields t p ≡ (table_net places steps inputs yields).yields t p },
    ghost places_held: { (t p : ℕ) → t < steps → has (at yield_places t) p ≡ nat_lt 0 (cell yields t p) },
}

impl NetTable {
    /// The table of the smallest net, in which nothing can be fired.
    pub fn new() -> NetTable
        ensures places { result.places ≡ 1 }
        ensures steps { result.steps ≡ 0 }
    {
        NetTable {
            places: 1,
            steps: 0,
            inputs: [0; MOST_STEPS],
            yields: [[0; MOST_PLACES]; MOST_STEPS],
            yield_places: [PlaceSet::empty(); MOST_STEPS],
        }
    }

    /// Takes over every answer of a net.
    pub fn read<N: Net>(&mut self, net: &N)
        ensures { table_net self.new.places self.new.steps self.new.inputs self.new.yields ≡ (N.net net.now) }
    {
        // While the table has no steps its rows may hold anything, so they are filled where they lie: a table that
        // was given back would be copied. Those past the last step stay as they are.
        self.steps = 0;
        self.places = net.places();
        let steps = net.steps();
        for step in 0..steps {
            let row = usize::from(step);
            self.inputs[row] = net.input(step).unwrap_or(0);
            self.yield_places[row] = net.read_yields(step, &mut self.yields[row]);
        }
        self.steps = steps;
    }
}

impl Net for NetTable {
    ghost net = { λ n. table_net n.places n.steps n.inputs n.yields };

    ghost lawful = { λ n. table_lawful n.places n.steps n.inputs n.yields n.some_place n.few_places n.few_steps
        n.inputs_inside n.yields_small n.yields_something };

    fn places(&self) -> u8 {
        self.places
    }

    fn steps(&self) -> u16 {
        self.steps
    }

    fn input(&self, step: u16) -> Option<u8> {
        if step < self.steps {
            Some(self.inputs[usize::from(step)])
        } else {
            None
        }
    }

    fn yield_at(&self, step: u16, place: u8) -> u8 {
        if step < self.steps && place < self.places {
            self.yields[usize::from(step)][usize::from(place)]
        } else {
            0
        }
    }

    fn yield_places(&self, step: u16) -> PlaceSet {
        if step < self.steps {
            self.yield_places[usize::from(step)]
        } else {
            PlaceSet::empty()
        }
    }

    fn read_yields(&self, step: u16, row: &mut [u8; MOST_PLACES]) -> PlaceSet {
        *row = if step < self.steps {
            self.yields[usize::from(step)]
        } else {
            [0; MOST_PLACES]
        };
        self.yield_places(step)
    }
}
