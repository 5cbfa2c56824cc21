//! The net of a hand-over file, as the bytes of a grid net.
ghost use Rattle.std.specs.Prelude.{◌≡◌, ◌∷◌, IfOk, vec_len};

use crate::faults::Fault;
use crate::lines::Yield;
use std::alloc::{AllocError, Global};

/// A grid net that is being written: the two bytes of its head, and a row for each step so far.
#[derive(Drop)]
pub(crate) struct NetFile {
    places: u8,
    // Counted beside the rows, as the file has it: no more than a byte holds, which is above what a net may
    // have. Rows of their own would have to be put together again at once.
    steps: u8,
    rows: Vec<u8>,
}

impl NetFile {
    /// A net of so many places, with no steps yet.
    pub(crate) fn new(alloc: Global, places: u8) -> NetFile {
        NetFile {
            places,
            steps: 0,
            rows: Vec::new(alloc),
        }
    }

    pub(crate) fn places(&self) -> u8
        ensures { result ≡ self.now.places }
    {
        self.places
    }

    /// Adds a step that takes at the input place.
    pub(crate) fn add_step(
        &mut self,
        alloc: Global,
        input: u8,
        yields: &[Yield],
    ) -> Result<(), Fault<'static>> {
        let row = row_of(alloc, self.places, yields)?;
        self.rows.push(input)?;
        self.rows.extend_from_slice(row.as_slice())?;
        self.steps = self.steps.saturating_add(1);
        Ok(())
    }

    /// The bytes of the file.
    pub(crate) fn bytes(&self, alloc: Global) -> Result<Vec<u8>, AllocError>
        ensures { IfOk result (λ v. v.items ≡ self.now.places ∷ self.now.steps ∷ self.now.rows.items) }
    {
        let mut bytes = vec![in alloc; self.places, self.steps]?;
        bytes.extend_from_slice(self.rows.as_slice())?;
        Ok(bytes)
    }
}

/// The yields at each of so many places.
fn row_of(alloc: Global, places: u8, yields: &[Yield]) -> Result<Vec<u8>, Fault<'static>>
    ensures { IfOk result (λ row. vec_len row ≡ places) }
{
    let mut row = vec![in alloc; 0u8; usize::from(places)]?;
    for part in yields {
        let place = part.place;
        let blocks = row
            .get_mut(usize::from(place))
            .ok_or(Fault::Outside(place))?;
        if *blocks > 0 {
            return Err(Fault::YieldTwice(place));
        }
        *blocks = part.blocks;
    }
    Ok(row)
}
