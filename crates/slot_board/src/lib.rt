//! The slot board: blocks with an address, as in a heap, so that it shows where a sitting left each of them.
#![tactic(auto)]

ghost use Rattle.std.specs.Prelude.{◌≡◌, ℕ, ◌+◌, ◌≤◌, length, replicate, MatchBool, MatchOption};
ghost use Rattle.std.specs.Prelude.{MatchResult, OnOk, slice_index};
ghost use Rattle.boards.specs.Boards.{TakeSays, PutSays};
ghost use Rattle.slot_board.specs.Slots.{occurs, counts_of, lowest_with, slots_after_take, slots_after_put};
ghost use Rattle.slot_board.specs.Passes.{Absent, FirstAt, HighestFilled, TakenSlot, PutSlots};
ghost use Rattle.slot_board.specs.Loads.{SlotsFit, SlotLoadSays};
ghost use Rattle.refusals.specs.declared.Refusal.TheVariants.{PlaceEmpty};
ghost use Rattle.std.proofs.Common.{arith};
ghost use Rattle.slot_board.specs.Occurs.{occurs_absent, all_le_length};

use boards::{Board, LAST_PLACE, index_of};
use refusals::Refusal;

/// How many slots there are, numbered from 0.
pub const SLOTS: usize = 4096;

// what an empty slot holds
const EMPTY: u8 = 0;

// the most that a slot holds: the highest place and 1
const HIGHEST: u8 = LAST_PLACE + 1;

/// A board of 4,096 slots, a byte each, with room for one block in each: an empty slot has the byte 0, one with a
/// block of place p has p + 1. A take clears the place's first slot, a put uses the last slots that are empty.
// clauses name the fields: under an `impl Model` the laws of a board stay open, which rest on the ghost fields
#[derive(Drop)]
pub struct SlotBoard {
    slots: [u8; SLOTS],
    // how many slots are empty, kept so that spare and put need not count them
    free: u32,
    ghost fit: { SlotsFit slots },
    ghost counted: { free ≡ occurs 0 slots },
}

impl SlotBoard {
    ghost use Rattle.slot_board.specs.Shown.{slot_bytes};

    /// A board without a block, so with spare 4,096.
    pub fn new() -> SlotBoard
        ensures slots { slot_bytes result ≡ replicate 4096 0 }
    {
        SlotBoard {
            slots: [EMPTY; SLOTS],
            // a cast, since a `usize` has no `From` into a `u32`
            free: SLOTS as u32,
        }
    }

    /// Sets all slots by their bytes, slot 0 first. Refused: `BoardRowUnfit`, with the board as it was, where there
    /// are fewer or more than 4,096 bytes, or one stands for no place.
    pub fn load(&mut self, bytes: &[u8]) -> Result<(), Refusal>
        ensures answer { SlotLoadSays bytes.now (slot_bytes self.old) result (slot_bytes self.new) }
    {
        let slots = <&[u8; SLOTS]>::try_from(bytes).map_err(|_| Refusal::BoardRowUnfit)?;
        if !fit(slots) {
            return Err(Refusal::BoardRowUnfit);
        }
        self.slots = *slots;
        self.free = count_of(slots, EMPTY);
        Ok(())
    }

    /// The 4,096 bytes, slot 0 first.
    pub fn slots(&self) -> &[u8]
        ensures answer { result.now ≡ slot_bytes self.now }
    {
        self.slots.as_slice()
    }
}

// whether no slot holds more than the highest
fn fit(slots: &[u8; SLOTS]) -> bool
    ensures { MatchBool result (SlotsFit slots.now) (SlotsFit slots.now → ⊥) }
{
    slots.iter().all(|held| *held <= HIGHEST)
}

// how many slots hold the number; 16 bits keep all of them, and so narrow a sum is the sooner made
fn count_of(slots: &[u8; SLOTS], held: u8) -> u32
    ensures { result ≡ occurs held slots.now }
{
    let number = slots.iter().fold(0u16, |number, slot| {
        number.wrapping_add(u16::from(*slot == held))
    });
    u32::from(number)
}

// the lowest slot that holds the number
fn lowest(slots: &[u8], held: u8) -> Option<usize>
    ensures { MatchOption result (Absent held slots.now) (λ i. FirstAt held slots.now i) }
{
    slots.iter().position(|slot| *slot == held)
}

// clears the first slot with a block of the place; refused, with the slots as they were, where there is none
fn empty_lowest(slots: &mut [u8], place: u8) -> Result<(), Refusal>
    requires fit { SlotsFit slots.old }
    requires inside { place ≤ 63 }
    ensures fit { SlotsFit slots.new }
    ensures few { occurs 0 slots.new ≤ 4096 }
    ensures answer { MatchResult result (λ _. TakenSlot place slots.old slots.new)
        (λ e. (counts_of slots.old place ≡ 0) × (slots.new ≡ slots.old) × (e ≡ PlaceEmpty place)) }
{
    let i = lowest(slots, place + 1).ok_or(Refusal::PlaceEmpty(place))?;
    slots[i] = EMPTY;
    Ok(())
}

// gives n blocks of the place to the empty slots nearest to the end
fn fill_highest(slots: &mut [u8], place: u8, n: u32)
    requires fit { SlotsFit slots.old }
    requires inside { place ≤ 63 }
    requires enough { n ≤ occurs 0 slots.old }
    ensures fit { SlotsFit slots.new }
    ensures moved { PutSlots place n slots.old slots.new }
{
    let mut left = n;
    // by index: after `iter_mut().rev()` a proof knows how many slots there are, and none of what they hold
    for i in (0..slots.len()).rev() {
        if left == 0 {
            return;
        }
        if slots[i] == EMPTY {
            slots[i] = place + 1;
            left -= 1;
        }
    }
}

// `move_all` stays the trait's, which says no: which slots are filled depends on the sequence of takes and puts
impl Board for SlotBoard {
    ghost use Rattle.slot_board.specs.Shown.{slot_bytes};

    ghost counts = { λ b. counts_of b.slots };

    ghost spare = { λ b. occurs 0 b.slots };

    ghost outside = { λ b p h. occurs_absent (p + 1) b.slots (λ k l e. omega (arith, b.fit.small k, e, h)) };

    ghost bounded = { λ b. omega (arith, all_le_length 64 b.slots, b.fit.long) };

    fn count(&self, place: u8) -> u32 {
        if place > LAST_PLACE {
            return 0;
        }
        count_of(&self.slots, place + 1)
    }

    fn spare(&self) -> u32 {
        self.free
    }

    fn take(&mut self, place: u8) -> Result<(), Refusal>
        ensures answer { TakeSays place (counts_of (slot_bytes self.old)) (occurs 0 (slot_bytes self.old)) result
            (counts_of (slot_bytes self.new)) (occurs 0 (slot_bytes self.new)) }
        ensures slots { slot_bytes self.new ≡ slots_after_take place result (slot_bytes self.old) }
        ensures lowest { OnOk result (FirstAt (place + 1) (slot_bytes self.old)
            (lowest_with (place + 1) (slot_bytes self.old))) }
    {
        index_of(place)?;
        empty_lowest(&mut self.slots, place)?;
        self.free += 1;
        Ok(())
    }

    fn put(&mut self, place: u8, n: u32) -> Result<(), Refusal>
        ensures answer { PutSays place n (counts_of (slot_bytes self.old)) (occurs 0 (slot_bytes self.old)) result
            (counts_of (slot_bytes self.new)) (occurs 0 (slot_bytes self.new)) }
        ensures slots { slot_bytes self.new ≡ slots_after_put place n result (slot_bytes self.old) }
        ensures highest { OnOk result (HighestFilled (place + 1) (slot_bytes self.old) (slot_bytes self.new)) }
    {
        index_of(place)?;
        let free = self
            .free
            .checked_sub(n)
            .ok_or(Refusal::PutAboveSpare(place))?;
        fill_highest(&mut self.slots, place, n);
        self.free = free;
        Ok(())
    }
}
