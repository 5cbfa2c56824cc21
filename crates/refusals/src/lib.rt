//! Refusals: why a call says no, with a number and a detail for each.
#![tactic(auto)]

ghost use Rattle.refusals.specs.Refusals.{number_of, detail_of, words_of, shown_as};
ghost use Rattle.std.specs.Prelude.{◌≡◌, Some};

use std::fmt;

/// Why a call was refused; each variant begins with its number. Steps and places count from 0, arcs from 1.
#[derive(Clone, Copy, PartialEq, Eq, Debug)]
pub enum Refusal {
    /// 1: the file ends within its head, or is longer or shorter than the sizes in its head make it.
    WrongLength,
    /// 2: a net of no place, or of 65 and more.
    PlacesOutOfRange,
    /// 3: a net of 129 steps and more, or a chained file of 1,024 arcs and more.
    TooManyStepsOrArcs,
    /// 4: the step would take where the net has no place, or its yields begin at an arc that the file has not.
    StepUnfit(u16),
    /// 5: the arc leads to no place of the net, weighs nothing, or goes on, but to no later arc at a higher place.
    ArcUnfit(u16),
    /// 6: the step takes its block and puts none down.
    StepWithoutYield(u16),
    /// 7: the tally has not one number for each step, the target not one for each place, or its kind is not 0 or 1.
    RowsUnfit,
    /// 8: the sitting would have done more than 65,535 steps since it was new.
    DoneLimit,
    /// 9: the lent memory has not an entry for each step of the order.
    OrderMemoryShort,
    /// 10: the board has no room for all blocks that would be put down; only a fire counts in the block that it takes.
    SpareShort,
    /// 11: the tally takes more blocks from the place than are there and come there; no place before it is short.
    Short(u8),
    /// 12: the tally uses the place, and no block can get there; none is short, and none before it is cut off.
    CutOff(u8),
    /// 13: the tally can be done, but leaves the place off the target, and none before it.
    Missed(u8),
    /// 14: the net has no step of this number.
    NoSuchStep,
    /// 15: the step cannot be fired, as no block lies at the place from which it takes.
    InputEmpty(u8),
    /// 16: no board has a place of this number; they have 0 to 63.
    NoSuchPlace,
    /// 17: there is no block to take from the place.
    PlaceEmpty(u8),
    /// 18: the blocks to be put at the place are more than the board has room for.
    PutAboveSpare(u8),
    /// 19: no board can be as the row says: it is too short or too long, has too many blocks, or a slot of no place.
    BoardRowUnfit,
    /// 20: the row is no permutation of the places 0 to 63.
    NotARenaming,
    /// 21: no entry of the list's memory is free; or a survey was lent memory that some survey might overfill.
    ListFull,
    /// 22: the line with its end does not fit into the lent text memory.
    TextMemoryShort,
}

impl Refusal {
    /// The refusal's number, 1 to 22.
    pub fn number(self) -> u8
        ensures { result ≡ number_of self }
    {
        match self {
            Refusal::WrongLength => 1,
            Refusal::PlacesOutOfRange => 2,
            Refusal::TooManyStepsOrArcs => 3,
            Refusal::StepUnfit(_) => 4,
            Refusal::ArcUnfit(_) => 5,
            Refusal::StepWithoutYield(_) => 6,
            Refusal::RowsUnfit => 7,
            Refusal::DoneLimit => 8,
            Refusal::OrderMemoryShort => 9,
            Refusal::SpareShort => 10,
            Refusal::Short(_) => 11,
            Refusal::CutOff(_) => 12,
            Refusal::Missed(_) => 13,
            Refusal::NoSuchStep => 14,
            Refusal::InputEmpty(_) => 15,
            Refusal::NoSuchPlace => 16,
            Refusal::PlaceEmpty(_) => 17,
            Refusal::PutAboveSpare(_) => 18,
            Refusal::BoardRowUnfit => 19,
            Refusal::NotARenaming => 20,
            Refusal::ListFull => 21,
            Refusal::TextMemoryShort => 22,
        }
    }

    /// The step, arc or place at fault; 0 where the refusal names none.
    pub fn detail(self) -> u16
        ensures { result ≡ detail_of self }
    {
        match self {
            Refusal::StepUnfit(number)
            | Refusal::ArcUnfit(number)
            | Refusal::StepWithoutYield(number) => number,
            Refusal::Short(place)
            | Refusal::CutOff(place)
            | Refusal::Missed(place)
            | Refusal::InputEmpty(place)
            | Refusal::PlaceEmpty(place)
            | Refusal::PutAboveSpare(place) => u16::from(place),
            _ => 0,
        }
    }

    /// What is wrong, in words.
    pub fn words(self) -> &'static str
        ensures { result.now ≡ words_of self }
    {
        match self {
            Refusal::WrongLength => "the bytes are too few for a head, or not as many as it says",
            Refusal::PlacesOutOfRange => "the number of places is not 1 to 64",
            Refusal::TooManyStepsOrArcs => "there are more than 128 steps or more than 1023 arcs",
            Refusal::StepUnfit(_) => "a step's input or first arc is outside the net",
            Refusal::ArcUnfit(_) => "an arc's place, weight or next arc is unfit",
            Refusal::StepWithoutYield(_) => "a step yields nothing",
            Refusal::RowsUnfit =>
                "a tally or target row has the wrong length, or the kind is unknown",
            Refusal::DoneLimit => "more than 65535 steps would be done",
            Refusal::OrderMemoryShort => "the order memory is shorter than the order",
            Refusal::SpareShort => "spare is less than the yields",
            Refusal::Short(_) => "a place is short",
            Refusal::CutOff(_) => "a place is cut off",
            Refusal::Missed(_) => "a place misses the target",
            Refusal::NoSuchStep => "the net has no such step",
            Refusal::InputEmpty(_) => "the step's input place is empty",
            Refusal::NoSuchPlace => "the place is above 63",
            Refusal::PlaceEmpty(_) => "the place is empty",
            Refusal::PutAboveSpare(_) => "the put is above spare",
            Refusal::BoardRowUnfit => "the board's row is unfit",
            Refusal::NotARenaming => "the row is no renaming of the 64 places",
            Refusal::ListFull => "the list is full, or the findings memory too short",
            Refusal::TextMemoryShort => "the text memory is too short for the line",
        }
    }
}

impl fmt::Display for Refusal {
    ghost output = { λ e. Some (shown_as e) };

    fn fmt<W: fmt::Write>(&self, f: &mut fmt::Formatter<W>) -> fmt::Result {
        let number = self.number();
        let detail = self.detail();
        let words = self.words();
        write!(f, "refusal {number} at {detail}: {words}")
    }
}
