//! Answers: what fire, resume and survey answer and leave, as definitions, the promise over them, and the limits.
#![tactic(auto)]

ghost use Rattle.answers.specs.Answers.{is_missed};
ghost use Rattle.answers.specs.Cases.{CasesHold};
ghost use Rattle.answers.specs.Findings.{cause_number};
ghost use Rattle.answers.specs.Kinds.{byte_of, KindOf, target_with};
ghost use Rattle.answers.specs.Pinned.{Pinned};
ghost use Rattle.answers.specs.Promise.{Promise};
ghost use Rattle.std.specs.Prelude.{◌≡◌, ℕ, List};
ghost use Rattle.theory.specs.Firing.{Marking};
ghost use Rattle.theory.specs.Nets.{NetMeaning};
ghost use Rattle.theory.specs.Tallies.{Tally};

use refusals::Refusal;
use sets::MOST_PLACES;

/// How the marking after an order is held against a target; the calls take it as a byte.
#[derive(Clone, Copy, PartialEq, Eq, Debug)]
pub enum Kind {
    /// 0: as many blocks at each place as the target has (reachability).
    Exact,
    /// 1: as many blocks at each place as the target has, or more (coverability).
    AtLeast,
}

impl TryFrom<u8> for Kind {
    type Error = Refusal;

    ghost try_from_gives = { KindOf };

    fn try_from(byte: u8) -> Result<Kind, Refusal> {
        match byte {
            0 => Ok(Kind::Exact),
            1 => Ok(Kind::AtLeast),
            _ => Err(Refusal::RowsUnfit),
        }
    }
}

impl Kind {
    /// The kind by which places are compared for any byte: each but 0 asks for at least.
    pub fn compared_by(byte: u8) -> Kind
        ensures { (N : NetMeaning) (m : Marking) (x : Tally) (numbers : List ℕ) (p : ℕ) →
            is_missed N m x (target_with numbers result) p
            ≡ is_missed N m x (record { numbers = numbers; kind = byte }) p }
    {
        match byte {
            0 => Kind::Exact,
            _ => Kind::AtLeast,
        }
    }
}

impl From<Kind> for u8 {
    ghost from_gives = { λ kind byte. byte ≡ byte_of kind };

    fn from(kind: Kind) -> u8 {
        match kind {
            Kind::Exact => 0,
            Kind::AtLeast => 1,
        }
    }
}

/// Why a tally cannot be done, or not as wanted, because of a place; the numbers are blocks.
#[derive(Clone, Copy, PartialEq, Eq, Debug)]
pub enum Cause {
    /// The tally takes more from the place than lies there and comes there: what would be left, at most -1.
    Short(i64),
    /// The tally uses the place, and no block can come to it.
    CutOff,
    /// The tally leaves too many blocks at the place (above 0, exact targets only) or too few (below 0).
    Missed(i64),
}

/// A place of the net, 0 to 63, that stands in the way of a tally, and why.
#[derive(Clone, Copy, PartialEq, Eq, Debug)]
pub struct Finding {
    pub place: u8,
    pub cause: Cause,
}

impl Cause {
    /// The blocks of the cause; a place that is cut off has 0.
    pub fn number(self) -> i64
        ensures { result ≡ cause_number self }
    {
        match self {
            Cause::Short(number) | Cause::Missed(number) => number,
            Cause::CutOff => 0,
        }
    }
}

/// What fire, resume and survey promise together, over these definitions.
pub fn promise_stands()
    ensures promise { Promise }
{}

/// The promise leaves no other answer: whatever has its clauses is what the definitions give.
pub fn answers_are_pinned()
    ensures pinned { Pinned }
{}

/// The worked cases come out as worked out by hand.
pub fn worked_cases()
    ensures hold { CasesHold }
{}

/// The marking that an order is to end at, in blocks for each place of the net, and whether it is to be just that.
#[derive(Clone, Copy)]
pub struct Target<'a> {
    pub numbers: &'a [u32],
    /// The byte of a `Kind`: the calls take any, since they answer for an unknown one by a refusal.
    pub kind: u8,
}

/// The most steps that a sitting does while it lasts.
pub const DONE_LIMIT: u64 = 65535;

/// How many findings the memory of a survey has room for, at least: with three causes no net makes more.
pub const FINDINGS_NEEDED: usize = 3 * MOST_PLACES;
