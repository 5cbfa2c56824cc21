//! The calls of a sitting as values that own their rows, and what is kept of what is said to them.
ghost use Rattle.handovers.specs.Made.{call_of};
ghost use Rattle.handovers.specs.Performed.{findings_size, order_size, owned_call};
ghost use Rattle.std.specs.Prelude.{◌≡◌};

use crate::sitting_calls::{Call, Request};
use answers::{Finding, Target};
use refusals::Refusal;

/// What a resume or a survey is given: a tally, a target and how many entries its memory has.
#[derive(Drop)]
pub struct OwnedRequest {
    /// How often each step of the net is to be done, 0 to 65,535.
    pub tally: Vec<u16>,
    /// How many blocks each place of the net is to hold in the end.
    pub numbers: Vec<u32>,
    /// The byte of a `Kind`, any: what an unknown one is answered is a refusal like others.
    pub kind: u8,
    /// How many entries the memory of the call has: steps of an order, or findings.
    pub memory: usize,
}

impl OwnedRequest {
    /// The same, lent.
    fn lent(&self) -> Request<'_>
        ensures tally { result.tally.now ≡ self.now.tally.items }
        ensures numbers { result.target.numbers.now ≡ self.now.numbers.items }
        ensures kind { result.target.kind ≡ self.now.kind }
    {
        Request {
            tally: self.tally.as_slice(),
            target: Target {
                numbers: self.numbers.as_slice(),
                kind: self.kind,
            },
        }
    }
}

/// A call on a sitting.
#[derive(Drop)]
pub enum OwnedCall {
    /// A fire of the step of this number.
    Fire(u16),
    /// A resume.
    Resume(OwnedRequest),
    /// A survey.
    Survey(OwnedRequest),
}

impl OwnedCall {
    /// The same, lent.
    pub(crate) fn lent(&self) -> Call<'_>
        ensures { call_of (order_size self.now) (findings_size self.now) result ≡ owned_call self.now }
    {
        match self {
            OwnedCall::Fire(step) => Call::Fire(*step),
            OwnedCall::Resume(request) => Call::Resume(request.lent()),
            OwnedCall::Survey(request) => Call::Survey(request.lent()),
        }
    }

    /// How many entries order memory has for the call.
    pub(crate) fn order_size(&self) -> usize
        ensures { result ≡ order_size self.now }
    {
        match self {
            OwnedCall::Resume(request) => request.memory,
            _ => 0,
        }
    }

    /// How many entries findings memory has for the call.
    pub(crate) fn findings_size(&self) -> usize
        ensures { result ≡ findings_size self.now }
    {
        match self {
            OwnedCall::Survey(request) => request.memory,
            _ => 0,
        }
    }
}

/// What an accepted call did.
#[derive(Drop)]
pub enum OwnedDone {
    /// A fire did its step.
    Fired,
    /// A resume wrote this order.
    Order(Vec<u16>),
    /// A survey listed these findings.
    Findings(Vec<Finding>),
}

/// What is said to a call: what it did, or why it is refused.
pub type OwnedAnswer = Result<OwnedDone, Refusal>;
