//! What a call says to C.
ghost use Rattle.c_library.specs.Said.{AnswerSays};

use refusals::Refusal;

/// What a call says: a length, or why it was refused.
#[repr(C)]
#[derive(Clone, Copy)]
pub struct Answer {
    /// The refusal's number; 0 for none.
    pub refusal: u32,
    /// The step, arc or place that the refusal names; 0 for none.
    pub detail: u32,
    /// How much was written; 0 where the call was refused.
    pub length: usize,
}

/// What is said of an answer.
pub(crate) fn answer_of(answer: Result<usize, Refusal>) -> Answer
    ensures { AnswerSays answer result }
{
    match answer {
        Ok(length) => Answer {
            refusal: 0,
            detail: 0,
            length,
        },
        Err(refusal) => Answer {
            refusal: u32::from(refusal.number()),
            detail: u32::from(refusal.detail()),
            length: 0,
        },
    }
}
