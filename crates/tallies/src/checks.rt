//! Checks: whether the rows of a call fit its net, and whether its sizes are within their limits.
ghost use Rattle.std.specs.Prelude.{◌≡◌, ℕ, Some, None, if◌then◌else◌};
ghost use Rattle.answers.specs.Answers.{rows_fit, size_refusal};
ghost use Rattle.answers.specs.Findings.{survey_refusal};
ghost use Rattle.tallies.specs.Checked.{Checked};
ghost use Rattle.answers.specs.States.{state_of};
ghost use Rattle.answers.specs.Targets.{lent_target};
ghost use Rattle.refusals.specs.declared.Refusal.TheVariants.{RowsUnfit};
ghost use Rattle.theory.specs.Firing.{Marking};

use crate::asked::{done_total, steps_asked};
use crate::flow::Flow;
use answers::{DONE_LIMIT, FINDINGS_NEEDED, Kind, Target};
use nets::Net;
use refusals::Refusal;

/// The kind of the target. Refused: `RowsUnfit`, unless there is one, the tally has a number for each step and the
/// target one for each place.
pub fn check_rows<N: Net>(net: &N, tally: &[u16], target: Target<'_>) -> Result<Kind, Refusal>
    ensures { Checked (if rows_fit (N.net net.now) tally.now (lent_target target.entry) then None
        else Some RowsUnfit) target.entry.kind result }
{
    if tally.len() != usize::from(net.steps()) {
        return Err(Refusal::RowsUnfit);
    }
    if target.numbers.len() != usize::from(net.places()) {
        return Err(Refusal::RowsUnfit);
    }
    Kind::try_from(target.kind)
}

/// The kind of the target of a resume. Refused, for the first that is wrong: `RowsUnfit`, `DoneLimit`,
/// `OrderMemoryShort`, `SpareShort`.
pub fn check_sizes<N: Net>(
    flow: &Flow<'_, N>,
    spare: u32,
    done: &[u16],
    target: Target<'_>,
    memory: usize,
) -> Result<Kind, Refusal>
    ensures { (counts : Marking) → let net = (N.net flow.now.net.now) in
        let before = state_of counts spare done.now in
        let wanted = lent_target target.entry in
        Checked (size_refusal net before flow.now.tally.now wanted memory) target.entry.kind result }
{
    let kind = check_rows(flow.net, flow.tally, target)?;
    let asked = steps_asked(flow.net, flow.tally);
    if done_total(done) + asked > DONE_LIMIT {
        return Err(Refusal::DoneLimit);
    }
    // a cast, since a `usize` has no `From` into a `u64`
    if (memory as u64) < asked {
        return Err(Refusal::OrderMemoryShort);
    }
    if u64::from(spare) < flow.yields_asked() {
        return Err(Refusal::SpareShort);
    }
    Ok(kind)
}

/// The kind of the target of a survey. Refused, for the first that is wrong: `RowsUnfit`, `DoneLimit`, `ListFull`.
pub fn check_survey<N: Net>(
    net: &N,
    done: &[u16],
    tally: &[u16],
    target: Target<'_>,
    memory: usize,
) -> Result<Kind, Refusal>
    ensures { (counts : Marking) (spare : ℕ) →
        Checked (survey_refusal (N.net net.now) (state_of counts spare done.now) tally.now
        (lent_target target.entry) memory) target.entry.kind result }
{
    let kind = check_rows(net, tally, target)?;
    if done_total(done) + steps_asked(net, tally) > DONE_LIMIT {
        return Err(Refusal::DoneLimit);
    }
    if memory < FINDINGS_NEEDED {
        return Err(Refusal::ListFull);
    }
    Ok(kind)
}
