//! The first of what stands in the way of a tally: a place that is short, cut off or missed.
ghost use Rattle.answers.specs.Answers.{cause_refusal};
ghost use Rattle.answers.specs.Kinds.{target_with};
ghost use Rattle.refusals.specs.Answered.{answered};
ghost use Rattle.theory.specs.Rows.{at};
ghost use Rattle.std.specs.Prelude.{◌≡◌};

use nets::Net;
use reached::cut_off_places;
use refusals::Refusal;
use tallies::Asked;

/// Refused: `Short`, else `CutOff`, else `Missed`, each with the least place that it is true of.
pub fn check_causes<N: Net>(asked: &Asked<'_, N>) -> Result<(), Refusal>
    ensures { let flow = asked.now.flow.now in let net = (N.net flow.net.now) in
        let target = target_with asked.now.target.now asked.now.kind in
        result ≡ answered (cause_refusal net (at asked.now.counts.now) (at flow.tally.now) target) tt }
{
    if let Some(place) = asked.least_short() {
        return Err(Refusal::Short(place));
    }
    let flow = asked.flow;
    if let Some(place) = cut_off_places(flow.net, asked.counts, flow.tally).first() {
        return Err(Refusal::CutOff(place));
    }
    if let Some(place) = asked.least_missed() {
        return Err(Refusal::Missed(place));
    }
    Ok(())
}
