//! What stands in the way at a place: that it is short, cut off or missed.
ghost use Rattle.answers.specs.Answers.{is_missed};
ghost use Rattle.answers.specs.Findings.{short_finding, cut_off_finding, missed_finding, finding_at};
ghost use Rattle.answers.specs.Kinds.{target_with};
ghost use Rattle.sets.specs.Flags.{has};
ghost use Rattle.theory.specs.Rows.{at};
ghost use Rattle.theory.specs.Tests.{is_short};
ghost use Rattle.std.specs.Prelude.{◌≡◌};

use answers::{Cause, Finding};
use nets::Net;
use sets::PlaceSet;
use tallies::Asked;

/// The finding at a place that is short.
pub(crate) fn short_at<N: Net>(asked: &Asked<'_, N>, place: u8) -> Option<Finding>
    ensures { let flow = asked.now.flow.now in let net = (N.net flow.net.now) in
        let m = at asked.now.counts.now in let x = at flow.tally.now in
        result ≡ finding_at (is_short net m x) (short_finding net m x) place }
{
    if !asked.is_short(place) {
        return None;
    }
    let cause = Cause::Short(asked.final_number(place));
    Some(Finding { place, cause })
}

/// The finding at a place that is cut off.
pub(crate) fn cut_off_at(cut_off: PlaceSet, place: u8) -> Option<Finding>
    ensures { result ≡ finding_at (has cut_off) cut_off_finding place }
{
    if !cut_off.contains(place) {
        return None;
    }
    let cause = Cause::CutOff;
    Some(Finding { place, cause })
}

/// The finding at a place that misses the target.
pub(crate) fn missed_at<N: Net>(asked: &Asked<'_, N>, place: u8) -> Option<Finding>
    ensures { let flow = asked.now.flow.now in let net = (N.net flow.net.now) in
        let m = at asked.now.counts.now in let x = at flow.tally.now in
        let target = target_with asked.now.target.now asked.now.kind in
        result ≡ finding_at (is_missed net m x target) (missed_finding net m x target) place }
{
    if !asked.is_missed(place) {
        return None;
    }
    let cause = Cause::Missed(asked.missed_by(place));
    Some(Finding { place, cause })
}
