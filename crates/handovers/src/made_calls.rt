//! Making calls on a sitting, over lent memory alone.
ghost use Rattle.handovers.specs.Made.{call_of, Made, AllMade};
ghost use Rattle.sittings.specs.Sittings.{sitting_net, sitting_state};
ghost use Rattle.std.specs.Prelude.{◌≡◌, ◌≤◌, length, map};

use crate::sitting_calls::{Answer, Call, Done};
use answers::Finding;
use boards::Board;
use nets::Net;
use sittings::Sitting;

/// Makes one call, with order memory for a resume and findings memory for a survey; each is written from its front, and
/// a call that does not write it leaves it as it was. A refusal of the sitting is given on, and changes nothing.
pub fn make<N: Net, B: Board>(
    sitting: &mut Sitting<N, B>,
    call: &Call<'_>,
    order: &mut [u16],
    findings: &mut [Finding],
) -> Answer
    ensures net { sitting_net sitting.new ≡ sitting_net sitting.old }
    ensures made { Made (N.net (sitting_net sitting.old)) (sitting_state B.Board sitting.old)
        (call_of (length order.old) (length findings.old) call.now) order.old findings.old result
        (sitting_state B.Board sitting.new) order.new findings.new }
{
    match call {
        Call::Fire(step) => sitting.fire(*step).map(|()| Done::Fired),
        Call::Resume(request) => sitting
            .resume(request.tally, request.target, order)
            .map(Done::Order),
        Call::Survey(request) => sitting
            .survey(request.tally, request.target, findings)
            .map(Done::Findings),
    }
}

/// Makes the calls one after another, and says in the row, from its front, what was said to each. A call that is
/// refused changes nothing, and the next one is made.
pub(crate) fn make_all<N: Net, B: Board>(
    sitting: &mut Sitting<N, B>,
    calls: &[Call<'_>],
    order: &mut [u16],
    findings: &mut [Finding],
    said: &mut [Answer],
)
    requires { length calls.now ≤ length said.old }
    ensures net { sitting_net sitting.new ≡ sitting_net sitting.old }
    ensures made { AllMade (N.net (sitting_net sitting.old)) (sitting_state B.Board sitting.old)
        (map (call_of (length order.old) (length findings.old)) calls.now) order.old findings.old said.old
        (sitting_state B.Board sitting.new) order.new findings.new said.new }
{
    for (i, call) in calls.iter().enumerate() {
        said[i] = make(sitting, call, order, findings);
    }
}
