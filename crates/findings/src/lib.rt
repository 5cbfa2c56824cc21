//! Findings: what stands in the way of a tally, the first of it, and all of it listed by cause and place.
#![tactic(auto)]

ghost use Rattle.std.specs.Prelude.{◌≡◌, length};
ghost use Rattle.answers.specs.Findings.{survey_answer, findings_memory};
ghost use Rattle.answers.specs.States.{state_of};
ghost use Rattle.answers.specs.Targets.{lent_target};

mod causes;
mod first_cause;

use answers::{Finding, Target};
use boards::{Board, all_counts};
use bounded_list::{BoundedList, add_found};
use causes::{cut_off_at, missed_at, short_at};
pub use first_cause::check_causes;
use nets::Net;
use reached::cut_off_places;
use refusals::Refusal;
use tallies::{Asked, Flow, check_survey};

/// Writes down all that stands in the way of the tally on this board, one cause after the other and of each the
/// lowest place first, and says how many findings that makes. `done` has how often each step was done before.
/// Refused: `RowsUnfit`, else `DoneLimit`, else `ListFull` for memory of fewer than `FINDINGS_NEEDED`.
pub fn list_findings<'a, N: Net, B: Board>(
    net: &'a N,
    board: &B,
    done: &[u16],
    tally: &'a [u16],
    target: Target<'a>,
    memory: &mut [Finding],
) -> Result<usize, Refusal>
    ensures answer { result ≡ survey_answer (N.net net.now)
        (state_of (B.counts board.now) (B.spare board.now) done.now) tally.now (lent_target target.entry)
        (length memory.old) }
    ensures memory { memory.new ≡ findings_memory (N.net net.now)
        (state_of (B.counts board.now) (B.spare board.now) done.now) tally.now (lent_target target.entry)
        memory.old }
{
    let kind = check_survey(net, done, tally, target, memory.len())?;
    let counts = all_counts(board);
    let flow = Flow::of(net, tally);
    let asked = Asked {
        flow: &flow,
        counts: &counts,
        target: target.numbers,
        kind,
    };
    let places = u16::from(net.places());
    let cut_off = cut_off_places(net, &counts, tally);
    let mut findings = BoundedList::new(memory);
    // a number below the places, a byte, so the casts keep it
    let _ = add_found(&mut findings, places, |place| short_at(&asked, place as u8));
    let _ = add_found(
        &mut findings,
        places,
        |place| cut_off_at(cut_off, place as u8),
    );
    let _ = add_found(
        &mut findings,
        places,
        |place| missed_at(&asked, place as u8),
    );
    Ok(findings.len())
}
