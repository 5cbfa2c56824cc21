//! The calls of a sitting, made with memory that is filled beforehand, and compared with the table.
ghost use Rattle.std.specs.Prelude.{◌≤◌, length, IfOk};

use crate::asked::{Asked, Request, read};
use crate::table::Table;
use answers::{Cause, Finding, Target};
use board_calls::Answer;
use boards::{Board, all_counts};
use comparisons::{Digest, Line, next_line};
use nets::Net;
use refusals::Refusal;
use sittings::Sitting;
use std::alloc::{AllocError, Global};

/// All lines of a sitting, from the one that begins it to the last call; gives the board back, and the
/// lines that are left.
pub(crate) fn sit<'a, N: Net + Drop, B: Board + Drop>(
    table: &mut Table<'_>,
    lines: &'a [Line<'a>],
    net: N,
    board: B,
) -> anyhow::Result<(B, &'a [Line<'a>])>
    ensures { IfOk result (λ done. length done.1.now ≤ length lines.now) }
{
    let mut sitting = Sitting::new(net, board);
    let (begin, mut left) = next_line(lines);
    table.totals.begin();
    table.compare_state(&begin, Answer::Accepted, digest_of(&sitting))?;
    while let [line, rest @ ..] = left {
        match read(table.alloc(), line.asked())? {
            Some(Asked::Fire(step)) => fire(table, line, &mut sitting, step)?,
            Some(Asked::Resume(request)) => resume(table, line, &mut sitting, &request)?,
            Some(Asked::Survey(request)) => survey(table, line, &sitting, &request)?,
            _ => break,
        }
        left = rest;
    }
    let (_, board, _) = sitting.into_parts();
    Ok((board, left))
}

/// The counts, the spare and the done row.
fn digest_of<N: Net, B: Board>(sitting: &Sitting<N, B>) -> Digest {
    let mut digest = Digest::of(&all_counts(sitting.board()));
    digest.add(sitting.board().spare());
    digest.add_all(sitting.done());
    digest
}

fn fire<N: Net, B: Board>(
    table: &mut Table<'_>,
    line: &Line<'_>,
    sitting: &mut Sitting<N, B>,
    step: u16,
) -> anyhow::Result<()> {
    let done = sitting.fire(step);
    table.totals.fire(done)?;
    table.compare_state(line, Answer::from(done), digest_of(sitting))
}

fn resume<N: Net, B: Board>(
    table: &mut Table<'_>,
    line: &Line<'_>,
    sitting: &mut Sitting<N, B>,
    request: &Request,
) -> anyhow::Result<()> {
    let mut order = order_memory(table.alloc(), request.memory)?;
    let done = sitting.resume(
        request.tally.as_slice(),
        target_of(request),
        order.as_mut_slice(),
    );
    let mut digest = digest_of(sitting);
    digest.add_all(order.as_slice());
    table.totals.resume(done)?;
    table.compare_state(line, length_of(done), digest)
}

fn survey<N: Net, B: Board>(
    table: &mut Table<'_>,
    line: &Line<'_>,
    sitting: &Sitting<N, B>,
    request: &Request,
) -> anyhow::Result<()> {
    let mut findings = findings_memory(table.alloc(), request.memory)?;
    let done = sitting.survey(
        request.tally.as_slice(),
        target_of(request),
        findings.as_mut_slice(),
    );
    let mut digest = digest_of(sitting);
    add_findings(&mut digest, findings.as_slice());
    table.totals.survey(done)?;
    table.compare_state(line, length_of(done), digest)
}

fn target_of(request: &Request) -> Target<'_> {
    Target {
        numbers: request.target.as_slice(),
        kind: request.kind,
    }
}

fn length_of(done: Result<usize, Refusal>) -> Answer {
    done.map_or_else(Answer::Refused, |length| {
        Answer::Number(u32::try_from(length).unwrap_or(u32::MAX))
    })
}

/// Each finding as four numbers: place, cause, and the low and the high half of its number.
fn add_findings(digest: &mut Digest, findings: &[Finding]) {
    for finding in findings {
        digest.add(u32::from(finding.place));
        digest.add(u32::from(refusal_of(*finding).number()));
        digest.add_bytes(&finding.cause.number().to_le_bytes());
    }
}

/// The refusal for the same cause at the same place.
fn refusal_of(finding: Finding) -> Refusal {
    match finding.cause {
        Cause::Short(_) => Refusal::Short(finding.place),
        Cause::CutOff => Refusal::CutOff(finding.place),
        Cause::Missed(_) => Refusal::Missed(finding.place),
    }
}

/// Order memory before a call: no entry is the number of a step. The casts here and below make smaller what is proved
/// to fit, as it is below 56.
fn order_memory(alloc: Global, length: usize) -> Result<Vec<u16>, AllocError> {
    (0..length).map(|k| 200 + (k % 56) as u16).collect(alloc)
}

/// Findings memory before a call: no finding has a place of a net.
fn findings_memory(alloc: Global, length: usize) -> Result<Vec<Finding>, AllocError> {
    (0..length).map(finding_before).collect(alloc)
}

fn finding_before(k: usize) -> Finding {
    let number = 1000i64.saturating_add(i64::try_from(k).unwrap_or(0));
    let cause = match k % 3 {
        0 => Cause::Short(number.saturating_neg()),
        1 => Cause::CutOff,
        _ => Cause::Missed(number),
    };
    Finding {
        place: 200 + (k % 56) as u8,
        cause,
    }
}
