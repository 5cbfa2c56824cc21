//! What is printed of a day and its hand-over.
ghost use Rattle.std.specs.Prelude.{◌≡◌, MatchBool};
ghost use Rattle.theory.specs.Laws.{AgreeBelow};

use answers::{Cause, Finding};
use boards::Board;
use command_line::one_line;
use handovers::{OwnedAnswer, OwnedDone, Transcript};
use nets::Net;
use std::{fmt, io};

/// Numbers with a space before each.
#[derive(Drop)]
struct Row<'a>(&'a [u16]);

impl fmt::Display for Row<'_> {
    fn fmt<W: fmt::Write>(&self, f: &mut fmt::Formatter<W>) -> fmt::Result {
        for number in self.0 {
            write!(f, " {number}")?;
        }
        Ok(())
    }
}

/// A finding in words.
#[derive(Drop)]
struct InWords(Finding);

impl fmt::Display for InWords {
    fn fmt<W: fmt::Write>(&self, f: &mut fmt::Formatter<W>) -> fmt::Result {
        let place = self.0.place;
        match self.0.cause {
            Cause::Short(number) => {
                write!(f, "place {place} is short: its final number is {number}")
            }
            Cause::CutOff => write!(f, "place {place} is cut off"),
            Cause::Missed(number) => write!(f, "place {place} misses the target by {number}"),
        }
    }
}

fn show_answer(rt: &HostRuntime, answer: &OwnedAnswer) -> io::Result<()> {
    match answer {
        Err(refusal) => println!(rt; "  {refusal}"),
        Ok(OwnedDone::Fired) => println!(rt; "  accepted"),
        Ok(OwnedDone::Order(order)) if order.is_empty() => {
            println!(rt; "  accepted with no step to do")
        }
        Ok(OwnedDone::Order(order)) => {
            let row = Row(order.as_slice());
            println!(rt; "  accepted in the order{row}")
        }
        Ok(OwnedDone::Findings(findings)) => show_findings(rt, findings.as_slice()),
    }
}

fn show_findings(rt: &HostRuntime, findings: &[Finding]) -> io::Result<()> {
    if findings.is_empty() {
        return println!(rt; "  nothing stands in the way");
    }
    for finding in findings {
        let words = InWords(*finding);
        println!(rt; "  {words}")?;
    }
    Ok(())
}

/// How a hand-over ended.
#[derive(Clone, Copy)]
pub(crate) enum Outcome {
    Refused,
    Agree,
    Differ,
}

impl fmt::Display for Outcome {
    fn fmt<W: fmt::Write>(&self, f: &mut fmt::Formatter<W>) -> fmt::Result {
        match self {
            Outcome::Refused => write!(f, "the hand-over is refused"),
            Outcome::Agree => write!(f, "the markings agree"),
            Outcome::Differ => write!(f, "the markings differ"),
        }
    }
}

/// Prints a day and its hand-over, and answers how that ended.
pub(crate) fn show<N: Net, B: Board, C: Board>(
    rt: &HostRuntime,
    asked: &[&str],
    day: &Transcript<N, B, C>,
) -> io::Result<Outcome> {
    show_calls(rt, asked, day.said.as_slice())?;
    show_hand_over(rt, day)?;
    let outcome = outcome_of(day);
    println!(rt; "{outcome}")?;
    Ok(outcome)
}

/// Prints each call's line and what was said to it.
fn show_calls(rt: &HostRuntime, asked: &[&str], said: &[OwnedAnswer]) -> io::Result<()> {
    for (line, answer) in asked.iter().zip(said.iter()) {
        let line = one_line(rt.alloc(), line.as_bytes())?;
        println!(rt; "> {line}")?;
        show_answer(rt, answer)?;
    }
    Ok(())
}

/// Prints the counters, what was said to the hand-over, and both markings.
fn show_hand_over<N: Net, B: Board, C: Board>(
    rt: &HostRuntime,
    day: &Transcript<N, B, C>,
) -> io::Result<()> {
    let net = day.second.net();
    let counters = Row(&day.done[..usize::from(net.steps())]);
    println!(rt; "counters{counters}")?;
    println!(rt; "hand-over")?;
    show_answer(rt, &day.replay)?;
    show_markings(rt, net.places(), &day.board, day.second.board())
}

fn show_markings<B: Board, C: Board>(
    rt: &HostRuntime,
    places: u8,
    first: &B,
    second: &C,
) -> io::Result<()> {
    println!(rt; "place  first      second")?;
    for place in 0..places {
        let on_first = first.count(place);
        let on_second = second.count(place);
        println!(rt; "{place:>5}  {on_first:>5}  {on_second:>10}")?;
    }
    let on_first = first.spare();
    let on_second = second.spare();
    println!(rt; "spare  {on_first:>5}  {on_second:>10}")
}

/// How a hand-over ended.
fn outcome_of<N: Net, B: Board, C: Board>(day: &Transcript<N, B, C>) -> Outcome
    ensures agree { result ≡ Outcome.Agree →
        AgreeBelow (N.net day.now.second.net).places (B.counts day.now.board) (C.counts day.now.second.board) }
    ensures differ { result ≡ Outcome.Differ →
        AgreeBelow (N.net day.now.second.net).places (B.counts day.now.board)
        (C.counts day.now.second.board) → ⊥ }
{
    if day.replay.is_err() {
        Outcome::Refused
    } else if agree(day.second.net().places(), &day.board, day.second.board()) {
        Outcome::Agree
    } else {
        Outcome::Differ
    }
}

/// Whether two boards have the same counts at the first places.
fn agree<B: Board, C: Board>(places: u8, first: &B, second: &C) -> bool
    ensures { MatchBool result (AgreeBelow places (B.counts first.now) (C.counts second.now))
        (AgreeBelow places (B.counts first.now) (C.counts second.now) → ⊥) }
{
    (0..places).all(|place| first.count(place) == second.count(place))
}
