//! A sitting, and its calls: `fire` does a step, `resume` a tally, `survey` says what stands in the way of one.
ghost use Rattle.answers.specs.Answers.{fire_refusal, fire_answer, after_fire, resume_refusal, resume_answer};
ghost use Rattle.answers.specs.Answers.{after_resume, order_memory, unless};
ghost use Rattle.answers.specs.Findings.{survey_answer, findings_memory};
ghost use Rattle.answers.specs.Targets.{lent_target};
ghost use Rattle.std.specs.Prelude.{◌≡◌, length, ℕ, ◌≤◌};
ghost use Rattle.theory.specs.Rows.{at};
ghost use Rattle.theory.specs.Sums.{sum_to};

use crate::done_rows::with_tally;
use crate::tally::fire_tally;
use answers::{DONE_LIMIT, Finding, Target};
use boards::Board;
use findings::list_findings;
use firings::move_ready;
use nets::{Net, NetTable};
use refusals::Refusal;
use sets::MOST_STEPS;
use tallies::{done_total, yields_of};

/// How many counts the done row has, one for each step that a net may have.
pub const DONE_COUNTS: usize = MOST_STEPS;

/// Work with one net on one board. It keeps them from its first call to its last, and counts the steps (transitions)
/// that were fired: in all never more than 65,535.
#[derive(Drop)]
pub struct Sitting<N: Net, B: Board> {
    pub(crate) net: N,
    pub(crate) board: B,
    pub(crate) done: [u16; DONE_COUNTS],
    // said here, as a proof over a sitting's value would take its array for a list of any length
    ghost long: { length done ≡ 128 },
    ghost total: { sum_to (at done) 128 ≤ 65535 },
}

impl<N: Net, B: Board> Sitting<N, B> {
    ghost use Rattle.sittings.specs.Sittings.{done_row, sitting_board, sitting_net, sitting_state};

    /// A sitting in which nothing was done yet; the board may hold anything.
    pub fn new(net: N, board: B) -> Sitting<N, B>
        ensures net { sitting_net result ≡ net }
        ensures board { sitting_board result ≡ board }
        ensures done { (t : ℕ) → at (done_row result) t ≡ 0 }
    {
        Sitting {
            net,
            board,
            done: [0; DONE_COUNTS],
        }
    }

    /// The net.
    pub fn net(&self) -> &N
        ensures { result.now ≡ sitting_net self.now }
    {
        &self.net
    }

    /// The board.
    pub fn board(&self) -> &B
        ensures { result.now ≡ sitting_board self.now }
    {
        &self.board
    }

    /// The done row: how often each step was fired (the Parikh vector so far), 128 counts; 0 for steps past the net's.
    pub fn done(&self) -> &[u16]
        ensures { result.now ≡ done_row self.now }
    {
        &self.done
    }

    /// The net, the board and the done row, given back.
    pub fn into_parts(self) -> (N, B, [u16; DONE_COUNTS])
        ensures net { result.0 ≡ sitting_net self }
        ensures board { result.1 ≡ sitting_board self }
        ensures done { result.2 ≡ done_row self }
    {
        let Sitting { net, board, done } = self;
        (net, board, done)
    }

    /// Fires one step (transition) and counts it. Refused, with all as it was, for the first that is wrong:
    /// `NoSuchStep`, `DoneLimit`, `InputEmpty`, `SpareShort`; the block that it takes makes room for its yields.
    pub fn fire(&mut self, step: u16) -> Result<(), Refusal>
        ensures net { sitting_net self.new ≡ sitting_net self.old }
        ensures answer { result ≡ fire_answer (N.net (sitting_net self.old)) (sitting_state B.Board self.old) step }
        ensures after { let net = N.net (sitting_net self.old) in
            let before = sitting_state B.Board self.old in
            sitting_state B.Board self.new ≡ unless (fire_refusal net before step) before
            (after_fire net before step) }
    {
        let Some(input) = self.net.input(step) else {
            return Err(Refusal::NoSuchStep);
        };
        if done_total(&self.done) + 1 > DONE_LIMIT {
            return Err(Refusal::DoneLimit);
        }
        if self.board.count(input) == 0 {
            return Err(Refusal::InputEmpty(input));
        }
        if self.board.spare() + 1 < yields_of(&self.net, step) {
            return Err(Refusal::SpareShort);
        }
        move_ready(&self.net, &mut self.board, step);
        self.done[usize::from(step)] += 1;
        Ok(())
    }

    /// Does a tally (Parikh vector): of the orders (firing sequences) that do it, fires the lexicographically least,
    /// notes its steps in `order`, first to last, and says how many they are. Entries behind them stay as they were.
    /// Refused, with all as it was, for the first that is wrong: `RowsUnfit`, `DoneLimit`, `OrderMemoryShort`,
    /// `SpareShort`, `Short`, `CutOff`, `Missed`.
    pub fn resume(
        &mut self,
        tally: &[u16],
        target: Target<'_>,
        order: &mut [u16],
    ) -> Result<usize, Refusal>
        ensures net { sitting_net self.new ≡ sitting_net self.old }
        ensures answer { result ≡ resume_answer (N.net (sitting_net self.old))
            (sitting_state B.Board self.old) tally.now (lent_target target.entry) (length order.old) }
        ensures after { let net = N.net (sitting_net self.old) in
            let before = sitting_state B.Board self.old in
            let target = lent_target target.entry in
            sitting_state B.Board self.new
            ≡ unless (resume_refusal net before tally.now target (length order.old)) before
            (after_resume net before tally.now) }
        ensures memory { order.new ≡ order_memory (N.net (sitting_net self.old))
            (sitting_state B.Board self.old) tally.now (lent_target target.entry) order.old }
    {
        let mut table = NetTable::new();
        table.read(&self.net);
        let length = fire_tally(&table, &mut self.board, &self.done, tally, target, order)?;
        self.done = with_tally(&self.done, tally);
        Ok(length)
    }

    /// Writes into `findings` each place that stands in the way of the tally, with each of its causes, and says how
    /// many findings that makes: none where some order does the tally and ends as the target wants. What is short
    /// comes first, what is missed last; entries behind them stay as they were. Refused, with all as it was, for the
    /// first that is wrong: `RowsUnfit`, `DoneLimit`, `ListFull` where there is room for fewer than 192.
    pub fn survey(
        &self,
        tally: &[u16],
        target: Target<'_>,
        findings: &mut [Finding],
    ) -> Result<usize, Refusal>
        ensures answer { result ≡ survey_answer (N.net (sitting_net self.now))
            (sitting_state B.Board self.now) tally.now (lent_target target.entry) (length findings.old) }
        ensures memory { findings.new ≡ findings_memory (N.net (sitting_net self.now))
            (sitting_state B.Board self.now) tally.now (lent_target target.entry) findings.old }
    {
        let mut table = NetTable::new();
        table.read(&self.net);
        list_findings(&table, &self.board, &self.done, tally, target, findings)
    }
}
