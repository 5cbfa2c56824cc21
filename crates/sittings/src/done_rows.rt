//! The done row of a sitting.
ghost use Rattle.std.specs.Prelude.{◌≡◌, ℕ, ◌+◌, ◌≤◌, length};
ghost use Rattle.theory.specs.Rows.{at};

use crate::sitting::DONE_COUNTS;
use std::array;

/// The done row with each number of the tally added.
pub(crate) fn with_tally(done: &[u16; DONE_COUNTS], tally: &[u16]) -> [u16; DONE_COUNTS]
    requires inside { length tally.now ≤ 128 }
    requires fits { (t : ℕ) → at done.now t + at tally.now t ≤ 65535 }
    ensures { (t : ℕ) → at result t ≡ at done.now t + at tally.now t }
{
    array::from_fn(|t| done[t] + tally.get(t).copied().unwrap_or(0))
}
