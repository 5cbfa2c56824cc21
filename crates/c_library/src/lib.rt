//! Calls for C: a static library over the library's own calls, which say what they answer by numbers.
#![tactic(auto)]

ghost use Rattle.c_library.specs.NewSittings.{NewResumed};
ghost use Rattle.c_library.specs.Said.{AnswerSays, LineSaid};
ghost use Rattle.answers.specs.States.{target_of};
ghost use Rattle.refusals.specs.declared.Refusal.{Refusal};
ghost use Rattle.sheets.specs.Judged.{Judged};
ghost use Rattle.sheets.specs.Verdicts.{sheet_line};
ghost use Rattle.std.specs.Prelude.{ℕ, Result};

mod answer;
mod new_sitting;

use answer::{Answer, answer_of};
use answers::Target;
use new_sitting::resume_new;
use sheets::judge;

/// Judges a sheet: puts the line of its verdict, line end included, at the start of `text`, and says how many bytes
/// that is. Refused: 22 where the line is longer than `text`, which is then as it was.
#[unsafe(no_mangle)]
pub extern "C" fn zaldrum_judge(sheet: &[u8], text: &mut [u8]) -> Answer
    ensures line { LineSaid (sheet_line sheet.now) text.old result text.new }
    ensures verdict { Judged sheet.now (sheet_line sheet.now) }
{
    answer_of(judge(sheet, text))
}

/// Does a tally on a sitting made for it: the net is that of a chained file, the board a count board with these 64
/// counts and this spare, in blocks. Notes the steps of the first order in `order`, and says how many they are.
/// Refused as the file is, else 19 for a row of counts that makes no board, else as `Sitting::resume`.
#[unsafe(no_mangle)]
pub extern "C" fn zaldrum_resume(
    file: &[u8],
    counts: &[u32],
    spare: u32,
    tally: &[u16],
    numbers: &[u32],
    kind: u8,
    order: &mut [u16],
) -> Answer
    ensures resumed { (r : Result ℕ Refusal) × (AnswerSays r result
        × NewResumed file.now counts.now spare tally.now (target_of numbers.now kind) order.old r order.new) }
{
    let target = Target { numbers, kind };
    answer_of(resume_new(file, counts, spare, tally, target, order))
}
