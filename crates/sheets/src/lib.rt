//! Sheets: one sheet in, one line out.
#![tactic(auto)]

ghost use Rattle.sheets.specs.Cases.{CasesHold};
ghost use Rattle.sheets.specs.Found.{Suffices};
ghost use Rattle.lines.specs.Lines.{LineWritten};
ghost use Rattle.sheets.specs.Reasons.{SheetReasons};
ghost use Rattle.sheets.specs.Judged.{Judged};
ghost use Rattle.sheets.specs.Verdicts.{longest_line, sheet_line};
ghost use Rattle.std.specs.Prelude.{◌≤◌, length, IsOk};

mod line;
mod memory;
mod parts;
mod rows;
mod sheet;
mod verdict;

pub use line::line_of;
use lines::{write_order, write_refusal};
use memory::{FEW_ENTRIES, ORDER_ENTRIES, asks_few};
use refusals::Refusal;
use sheet::Sheet;
use verdict::find_order;

/// The longest line: `ok`, 4,096 steps of three digits, each after a space, and the line's end.
pub const LONGEST_LINE: usize = 3 + 4 * ORDER_ENTRIES;

/// Judges a sheet of any bytes: puts the line of its verdict, line end included, at the start of `text`, and says how
/// many bytes that is. Refused: `TextMemoryShort`, with `text` as it was, where the line is longer; none is longer
/// than `LONGEST_LINE`.
pub fn judge(sheet: &[u8], text: &mut [u8]) -> Result<usize, Refusal>
    ensures line { LineWritten (sheet_line sheet.now) text.old result text.new }
    ensures verdict { Judged sheet.now (sheet_line sheet.now) }
    ensures reasons { SheetReasons sheet.now }
    ensures fits { longest_line ≤ length text.old → IsOk result }
{
    if asks_few(&Sheet::new(sheet)) {
        write_verdict(sheet, &mut [0; FEW_ENTRIES], text)
    } else {
        write_verdict(sheet, &mut [0; ORDER_ENTRIES], text)
    }
}

/// Judges a sheet, whose order is found in memory that suffices.
fn write_verdict(sheet: &[u8], order: &mut [u16], text: &mut [u8]) -> Result<usize, Refusal>
    requires { Suffices sheet.now (length order.old) }
    ensures line { LineWritten (sheet_line sheet.now) text.old result text.new }
    ensures verdict { Judged sheet.now (sheet_line sheet.now) }
    ensures reasons { SheetReasons sheet.now }
    ensures fits { longest_line ≤ length text.old → IsOk result }
{
    match find_order(&Sheet::new(sheet), order) {
        Ok(length) => write_order(text, &order[..length]),
        Err(refusal) => write_refusal(text, refusal),
    }
}

/// The worked sheets have the lines that were worked out by hand.
pub fn worked_sheets()
    ensures hold { CasesHold }
{}
