//! The line of a sheet in memory of its own.
ghost use Rattle.std.specs.Prelude.{◌≡◌, IfOk, OnOk};
ghost use Rattle.sheets.specs.Judged.{Judged};
ghost use Rattle.sheets.specs.Verdicts.{sheet_line};

use crate::{LONGEST_LINE, judge};
use std::alloc::{AllocError, Global};

/// The line of a sheet, with its end.
pub fn line_of(alloc: Global, sheet: &[u8]) -> Result<Vec<u8>, AllocError>
    ensures line { IfOk result (λ line. line.items ≡ sheet_line sheet.now) }
    ensures verdict { OnOk result (Judged sheet.now (sheet_line sheet.now)) }
{
    let mut line = vec![in alloc; 0u8; LONGEST_LINE]?;
    // the memory is enough for any line, so one is always written
    let length = judge(sheet, line.as_mut_slice()).unwrap_or(0);
    line.truncate(length);
    Ok(line)
}
