//! Judges a table of sheets and compares with the lines that stand in it, which a second implementation
//! wrote. A line is: bytes in hexadecimal, then the sheet's line.
#![tactic(auto)]

use anyhow::anyhow;
use comparisons::Comparison;
use sheets::line_of;
use std::io::{BufRead, BufReader};
use words::file_of;

/// Compares one line of the table with the line of its sheet, and prints it where it differs.
fn compare(rt: &HostRuntime, comparison: &mut Comparison, line: &str) -> anyhow::Result<()> {
    let Some((digits, expected)) = line.split_once(' ') else {
        return Err(anyhow!("a line without two words"));
    };
    let sheet = file_of(rt.alloc(), digits)?;
    let here = String::from_utf8(line_of(rt.alloc(), sheet.as_slice())?)?;
    let Some(here) = here.as_str().strip_suffix('\n') else {
        return Err(anyhow!("a sheet's line without its end"));
    };
    let number = comparison.compared();
    if !comparison.compare(expected, here) {
        println!(rt; "sheet {number} should have: {expected}")?;
    }
    Ok(())
}

fn main(rt: HostRuntime) -> anyhow::Result<()> {
    let mut comparison = Comparison::default();
    for line in BufReader::new(rt.alloc(), rt.stdin())?.lines(rt.alloc()) {
        compare(&rt, &mut comparison, line?.as_str())?;
    }
    let sheets = comparison.compared();
    let differences = comparison.differing;
    println!(rt; "{sheets} sheets, {differences} differences")?;
    Ok(())
}
