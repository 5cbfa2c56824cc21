//! Runs a table of net files through both makes of net and compares with the answers that stand in it,
//! which a second implementation gave. A line is: make, bytes in hexadecimal, answer.
#![tactic(auto)]

mod answers;
mod totals;

use anyhow::anyhow;
use board_calls::Answer;
use nets::{ChainedNet, GridNet};
use std::io::{BufRead, BufReader};
use totals::Totals;
use words::{Make, file_of};

/// Compares one line of the table with what the net of its file answers.
fn compare(rt: &HostRuntime, totals: &mut Totals, line: &str) -> anyhow::Result<()> {
    let mut words = line.splitn(3, ' ');
    let (Some(make), Some(digits), Some(expected)) = (words.next(), words.next(), words.next())
    else {
        return Err(anyhow!("a line without three words"));
    };
    let file = file_of(rt.alloc(), digits)?;
    let answered = match make.parse::<Make>()? {
        Make::Grid => answers::of_file::<GridNet>(file.as_slice(), &mut totals.grid),
        Make::Chained => answers::of_file::<ChainedNet>(file.as_slice(), &mut totals.chained),
    };
    let here = match answered {
        Ok(answers) => answers.to_string(rt.alloc())?,
        Err(refusal) => {
            totals.refused.add(refusal)?;
            Answer::Refused(refusal).to_string(rt.alloc())?
        }
    };
    if !totals.comparison.compare(expected, here.as_str()) {
        println!(rt; "{line} answers {here}")?;
    }
    Ok(())
}

fn main(rt: HostRuntime) -> anyhow::Result<()> {
    let mut totals = Totals::new(rt.alloc());
    for line in BufReader::new(rt.alloc(), rt.stdin())?.lines(rt.alloc()) {
        compare(&rt, &mut totals, line?.as_str())?;
    }
    Ok(totals.print(&rt)?)
}
