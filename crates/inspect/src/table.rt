//! A net as a table: each step, its input and its yields.
use nets::Net;
use std::alloc::{AllocError, Global};
use std::fmt::Write;
use std::io;
use words::Make;

/// The yields of a step in words, as `1 at 2, 3 at 5`.
fn yields<N: Net>(alloc: Global, net: &N, step: u16) -> Result<String, AllocError> {
    let mut text = String::new(alloc);
    for place in 0..net.places() {
        let blocks = net.yield_at(step, place);
        if blocks > 0 {
            let comma = if text.is_empty() { "" } else { ", " };
            write!(text, "{comma}{blocks} at {place}")?;
        }
    }
    Ok(text)
}

/// Prints the net.
pub(crate) fn show<N: Net>(rt: &HostRuntime, make: Make, net: &N) -> io::Result<()> {
    let places = net.places();
    let steps = net.steps();
    println!(rt; "{make} net: places {places}, steps {steps}")?;
    println!(rt; "step  input  yields")?;
    for step in 0..steps {
        let input = net.input(step).unwrap_or(0);
        let put = yields(rt.alloc(), net, step)?;
        println!(rt; "{step:>4}  {input:>5}  {put}")?;
    }
    Ok(())
}
