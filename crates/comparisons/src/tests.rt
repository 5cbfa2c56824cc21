//! Counts of refusals, by example.
use crate::outcomes::Refused;
use refusals::Refusal;
use std::alloc::AllocError;

#[test]
fn refusals_are_counted_by_number(rt: HostRuntime) -> Result<(), AllocError> {
    let mut refused = Refused::new(rt.alloc());
    refused.add(Refusal::ListFull)?;
    refused.add(Refusal::Short(3))?;
    refused.add(Refusal::ListFull)?;
    assert_eq!(rt; refused.counts.get(&21).copied(), Some(2));
    assert_eq!(rt; refused.counts.get(&11).copied(), Some(1));
    Ok(())
}

#[test]
fn each_number_has_its_line(rt: HostRuntime) -> Result<(), AllocError> {
    let mut refused = Refused::new(rt.alloc());
    refused.add(Refusal::ListFull)?;
    let lines = refused.lines(rt.alloc(), &[11, 21])?;
    assert_eq!(rt; lines.as_str(), "refusal 11: 0\nrefusal 21: 1\n");
    Ok(())
}
