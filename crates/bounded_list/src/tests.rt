//! What lists do, by example.
use crate::{BoundedList, add_found, write_row};
use refusals::Refusal;
use std::test::Fail;

#[test]
fn keeps_steps_in_their_order_and_leaves_the_rest(rt: HostRuntime) -> Result<(), Fail> {
    let mut memory = [9u16; 4];
    let mut list = BoundedList::new(&mut memory);
    list.add(5)?;
    list.add(7)?;
    assert_eq!(rt; list.len(), 2);
    assert_eq!(rt; list.get(1).copied(), Some(7));
    assert_eq!(rt; list.get(2).copied(), None);
    assert_eq!(rt; memory, [5, 7, 9, 9]);
    Ok(())
}

#[test]
fn holds_records_until_the_memory_is_full(rt: HostRuntime) -> Result<(), Fail> {
    let mut memory = [(0u8, 0i64); 2];
    let mut list = BoundedList::new(&mut memory);
    list.add((1, -1))?;
    list.add((2, 3))?;
    assert_eq!(rt; list.add((3, 0)), Err(Refusal::ListFull));
    assert_eq!(rt; memory, [(1, -1), (2, 3)]);
    Ok(())
}

#[test]
fn a_row_that_does_not_fit_writes_nothing(rt: HostRuntime) {
    let mut memory = [9u16; 2];
    assert_eq!(rt; write_row(&mut memory, &[1, 2, 3]), Err(Refusal::ListFull));
    assert_eq!(rt; memory, [9, 9]);
    assert_eq!(rt; write_row(&mut memory, &[1]), Ok(1));
    assert_eq!(rt; memory, [1, 9]);
}

// ten times each odd number
fn odd_tens(number: u16) -> Option<u16> {
    if number % 2 == 1 {
        Some(10 * number.min(6000))
    } else {
        None
    }
}

#[test]
fn what_is_found_is_added_behind_the_last(rt: HostRuntime) -> Result<(), Fail> {
    let mut memory = [9u16; 6];
    let mut list = BoundedList::new(&mut memory);
    list.add(1)?;
    assert_eq!(rt; add_found(&mut list, 6, odd_tens), Err(Refusal::ListFull));
    assert_eq!(rt; add_found(&mut list, 5, odd_tens), Ok(()));
    assert_eq!(rt; list.len(), 3);
    assert_eq!(rt; memory, [1, 10, 30, 9, 9, 9]);
    Ok(())
}
