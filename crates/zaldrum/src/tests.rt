//! One sheet and one sitting, by the names that this crate gives: what they answer was worked out by hand.
use crate::{CountBoard, GridNet, Kind, PLACES, Sitting, Target, line_of};
use std::process::Abort;
use std::test::Fail;

/// Step 0 goes from place 0 to 2, step 1 from 0 to 1, step 2 from 1 back to 0.
const DETOUR: [u8; 14] = [3, 3, 0, 0, 0, 1, 0, 0, 1, 0, 1, 1, 0, 0];

#[test]
fn a_sheet_with_nothing_to_do_is_ok(rt: HostRuntime) -> anyhow::Result<()> {
    let line = line_of(rt.alloc(), &[1, 0, 0, 0, 0, 0, 0, 3, 0, 0, 0, 0, 3])?;
    assert_eq!(rt; line.as_slice(), b"ok\n".as_slice());
    Ok(())
}

fn resumed<'a>(rt: &impl Abort, file: &'a [u8]) -> Result<(), Fail> {
    let mut net: GridNet<'a> = GridNet::new();
    net.load(file)?;
    let mut counts = [0; PLACES];
    counts[0] = 1;
    let mut board = CountBoard::new();
    board.load(&counts, 3)?;
    let mut sitting = Sitting::new(net, board);
    let target = Target {
        numbers: &[0, 0, 1],
        kind: Kind::Exact.into(),
    };
    let mut order = [0; 3];
    assert_eq!(rt; sitting.resume(&[1, 1, 1], target, &mut order), Ok(3));
    assert_eq!(rt; order, [1, 2, 0]);
    Ok(())
}

#[test]
fn the_detour_is_resumed_by_its_first_order(rt: HostRuntime) -> Result<(), Fail> {
    resumed(&rt, &DETOUR)
}
