//! Totals and final numbers of small nets, worked out by hand.
use crate::asked::{done_total, steps_asked, yields_of};
use crate::finals::Asked;
use crate::flow::Flow;
use answers::Kind;
use nets::GridNet;
use std::process::Abort;
use std::test::Fail;

/// Step 0 goes from place 0 to 2, step 1 from 0 to 1, step 2 from 1 back to 0.
const DETOUR: [u8; 14] = [3, 3, 0, 0, 0, 1, 0, 0, 1, 0, 1, 1, 0, 0];

/// Step 0 takes from place 0 and yields 3 at 1; step 1 goes from 1 to 0.
const TRIPLER: [u8; 8] = [2, 2, 0, 0, 3, 1, 1, 0];

fn tripler<'a>(rt: &impl Abort, file: &'a [u8]) -> Result<(), Fail> {
    let mut net: GridNet<'a> = GridNet::new();
    net.load(file)?;
    let tally = [2, 4];
    assert_eq!(rt; (steps_asked(&net, &tally), done_total(&tally)), (6, 6));
    assert_eq!(rt;
        (yields_of(&net, 0), yields_of(&net, 1), yields_of(&net, 2)),
        (3, 1, 0)
    );
    let flow = Flow::of(&net, &tally);
    assert_eq!(rt; flow.yields_asked(), 10);
    assert_eq!(rt; (flow.spent(0), flow.gained(0)), (2, 4));
    assert_eq!(rt; (flow.spent(1), flow.gained(1)), (4, 6));
    assert_eq!(rt; (flow.spent(2), flow.gained(2)), (0, 0));
    Ok(())
}

fn detour<'a>(rt: &impl Abort, file: &'a [u8]) -> Result<(), Fail> {
    let mut net: GridNet<'a> = GridNet::new();
    net.load(file)?;
    let (counts, tally) = ([1, 0, 0], [0, 1, 2]);
    let flow = Flow::of(&net, &tally);
    let at_least = Asked {
        flow: &flow,
        counts: &counts,
        target: &[0, 0, 0],
        kind: Kind::AtLeast,
    };
    final_numbers(rt, &at_least)?;
    assert_eq!(rt;
        (at_least.least_missed(), at_least.missed_by(1)),
        (Some(1), -1)
    );
    let exact = Asked {
        flow: &flow,
        counts: &counts,
        target: &[0, 0, 0],
        kind: Kind::Exact,
    };
    assert_eq!(rt; (exact.least_missed(), exact.missed_by(0)), (Some(0), 2));
    let met = Asked {
        flow: &flow,
        counts: &counts,
        target: &[2, 0, 0],
        kind: Kind::Exact,
    };
    assert_eq!(rt; met.is_missed(2), false);
    Ok(())
}

fn final_numbers(rt: &impl Abort, asked: &Asked<'_, GridNet<'_>>) -> Result<(), Fail> {
    assert_eq!(rt;
        (
            asked.final_number(0),
            asked.final_number(1),
            asked.final_number(2),
        ),
        (2, -1, 0)
    );
    assert_eq!(rt;
        (asked.is_short(0), asked.is_short(1), asked.least_short()),
        (false, true, Some(1))
    );
    Ok(())
}

#[test]
fn yields_count_as_often_as_the_tally_has_them(rt: HostRuntime) -> Result<(), Fail> {
    tripler(&rt, &TRIPLER)
}

#[test]
fn the_least_place_is_named(rt: HostRuntime) -> Result<(), Fail> {
    detour(&rt, &DETOUR)
}
