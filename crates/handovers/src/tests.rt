//! A hand-over whose calls are a fire, a refused fire and a resume.
use crate::second_sitting::hand_over;
use crate::sitting_calls::{Call, Done, Memory, Request};
use answers::{Cause, Finding, Target};
use boards::{Board, CountBoard, PLACES};
use nets::GridNet;
use refusals::Refusal;
use std::process::Abort;

/// Step 0 goes from place 0 to place 2, step 1 from 0 to 1, step 2 back from 1 to 0.
const DETOUR: [u8; 14] = [3, 3, 0, 0, 0, 1, 0, 0, 1, 0, 1, 1, 0, 0];

const NOTHING: Finding = Finding {
    place: 0,
    cause: Cause::CutOff,
};

fn board() -> CountBoard {
    let mut row = [0; PLACES];
    row[0] = 1;
    let mut board = CountBoard::new();
    let _ = board.load(&row, 100);
    board
}

#[test]
fn the_detour_is_handed_over(rt: HostRuntime) {
    let mut net = GridNet::new();
    assert_eq!(rt; net.load(&DETOUR), Ok(()));
    let request = Request {
        tally: &[1, 0, 1],
        target: Target {
            numbers: &[0, 0, 1],
            kind: 0,
        },
    };
    let calls = [Call::Fire(1), Call::Fire(1), Call::Resume(request)];
    let mut order = [9; 4];
    let mut replay = [9; 4];
    let mut said = [Ok(Done::Fired); 3];
    let memory = Memory {
        order: &mut order,
        findings: &mut [NOTHING; 0],
        said: &mut said,
        replay: &mut replay,
    };
    match hand_over(net, board(), board(), &calls, memory) {
        Ok(ended) => {
            assert_eq!(rt; ended.replay, Ok(Done::Order(3)));
            assert_eq!(rt; ended.board.count(2), 1);
            assert_eq!(rt; ended.second.board().count(2), 1);
        }
        Err(_) => assert_eq!(rt; 0, 1),
    }
    assert_eq!(rt; said[0], Ok(Done::Fired));
    assert_eq!(rt; said[1], Err(Refusal::InputEmpty(0)));
    assert_eq!(rt; said[2], Ok(Done::Order(2)));
    assert_eq!(rt; order, [2, 0, 9, 9]);
    assert_eq!(rt; replay, [1, 2, 0, 9]);
}
