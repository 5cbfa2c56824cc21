//! Many moves in one go on a renaming over an allowance over a count board, worked out by hand.
use crate::allowance::Allowance;
use crate::renaming::Renaming;
use boards::{Board, CountBoard, PLACES};
use refusals::Refusal;
use std::array;
use std::process::Abort;
use std::test::Fail;

type Pile = Renaming<Allowance<CountBoard>>;

/// Each number at its place, 0 at every other.
fn row(numbers: &[(usize, u32)]) -> [u32; PLACES] {
    let mut row = [0; PLACES];
    for (place, number) in numbers {
        if *place < PLACES {
            row[*place] = *number;
        }
    }
    row
}

/// Below lie 3 blocks at place 0 and 5 at place 2, with spare 10 and an allowance of 4; places 0, 1 and 2 of the
/// pile are 2, 0 and 1 below.
fn pile() -> Result<Pile, Refusal> {
    let mut below = CountBoard::new();
    below.load(&row(&[(0, 3), (2, 5)]), 10)?;
    let mut pile = Renaming::new(Allowance::new(below, 4));
    let mut names: [u8; PLACES] = array::from_fn(|place| place as u8);
    names[0] = 2;
    names[1] = 0;
    names[2] = 1;
    pile.load(&names)?;
    Ok(pile)
}

fn shows<B: Board>(rt: &impl Abort, board: &B, counts: (u32, u32, u32), spare: u32) {
    assert_eq!(rt; (board.count(0), board.count(1), board.count(2)), counts);
    assert_eq!(rt; (board.count(63), board.spare()), (0, spare));
}

#[test]
fn a_pile_moves_all_blocks(rt: HostRuntime) -> Result<(), Fail> {
    let mut pile = pile()?;
    shows(&rt, &pile, (5, 3, 0), 4);
    // 6 are taken from place 0, where 5 lie: the sixth is one of those that are put there
    let (taken, put) = (row(&[(0, 6), (1, 2)]), row(&[(0, 3), (2, 7)]));
    assert!(rt; pile.move_all(&taken, &put, 8, 10));
    shows(&rt, &pile, (2, 1, 7), 2);
    let allowance = pile.into_inner();
    shows(&rt, &allowance, (1, 7, 2), 2);
    shows(&rt, &allowance.into_inner(), (1, 7, 2), 8);
    Ok(())
}

#[test]
fn a_pile_that_says_no_is_as_it_was(rt: HostRuntime) -> Result<(), Fail> {
    let mut pile = pile()?;
    // one more than the allowance has
    assert!(rt; !pile.move_all(&row(&[(0, 1)]), &row(&[(2, 6)]), 1, 6));
    // one more than lie at place 0
    assert!(rt; !pile.move_all(&row(&[(0, 6)]), &row(&[(2, 6)]), 6, 6));
    // more than a board may hold
    assert!(rt; !pile.move_all(&row(&[]), &row(&[(2, 2_147_483_647)]), 0, 0));
    shows(&rt, &pile, (5, 3, 0), 4);
    let allowance = pile.into_inner();
    shows(&rt, &allowance, (3, 0, 5), 4);
    shows(&rt, &allowance.into_inner(), (3, 0, 5), 10);
    Ok(())
}

#[test]
fn a_full_allowance_loses_nothing(rt: HostRuntime) -> Result<(), Fail> {
    let mut below = CountBoard::new();
    below.load(&row(&[(0, 1)]), 2_147_483_646)?;
    let mut board = Allowance::new(below, u32::MAX);
    // one block goes back and forth: more than the limit are taken, and as many put
    let (taken, put) = (row(&[(0, 1000), (1, 999)]), row(&[(0, 999), (1, 1000)]));
    assert!(rt; board.move_all(&taken, &put, 1999, 1999));
    shows(&rt, &board, (0, 1, 0), 2_147_483_646);
    board.take(1)?;
    shows(&rt, &board, (0, 0, 0), 2_147_483_647);
    Ok(())
}
