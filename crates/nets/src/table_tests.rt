//! A table answers as the net that it was last read from, also outside the net.
use crate::grid::GridNet;
use crate::net::Net;
use crate::net_table::NetTable;
use refusals::Refusal;
use sets::MOST_PLACES;
use std::test::Fail;

fn net<'a>(file: &'a [u8]) -> Result<GridNet<'a>, Refusal> {
    let mut net: GridNet<'a> = GridNet::new();
    net.load(file)?;
    Ok(net)
}

fn table<'a>(file: &'a [u8]) -> Result<NetTable, Refusal> {
    let mut table = NetTable::new();
    table.read(&net(file)?);
    Ok(table)
}

#[test]
fn a_table_answers_as_its_net(rt: HostRuntime) -> Result<(), Fail> {
    let net = table(&[3, 2, 0, 0, 0, 7, 2, 1, 5, 0])?;
    assert_eq!(rt; (net.places(), net.steps()), (3, 2));
    assert_eq!(rt;
        (net.input(0), net.input(1), net.input(2)),
        (Some(0), Some(2), None)
    );
    assert_eq!(rt;
        (net.yield_at(0, 2), net.yield_at(1, 0), net.yield_at(1, 1)),
        (7, 1, 5)
    );
    assert_eq!(rt;
        (net.yield_at(1, 2), net.yield_at(1, 3), net.yield_at(2, 0)),
        (0, 0, 0)
    );
    let mut row = [9; MOST_PLACES];
    let places = net.read_yields(1, &mut row);
    assert_eq!(rt; (row[0], row[1], row[2], row[63]), (1, 5, 0, 0));
    assert_eq!(rt;
        (places.contains(0), places.contains(1), places.contains(2)),
        (true, true, false)
    );
    assert!(rt; net.read_yields(2, &mut row).is_empty());
    assert_eq!(rt; (row[0], row[1]), (0, 0));
    assert!(rt; net.yield_places(2).is_empty());
    Ok(())
}

#[test]
fn a_table_read_again_answers_as_the_later_net(rt: HostRuntime) -> Result<(), Fail> {
    let mut table = table(&[3, 2, 0, 0, 0, 7, 2, 1, 5, 0])?;
    table.read(&net(&[2, 1, 1, 4, 0])?);
    assert_eq!(rt; (table.places(), table.steps()), (2, 1));
    assert_eq!(rt; (table.input(0), table.input(1)), (Some(1), None));
    assert_eq!(rt;
        (
            table.yield_at(0, 0),
            table.yield_at(0, 2),
            table.yield_at(1, 0)
        ),
        (4, 0, 0)
    );
    let mut row = [9; MOST_PLACES];
    assert!(rt; table.read_yields(0, &mut row).contains(0));
    assert_eq!(rt; (row[0], row[2]), (4, 0));
    assert!(rt; table.yield_places(1).is_empty());
    Ok(())
}

#[test]
fn a_new_table_has_no_steps(rt: HostRuntime) -> Result<(), Fail> {
    let net = NetTable::new();
    assert_eq!(rt; (net.places(), net.steps()), (1, 0));
    assert_eq!(rt; net.input(0), None);
    Ok(())
}
