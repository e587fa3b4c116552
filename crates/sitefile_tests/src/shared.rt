// What the tests of every layout use.
use sitefile::{Fault, load};
use std::process::Abort;
use std::test::Fail;
use tables::{Cell, Lane, LaneCost, LaneState, Place};

// What untouched tables hold.
pub const OLD_CELL: Cell = Cell::Open(7);

pub const OLD_PLACE: Place = Place {
    x: 7,
    y: 7,
    first: 7,
    ways: 7,
    entry_first: 7,
    entries: 7,
};

pub const OLD_LANE: Lane = Lane {
    from: 7,
    to: 7,
    floor: LaneCost {
        crossings: 7,
        milliseconds: 7,
    },
    state: LaneState::Closed,
    entering: 7,
    slot: 7,
};

// A fault as it is printed: cause, byte and layer.
pub fn told(fault: Fault) -> (u8, usize, u8) {
    (fault.cause.number(), fault.byte, fault.layer.number())
}

// A load into nine cells, three places and three lanes is refused and leaves them as they were.
pub fn faults(rt: &impl Abort, file: &[u8], cause: u8, byte: usize, layer: u8) -> Result<(), Fail> {
    let mut cells = [OLD_CELL; 9];
    let mut places = [OLD_PLACE; 3];
    let mut lanes = [OLD_LANE; 3];
    let loaded = load(file, &mut cells, &mut places, &mut lanes);
    assert_eq!(rt; loaded.map_err(told), Err((cause, byte, layer)));
    assert_eq!(rt; cells, [OLD_CELL; 9]);
    assert_eq!(rt; places, [OLD_PLACE; 3]);
    assert_eq!(rt; lanes, [OLD_LANE; 3]);
    Ok(())
}

// Every front of a lawful file lacks the byte that would come next.
pub fn cut_at_every_length(rt: &impl Abort, file: &[u8]) -> Result<(), Fail> {
    for length in 0..file.len() {
        faults(rt, &file[..length], 21, length, 1)?;
    }
    Ok(())
}
