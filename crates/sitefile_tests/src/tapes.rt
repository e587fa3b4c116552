use crate::shared::{OLD_LANE, OLD_PLACE, cut_at_every_length, faults, told};
use sitefile::{SiteHead, load};
use std::alloc::Global;
use std::test::Fail;
use tables::{Lane, LaneCost, LaneState, Place, TapeHead};

// Three places in a row, 1,000 mm apart: lanes 0 to 1, 0 to 2 and 1 to 2. The second has a crossing.
const SMALL: [u8; 38] = [
    0x54, 3, 3, 0, 0, 0xd0, 0x0f, 0, 0xa0, 0x1f, 0, 0, 1, 0, 0xa0, 0x1f, 1, 0, 0xa0, 0x1f, 0, 2, 1,
    0xd0, 0x0f, 1, 1, 0xd0, 0x0f, 1, 2, 0, 0xa0, 0x1f, 1, 0, 0xa0, 0x1f,
];

#[test]
fn each_fault_at_its_byte_and_layer(rt: HostRuntime) -> Result<(), Fail> {
    faults(&rt, &[0x54, 0x80, 0x00], 22, 1, 1)?;
    faults(&rt, &[0x54, 0], 24, 1, 2)?;
    faults(&rt, &[0x54, 0x81, 0x20], 24, 1, 2)?;
    faults(&rt, &[0x54, 1, 0x81, 0x40], 24, 2, 2)?;
    faults(&rt, &[0x54, 4, 1], 26, 0, 3)?;
    faults(&rt, &[0x54, 1, 4], 26, 0, 3)?;
    faults(&rt, &[0x54, 1, 0, 0xe1, 0xd4, 0x03], 24, 3, 2)?;
    faults(&rt, &[0x54, 1, 0, 0, 0, 0], 27, 5, 3)
}

#[test]
fn each_number_of_a_lane(rt: HostRuntime) -> Result<(), Fail> {
    faults(&rt, &[0x54, 1, 1, 0, 0, 1], 24, 5, 2)?;
    faults(&rt, &[0x54, 1, 1, 0, 0, 0, 1], 24, 6, 2)?;
    faults(&rt, &[0x54, 1, 1, 0, 0, 0, 0, 101], 24, 7, 2)?;
    faults(&rt, &[0x54, 1, 1, 0, 0, 0, 0, 0, 0], 24, 8, 2)?;
    faults(&rt, &[0x54, 1, 1, 0, 0, 0, 0, 0, 1, 2], 24, 9, 2)?;
    faults(&rt, &[0x54, 1, 1, 0, 0, 0, 0, 0, 1, 1, 0, 0], 24, 11, 2)
}

// An unsorted lane, a floor one under the difference, a present cost under the floor: each at its record's first byte.
#[test]
fn each_rule_of_lanes(rt: HostRuntime) -> Result<(), Fail> {
    faults(
        &rt,
        &[0x54, 2, 2, 0, 0, 0, 0, 1, 1, 0, 1, 0, 0, 0, 0, 1, 0],
        25,
        12,
        2,
    )?;
    faults(&rt, &[0x54, 2, 1, 0, 0, 4, 0, 0, 1, 0, 1, 0], 25, 7, 2)?;
    faults(&rt, &[0x54, 1, 1, 0, 0, 0, 0, 1, 5, 1, 1, 4], 25, 5, 2)?;
    faults(&rt, &[0x54, 1, 1, 0, 0, 0, 0, 1, 5, 1, 0, 9], 25, 5, 2)
}

#[test]
fn a_file_cut_at_every_length(rt: HostRuntime) -> Result<(), Fail> {
    cut_at_every_length(&rt, &SMALL)
}

#[test]
fn a_small_tape_and_the_entries_after_it(rt: HostRuntime) -> Result<(), Fail> {
    let mut places = [OLD_PLACE; 4];
    let mut lanes = [OLD_LANE; 4];
    let head = TapeHead {
        places: 3,
        lanes: 3,
    };
    let loaded = load(&SMALL, &mut [], &mut places, &mut lanes);
    assert_eq!(rt; loaded, Ok(SiteHead::Tape(head)));
    assert_eq!(rt; places[2], Place::at(2_000, 0));
    assert_eq!(rt; places[3], OLD_PLACE);
    let dear = LaneCost {
        crossings: 1,
        milliseconds: 2_000,
    };
    assert_eq!(rt; lanes[1], Lane::new(0, 2, dear, LaneState::Open(dear)));
    assert_eq!(rt; lanes[3], OLD_LANE);
    Ok(())
}

// Coordinates at both ends of their range.
#[test]
fn the_farthest_place(rt: HostRuntime) -> Result<(), Fail> {
    let mut places = [OLD_PLACE; 1];
    let file = [0x54, 1, 0, 0xe0, 0xd4, 0x03, 0xdf, 0xd4, 0x03];
    assert!(rt; load(&file, &mut [], &mut places, &mut []).is_ok());
    assert_eq!(rt; places[0], Place::at(30_000, -30_000));
    Ok(())
}

// One place at (0, 0) and so many closed lanes from it to itself.
fn loops(heap: Global, count: u8) -> Result<Vec<u8>, Fail> {
    let mut file = [0x54, 1, count, 0, 0].to_vec(heap)?;
    for _i in 0..count {
        file.extend_from_slice(&[0, 0, 0, 1, 0])?;
    }
    Ok(file)
}

#[test]
fn sixty_four_lanes_from_one_place(rt: HostRuntime) -> Result<(), Fail> {
    let heap = rt.alloc();
    let mut places = [OLD_PLACE; 1];
    let mut lanes = [OLD_LANE; 65];
    let most = loops(heap, 64)?;
    assert!(rt; load(most.as_slice(), &mut [], &mut places, &mut lanes).is_ok());
    let more = loops(heap, 65)?;
    let loaded = load(more.as_slice(), &mut [], &mut places, &mut lanes);
    assert_eq!(rt; loaded.map_err(told), Err((25, 325, 2)));
    Ok(())
}
