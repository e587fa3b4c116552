use crate::shared::{OLD_CELL, cut_at_every_length, faults};
use sitefile::{SiteHead, load};
use std::test::Fail;
use tables::{Cell, FloorHead};

// The floor of three rows and three columns, cells 4 and 6 closed.
const SMALL: [u8; 13] = [0x46, 3, 3, 10, 10, 10, 10, 10, 0, 10, 0, 10, 10];

#[test]
fn each_fault_at_its_byte_and_layer(rt: HostRuntime) -> Result<(), Fail> {
    faults(&rt, &[0x46, 3, 0x80, 0x00], 22, 2, 1)?;
    faults(&rt, &[0x00], 23, 0, 3)?;
    faults(&rt, &[0x46, 65, 1, 10], 24, 1, 2)?;
    faults(&rt, &[0x46, 3, 0, 10], 24, 2, 2)?;
    faults(&rt, &[0x46, 1, 1, 0], 24, 3, 2)?;
    faults(&rt, &[0x46, 1, 1, 0xc1, 0x84, 0x3d], 24, 3, 2)?;
    faults(&rt, &[0x46, 1, 2, 10, 0, 9], 24, 5, 2)?;
    faults(&rt, &[0x46, 2, 5], 26, 0, 3)?;
    faults(&rt, &[0x46, 1, 1, 10, 10, 0], 27, 5, 3)
}

#[test]
fn a_file_cut_at_every_length(rt: HostRuntime) -> Result<(), Fail> {
    cut_at_every_length(&rt, &SMALL)
}

#[test]
fn a_small_floor_and_the_entries_after_it(rt: HostRuntime) -> Result<(), Fail> {
    let mut cells = [OLD_CELL; 10];
    let head = FloorHead {
        rows: 3,
        columns: 3,
        free: 10,
    };
    assert_eq!(rt;
        load(&SMALL, &mut cells, &mut [], &mut []),
        Ok(SiteHead::Floor(head))
    );
    let mut expected = [Cell::Open(10); 10];
    expected[4] = Cell::Closed;
    expected[6] = Cell::Closed;
    expected[9] = OLD_CELL;
    assert_eq!(rt; cells, expected);
    Ok(())
}

// The largest floor, at the greatest free time.
#[test]
fn sixty_four_rows_and_columns(rt: HostRuntime) -> Result<(), Fail> {
    let heap = rt.alloc();
    let mut file = [0x46, 64, 64, 0xc0, 0x84, 0x3d].to_vec(heap)?;
    for _i in 0..4096 {
        file.extend_from_slice(&[0xc0, 0x84, 0x3d])?;
    }
    let mut cells = vec![in heap; OLD_CELL; 4096]?;
    assert!(rt; load(file.as_slice(), cells.as_mut_slice(), &mut [], &mut []).is_ok());
    assert!(rt; cells.iter().all(|cell| *cell == Cell::Open(1_000_000)));
    Ok(())
}
