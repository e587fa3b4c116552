use crate::{ends, times};
use cost::Milliseconds;
use floor::{Floor, verdict};
use site::Site;
use tables::{Cell, FloorHead};

fn head(rows: u32, columns: u32, free: u32) -> FloorHead {
    FloorHead {
        rows,
        columns,
        free,
    }
}

#[test]
fn one_cell_has_no_way(rt: HostRuntime) {
    let mut cells = [Cell::Open(7)];
    let floor = Floor::new(head(1, 1, 5), &mut cells);
    assert_eq!(rt; [floor.places(), floor.segments()], [1, 1]);
    assert_eq!(rt; ends(&floor, 0), [None, None, None, None]);
    assert_eq!(rt; times(&floor), [Some(7), None, None, None]);
}

#[test]
fn corners_of_the_largest_floor(rt: HostRuntime) {
    let mut cells = [Cell::Open(10); 4096];
    let floor = Floor::new(head(64, 64, 10), &mut cells);
    assert_eq!(rt; ends(&floor, 0), [Some(1), Some(64), None, None]);
    assert_eq!(rt; ends(&floor, 4095), [Some(4031), Some(4094), None, None]);
    assert_eq!(rt;
        [floor.source(63, 0), floor.user(63, 1)],
        [Some(127), Some(62)]
    );
    assert_eq!(rt; floor.hint(0, 4095), Some(Milliseconds { count: 1260 }));
}

#[test]
fn faulty_table_gives_one_place(rt: HostRuntime) {
    let mut cells = [Cell::Open(10), Cell::Open(9)];
    assert_eq!(rt; verdict(head(2, 1, 10), &cells).number(), 28);
    let floor = Floor::new(head(2, 1, 10), &mut cells);
    assert_eq!(rt; [floor.places(), floor.segments()], [1, 0]);
    assert_eq!(rt; ends(&floor, 0), [None, None, None, None]);
}

#[test]
fn setting_changes_one_cell(rt: HostRuntime) {
    let mut cells = [Cell::Open(10); 4];
    let mut floor = Floor::new(head(2, 2, 10), &mut cells);
    let answers = [
        floor.close(1),
        floor.set_cost(3, Milliseconds { count: 1_000_000 }),
        floor.set_cost(2, Milliseconds { count: 1_000_001 }),
        floor.set_cost(0, Milliseconds { count: 9 }),
    ];
    assert_eq!(rt; answers, [true, true, false, false]);
    assert_eq!(rt;
        times(&floor),
        [Some(10), Some(0), Some(10), Some(1_000_000)]
    );
}
