use crate::{blank, counts};
use bar_tests::number;
use bars::Bars;
use cost::Length;
use floor::Floor;
use planner::Planner;
use tables::{Cell, FloorHead, Lane, LaneCost, LaneState, Place, TapeHead};
use tape::Tape;

const HEAD: FloorHead = FloorHead {
    rows: 3,
    columns: 3,
    free: 10,
};

// Cells 4 and 6 are closed.
const CELLS: [Cell; 9] = [
    Cell::Open(10),
    Cell::Open(10),
    Cell::Open(10),
    Cell::Open(10),
    Cell::Closed,
    Cell::Open(10),
    Cell::Closed,
    Cell::Open(10),
    Cell::Open(10),
];

// An open lane, at its floor.
fn lane(from: u16, to: u16, crossings: u32, milliseconds: u32) -> Lane {
    let floor = LaneCost {
        crossings,
        milliseconds,
    };
    Lane::new(from, to, floor, LaneState::Open(floor))
}

#[test]
fn a_route_round_the_closed_cell(rt: HostRuntime) {
    let mut cells = CELLS;
    let mut sheet = [blank(); 9];
    let mut queue = [0; 9];
    let mut list = [77; 9];
    let mut planner = Planner::new(Floor::new(HEAD, &mut cells));
    assert_eq!(rt; number(planner.open(0, 8, &mut sheet)), 0);
    let found = counts(planner.search(&mut sheet, &mut queue, &mut list));
    assert_eq!(rt; found.map(|[_, count]| count), Ok(5));
    assert_eq!(rt; list, [0, 1, 2, 5, 8, 77, 77, 77, 77]);
    assert_eq!(rt; [sheet[0].mark, sheet[8].mark], [true, false]);
}

#[test]
fn from_a_place_to_itself(rt: HostRuntime) {
    let mut cells = CELLS;
    let mut sheet = [blank(); 9];
    let mut queue = [0; 9];
    let mut list = [77; 9];
    let mut planner = Planner::new(Floor::new(HEAD, &mut cells));
    assert_eq!(rt; number(planner.open(3, 3, &mut sheet)), 0);
    let found = counts(planner.search(&mut sheet, &mut queue, &mut list));
    assert_eq!(rt; found, Ok([0, 1]));
    assert_eq!(rt; [list[0], list[1]], [3, 77]);
}

#[test]
fn a_second_search_without_route_opens_nothing(rt: HostRuntime) {
    let mut cells = CELLS;
    let mut sheet = [blank(); 9];
    let mut queue = [0; 9];
    let mut list = [77; 9];
    let mut planner = Planner::new(Floor::new(HEAD, &mut cells));
    assert_eq!(rt; number(planner.open(0, 6, &mut sheet)), 0);
    let first = counts(planner.search(&mut sheet, &mut queue, &mut list));
    let second = counts(planner.search(&mut sheet, &mut queue, &mut list));
    assert_eq!(rt; [first, second], [Ok([7, 0]), Ok([0, 0])]);
    assert_eq!(rt; list[0], 77);
}

#[test]
fn refusals_by_number(rt: HostRuntime) {
    let mut cells = CELLS;
    let mut sheet = [blank(); 9];
    let mut short = [blank(); 8];
    let mut planner = Planner::new(Floor::new(HEAD, &mut cells));
    assert_eq!(rt; number(planner.move_to(0)), 1);
    assert_eq!(rt; number(planner.open(9, 0, &mut short)), 2);
    assert_eq!(rt; number(planner.open(0, 8, &mut short)), 7);
    assert_eq!(rt; number(planner.open(0, 8, &mut sheet)), 0);
    assert_eq!(rt; number(planner.move_to(9)), 2);
    assert_eq!(rt; number(planner.move_to(2)), 0);
    sheet[8].estimate = Length::Infinite;
    assert_eq!(rt; number(planner.retarget(0, &mut sheet)), 8);
    assert_eq!(rt; number(planner.retarget(0, &mut short)), 7);
}

#[test]
fn fewer_crossings_first(rt: HostRuntime) {
    let mut places = [Place::at(0, 0), Place::at(1000, 0), Place::at(2000, 0)];
    let mut lanes = [
        lane(0, 1, 0, 4000),
        lane(0, 2, 1, 2000),
        lane(1, 2, 0, 4000),
    ];
    let head = TapeHead {
        places: 3,
        lanes: 3,
    };
    let mut sheet = [blank(); 3];
    let mut queue = [0; 3];
    let mut list = [77; 3];
    let mut planner = Planner::new(Tape::new(head, &mut places, &mut lanes));
    assert_eq!(rt; number(planner.open(0, 2, &mut sheet)), 0);
    let found = counts(planner.search(&mut sheet, &mut queue, &mut list));
    assert_eq!(rt; found.map(|[_, count]| count), Ok(3));
    assert_eq!(rt; list, [0, 1, 2]);
}

#[test]
fn a_barred_segment_is_not_entered(rt: HostRuntime) {
    let mut cells = [Cell::Open(10); 4];
    let mut sheet = [blank(); 4];
    let mut queue = [0; 4];
    let mut list = [77; 4];
    let head = FloorHead {
        rows: 2,
        columns: 2,
        free: 10,
    };
    let mut bars = Bars::new(Floor::new(head, &mut cells));
    assert_eq!(rt; number(bars.bar(1)), 0);
    let mut planner = Planner::new(bars);
    assert_eq!(rt; number(planner.open(0, 3, &mut sheet)), 0);
    let found = counts(planner.search(&mut sheet, &mut queue, &mut list));
    assert_eq!(rt; found.map(|[_, count]| count), Ok(3));
    assert_eq!(rt; [list[0], list[1], list[2]], [0, 2, 3]);
}
