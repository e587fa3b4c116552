// Tapes over small tables, asked from outside.
#![tactic(auto)]

use tables::{Lane, LaneCost, LaneState, Place, TapeHead};
use tape::verdict;

// Anybody may have written the notes.
const STRAY: u16 = 7;

fn place(x: i32, y: i32) -> Place {
    Place {
        first: STRAY,
        ways: STRAY,
        entry_first: STRAY,
        entries: STRAY,
        ..Place::at(x, y)
    }
}

// A lane with one crossing, open at its floor.
fn lane(from: u16, to: u16, milliseconds: u32) -> Lane {
    let floor = LaneCost {
        crossings: 1,
        milliseconds,
    };
    Lane {
        entering: STRAY,
        slot: STRAY,
        ..Lane::new(from, to, floor, LaneState::Open(floor))
    }
}

// The verdict as a number, which is what the rules give.
fn number(places_count: u32, lanes_count: u32, places: &[Place], lanes: &[Lane]) -> u8 {
    let head = TapeHead {
        places: places_count,
        lanes: lanes_count,
    };
    verdict(head, places, lanes).number()
}

#[cfg(test)]
mod tests {
    use super::*;
    use cost::{CrossingsFirst, Length};
    use site::{Site, Way};
    use tape::Tape;

    fn way(end: u16, segment: u16) -> Option<Way> {
        Some(Way { end, segment })
    }

    fn open(crossings: u32, milliseconds: u64) -> Option<Length<CrossingsFirst>> {
        Some(Length::Finite(CrossingsFirst::new(crossings, milliseconds)))
    }

    #[test]
    fn parallel_lanes_and_self_loops(rt: HostRuntime) {
        let mut places = [place(0, 0), place(1_000, 0)];
        let mut lanes = [
            lane(0, 1, 4_000),
            lane(0, 1, 1_000),
            lane(0, 0, 1),
            lane(1, 1, 1),
        ];
        let head = TapeHead {
            places: 2,
            lanes: 4,
        };
        assert_eq!(rt; number(2, 4, &places, &lanes), 0);
        let tape = Tape::new(head, &mut places, &mut lanes);
        assert_eq!(rt; [tape.places(), tape.segments()], [2, 4]);
        let ways = [
            tape.way(0, 0),
            tape.way(0, 1),
            tape.way(0, 2),
            tape.way(0, 3),
            tape.way(1, 0),
            tape.way(2, 0),
        ];
        let told = [way(1, 0), way(1, 1), way(0, 2), None, way(1, 3), None];
        assert_eq!(rt; ways, told);
    }

    #[test]
    fn sources_and_users(rt: HostRuntime) {
        let mut places = [place(0, 0), place(1_000, 0), place(0, -3)];
        let mut lanes = [lane(0, 2, 3), lane(1, 0, 1_000), lane(1, 2, 1_000)];
        let head = TapeHead {
            places: 3,
            lanes: 3,
        };
        let tape = Tape::new(head, &mut places, &mut lanes);
        let sources = [
            tape.source(2, 0),
            tape.source(2, 1),
            tape.source(2, 2),
            tape.source(1, 0),
            tape.source(3, 0),
        ];
        assert_eq!(rt; sources, [Some(0), Some(1), None, None, None]);
        assert_eq!(rt;
            [tape.user(2, 0), tape.user(2, 1), tape.user(3, 0)],
            [Some(1), None, None]
        );
    }

    #[test]
    fn sixty_four_lanes(rt: HostRuntime) {
        let mut places = [place(5, 5)];
        let mut lanes = [lane(0, 0, 1); 65];
        let head = TapeHead {
            places: 1,
            lanes: 64,
        };
        assert_eq!(rt; number(1, 64, &places, &lanes), 0);
        let tape = Tape::new(head, &mut places, &mut lanes);
        assert_eq!(rt; [tape.way(0, 63), tape.way(0, 64)], [way(0, 63), None]);
    }

    #[test]
    fn one_lane_too_many(rt: HostRuntime) {
        let mut places = [place(5, 5), place(6, 6)];
        let mut lanes = [lane(0, 0, 1); 65];
        let head = TapeHead {
            places: 2,
            lanes: 65,
        };
        assert_eq!(rt; number(2, 65, &places, &lanes), 28);
        let tape = Tape::new(head, &mut places, &mut lanes);
        assert_eq!(rt; [tape.places(), tape.segments()], [1, 0]);
        assert_eq!(rt; tape.way(0, 0), None);
        assert_eq!(rt;
            [tape.hint(0, 0), tape.hint(0, 1)],
            [Some(CrossingsFirst::new(0, 0)), None]
        );
    }

    #[test]
    fn coordinates(rt: HostRuntime) {
        let mut places = [place(30_000, -30_000), place(-30_000, 29_999)];
        let mut lanes = [lane(0, 1, 60_000)];
        let east = number(1, 0, &[place(30_001, 0)], &lanes);
        let south = number(1, 0, &[place(0, -30_001)], &lanes);
        let too_fast = number(2, 1, &places, &[lane(0, 1, 59_999)]);
        assert_eq!(rt;
            [number(2, 1, &places, &lanes), east, south, too_fast],
            [0, 28, 28, 28]
        );
        let head = TapeHead {
            places: 2,
            lanes: 1,
        };
        let tape = Tape::new(head, &mut places, &mut lanes);
        assert_eq!(rt; tape.hint(0, 1), Some(CrossingsFirst::new(0, 60_000)));
    }

    #[test]
    fn faulty_lanes(rt: HostRuntime) {
        let places = [place(0, 0), place(0, 0)];
        let unsorted = number(2, 2, &places, &[lane(1, 0, 1), lane(0, 1, 1)]);
        let lacking = number(2, 2, &places, &[lane(0, 1, 1)]);
        let outside = number(2, 1, &places, &[lane(0, 2, 1)]);
        let timeless = number(2, 1, &places, &[lane(0, 1, 0)]);
        assert_eq!(rt; [unsorted, lacking, outside, timeless], [28, 28, 28, 28]);
    }

    #[test]
    fn setting_a_lane(rt: HostRuntime) {
        let mut places = [place(0, 0), place(10, 0)];
        let mut lanes = [lane(0, 1, 10), lane(0, 1, 20), lane(1, 0, 30)];
        let head = TapeHead {
            places: 2,
            lanes: 3,
        };
        let mut tape = Tape::new(head, &mut places, &mut lanes);
        let under = tape.set_cost(1, CrossingsFirst::new(0, 1_000));
        let kept = tape.state(1);
        let done = tape.set_cost(1, CrossingsFirst::new(2, 1));
        let closed = tape.close(2);
        let outside = tape.close(3);
        assert_eq!(rt; [under, done, closed, outside], [false, true, true, false]);
        let states = [
            kept,
            tape.state(0),
            tape.state(1),
            tape.state(2),
            tape.state(3),
        ];
        assert_eq!(rt;
            states,
            [
                open(1, 20),
                open(1, 10),
                open(2, 1),
                Some(Length::Infinite),
                None,
            ]
        );
    }
}
