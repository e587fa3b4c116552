// The tables of a tape, and what may stand in them.
ghost use Rattle.std.specs.Prelude.{◌≡◌, Some};
ghost use Rattle.tables.specs.Tapes.{larger_difference, not_under, is_state_not_under, unnoted_place, unnoted_lane};
ghost use Rattle.tables.specs.Texts.{tape_line, lane_cost_text};

use crate::State;
use std::fmt;

// How far from (0, 0) a place may lie on each axis, in millimetres.
pub const FARTHEST: u32 = 30_000;

pub const MOST_PLACES: u32 = 4_096;

pub const MOST_LANES: u32 = 8_192;

// How many lanes may leave one place.
pub const MOST_LEAVING: u16 = 64;

// How many crossings a lane may have.
pub const MOST_CROSSINGS: u32 = 100;

// The counts of a tape's places and lanes.
#[derive(Clone, Copy, Debug, PartialEq, Eq)]
pub struct TapeHead {
    pub places: u32,
    pub lanes: u32,
}

// Pedestrian crossings, and milliseconds; compared by crossings first.
#[derive(Clone, Copy, Debug, PartialEq, Eq, PartialOrd, Ord)]
pub struct LaneCost {
    pub crossings: u32,
    pub milliseconds: u32,
}

pub type LaneState = State<LaneCost>;

// An entry for each place: its coordinates in millimetres, and notes that the tape makes for itself. A customer leaves those 0.
#[derive(Clone, Copy, Debug, PartialEq, Eq)]
pub struct Place {
    pub x: i32,
    pub y: i32,
    // The lanes that leave it: the first of them, and how many.
    pub first: u16,
    pub ways: u16,
    // The lanes that end there, in the tape's own order of lanes by their ends: where they begin, and how many.
    pub entry_first: u16,
    pub entries: u16,
}

impl fmt::Display for TapeHead {
    ghost output = { λ head. Some (tape_line head) };

    fn fmt<W: fmt::Write>(&self, f: &mut fmt::Formatter<W>) -> fmt::Result {
        let places = self.places;
        let lanes = self.lanes;
        write!(f, "tape {places} places, {lanes} lanes")
    }
}

impl fmt::Display for LaneCost {
    ghost output = { λ cost. Some (lane_cost_text cost) };

    fn fmt<W: fmt::Write>(&self, f: &mut fmt::Formatter<W>) -> fmt::Result {
        let crossings = self.crossings;
        let milliseconds = self.milliseconds;
        write!(f, "{crossings}/{milliseconds}")
    }
}

impl Place {
    // The place at these coordinates, nothing noted.
    pub fn at(x: i32, y: i32) -> Place
        ensures { result ≡ unnoted_place x y }
    {
        Place {
            x,
            y,
            first: 0,
            ways: 0,
            entry_first: 0,
            entries: 0,
        }
    }

    // The larger coordinate difference to another place, without sign.
    pub fn larger_difference(self, other: Place) -> u32
        ensures { result ≡ larger_difference self other }
    {
        let across = self.x.abs_diff(other.x);
        let along = self.y.abs_diff(other.y);
        across.max(along)
    }
}

impl LaneCost {
    // Whether it is not under a floor: by crossings, and by milliseconds where those are equal.
    pub fn is_not_under(self, floor: LaneCost) -> bool
        ensures { result ≡ not_under floor self }
    {
        floor <= self
    }
}

impl State<LaneCost> {
    // Whether it is closed, or not under a floor.
    pub fn is_not_under(self, floor: LaneCost) -> bool
        ensures { result ≡ is_state_not_under floor self }
    {
        self.cost().is_none_or(|cost| cost.is_not_under(floor))
    }
}

// An entry for each lane, and notes that the tape makes for itself.
#[derive(Clone, Copy, Debug, PartialEq, Eq)]
pub struct Lane {
    pub from: u16,
    pub to: u16,
    // The least cost that it may be set to.
    pub floor: LaneCost,
    pub state: LaneState,
    // In the tape's own order of lanes by their ends: the lane that stands at this entry's number, and where this lane stands.
    pub entering: u16,
    pub slot: u16,
}

impl Lane {
    // The lane with these ends, this floor and this state, nothing noted.
    pub fn new(from: u16, to: u16, floor: LaneCost, state: LaneState) -> Lane
        ensures { result ≡ unnoted_lane from to floor state }
    {
        Lane {
            from,
            to,
            floor,
            state,
            entering: 0,
            slot: 0,
        }
    }
}
