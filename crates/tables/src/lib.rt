// The tables that a customer lends. A site file is read into them and a site stands on them; neither knows the other.
#![tactic(auto)]

ghost use Rattle.std.specs.Prelude.{◌≡◌, Some};
ghost use Rattle.tables.specs.Texts.{state_text, head_line};
ghost use Rattle.tables.specs.Verdicts.{verdict_number};
ghost use Rattle.tables.specs.States.{open_cost};

use std::fmt;

pub mod tape;

pub use tape::{Lane, LaneCost, LaneState, Place, TapeHead};

// Whether a head and its tables keep the rules. No `Result`: that they do not is an answer which a customer is told, and ends no call.
#[derive(Clone, Copy, Debug, PartialEq, Eq)]
pub enum Verdict {
    Sound = 0,
    Faulty = 28,
}

impl Verdict {
    pub fn number(self) -> u8
        ensures { result ≡ verdict_number self }
    {
        self as u8
    }
}

// Whether carts may enter, and what that costs where they may. No `Option`, whose `None` would say less than Closed and has no `Display`.
#[derive(Clone, Copy, Debug, PartialEq, Eq)]
pub enum State<T> {
    Closed,
    Open(T),
}

impl<T> State<T> {
    // What it costs to enter; none while it is closed.
    pub fn cost(self) -> Option<T>
        ensures { result ≡ open_cost self }
    {
        match self {
            State::Closed => None,
            State::Open(cost) => Some(cost),
        }
    }
}

impl<T: fmt::Display> fmt::Display for State<T> {
    ghost output = { state_text T.Display.output };

    fn fmt<W: fmt::Write>(&self, f: &mut fmt::Formatter<W>) -> fmt::Result {
        match self {
            State::Closed => write!(f, "-"),
            State::Open(cost) => write!(f, "{cost}"),
        }
    }
}

// An entry for each cell of a floor: entering it takes so many milliseconds.
pub type Cell = State<u32>;

// The numbers that a floor's cells are read by.
#[derive(Clone, Copy, Debug, PartialEq, Eq)]
pub struct FloorHead {
    pub rows: u32,
    pub columns: u32,
    // The least time to enter a cell, in milliseconds.
    pub free: u32,
}

impl fmt::Display for FloorHead {
    ghost output = { λ head. Some (head_line head) };

    fn fmt<W: fmt::Write>(&self, f: &mut fmt::Formatter<W>) -> fmt::Result {
        let rows = self.rows;
        let columns = self.columns;
        let free = self.free;
        write!(f, "floor {rows} x {columns}, free {free}")
    }
}

// The most rows, and the most columns, of a floor.
pub const LONGEST_SIDE: u32 = 64;

// The most milliseconds that a segment may cost.
pub const LONGEST_SEGMENT: u32 = 1_000_000;
