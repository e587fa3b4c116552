// A tape: places with coordinates and lanes between them, over two tables that the customer lends.
#![tactic(auto)]

ghost use Rattle.std.specs.Prelude.{◌≡◌, true};
ghost use Rattle.cost.specs.CrossingsFirst.{crossings_first};
ghost use Rattle.tape.specs.TapeSites.{cost_of, length_of, lane_cost, SoundTapesAreLawful};
ghost use Rattle.tape.specs.TapeTables.{SoundTables, NotedTables};

use cost::{CrossingsFirst, Length};
use tables::{Lane, LaneCost, LaneState, Place};

mod making;
mod rules;
pub mod tape_site;

pub use rules::verdict;

// The entries of the tables that count. A tape that stands on faulty tables has none, and is then one place with no segment.
#[derive(Drop)]
pub struct Tape<'p, 'l> {
    places: &'p mut [Place],
    lanes: &'l mut [Lane],
    ghost sound: { SoundTables places.now lanes.now },
    ghost noted: { NotedTables places.now lanes.now },
}

// These three are functions: `From` is written where one of its two types is.
fn cost_of(cost: LaneCost) -> CrossingsFirst
    ensures { result ≡ cost_of cost }
{
    CrossingsFirst::new(cost.crossings, cost.milliseconds as u64)
}

fn length_of(state: LaneState) -> Length<CrossingsFirst>
    ensures { result ≡ length_of state }
{
    state
        .cost()
        .map_or(Length::Infinite, |cost| Length::Finite(cost_of(cost)))
}

// A cost as it is written into a lane.
fn lane_cost(cost: CrossingsFirst) -> LaneCost
    requires { crossings_first.segment cost ≡ true }
    ensures { result ≡ lane_cost cost }
{
    LaneCost {
        crossings: cost.crossings,
        milliseconds: cost.time.count as u32,
    }
}

// Every site that a sound head and its tables describe keeps the rules of sites.
pub fn sound_tapes_are_lawful()
    ensures { SoundTapesAreLawful }
{}
