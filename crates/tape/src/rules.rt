// Whether a head and its tables keep the rules of tapes.
ghost use Rattle.std.specs.Prelude.{◌≡◌, ◌+◌, ◌≤◌, ◌↔◌, ◌==◌, if◌then◌else◌, length, IsTrue};
ghost use Rattle.tables.specs.Tapes.{is_place, is_lane_cost, is_lane_state, SoundPlaces, SoundLane, SoundLanes, SoundTape};
ghost use Rattle.tables.specs.Verdicts.{Judges};
ghost use Rattle.tape.specs.TapeSites.{fitting};

use tables::tape::{FARTHEST, MOST_CROSSINGS, MOST_LANES, MOST_LEAVING, MOST_PLACES};
use tables::{LONGEST_SEGMENT, Lane, LaneCost, LaneState, Place, TapeHead, Verdict};

// Whether both coordinates are in range.
fn is_place(place: Place) -> bool
    ensures { result ≡ is_place place }
{
    place.x.unsigned_abs() <= FARTHEST && place.y.unsigned_abs() <= FARTHEST
}

// Whether a lane can have this cost.
fn is_lane_cost(cost: LaneCost) -> bool
    ensures { result ≡ is_lane_cost cost }
{
    cost.crossings <= MOST_CROSSINGS && (1..=LONGEST_SEGMENT).contains(&cost.milliseconds)
}

// Whether a lane with this floor can be in this state.
fn is_lane_state(floor: LaneCost, state: LaneState) -> bool
    ensures { result ≡ is_lane_state floor state }
{
    state
        .cost()
        .is_none_or(|cost| is_lane_cost(cost) && cost.is_not_under(floor))
}

// Whether the counts are in range, and tables of these lengths are long enough.
fn fits(head: TapeHead, places: usize, lanes: usize) -> bool
    ensures { result ≡ fitting head places lanes }
{
    (1..=MOST_PLACES).contains(&head.places)
        && head.lanes <= MOST_LANES
        && head.places as usize <= places
        && head.lanes as usize <= lanes
}

fn are_places_sound(places: &[Place]) -> bool
    ensures { IsTrue result ↔ SoundPlaces (length places.now) places.now }
{
    places.iter().all(|place| is_place(*place))
}

fn is_lane_sound(places: &[Place], lane: Lane) -> bool
    ensures { IsTrue result ↔ SoundLane (length places.now) places.now lane }
{
    let from = lane.from as usize;
    let to = lane.to as usize;
    from < places.len()
        && to < places.len()
        && is_lane_cost(lane.floor)
        && places[from].larger_difference(places[to]) <= lane.floor.milliseconds
        && is_lane_state(lane.floor, lane.state)
}

// The place that the lanes so far left last, and how many of them left it. The reader's run of lanes has the place's coordinates too.
#[derive(Clone, Copy)]
struct Run {
    from: u16,
    lanes: u16,
}

impl Run {
    // The run after a lane more.
    fn after(self, from: u16) -> Run
        requires { self.lanes ≤ 64 }
        ensures from { result.from ≡ from }
        ensures lanes { result.lanes ≡ (if from == self.from then self.lanes + 1 else 1) }
    {
        let lanes = if from == self.from { self.lanes + 1 } else { 1 };
        Run { from, lanes }
    }
}

fn are_lanes_sound(places: &[Place], lanes: &[Lane]) -> bool
    ensures { IsTrue result ↔ SoundLanes (length places.now) (length lanes.now) places.now lanes.now }
{
    // Before the first lane none has left place 0. No `Option`, since a first lane is asked just what a later one is.
    let mut run = Run { from: 0, lanes: 0 };
    for lane in lanes {
        if !is_lane_sound(places, *lane) || lane.from < run.from {
            return false;
        }
        run = run.after(lane.from);
        if MOST_LEAVING < run.lanes {
            return false;
        }
    }
    true
}

// The verdict on a head and its tables, by them alone.
pub fn verdict(head: TapeHead, places: &[Place], lanes: &[Lane]) -> Verdict
    ensures { Judges result (SoundTape head places.now lanes.now) }
{
    if !fits(head, places.len(), lanes.len()) {
        return Verdict::Faulty;
    }
    let places = &places[..head.places as usize];
    let lanes = &lanes[..head.lanes as usize];
    if are_places_sound(places) && are_lanes_sound(places, lanes) {
        Verdict::Sound
    } else {
        Verdict::Faulty
    }
}
