// A tape is a site. Each question looks at a few entries of the tables only.
ghost use Rattle.tape.specs.TapeMeaning.{tape_meaning, tape_directory};
ghost use Rattle.tape.specs.TapeLaws.{tape_lawful, tape_indexed};

use crate::{Tape, cost_of, lane_cost, length_of};
use cost::{CrossingsFirst, Length};
use site::{Site, Way, is_allowed};
use tables::LaneState;

impl Site for Tape<'_, '_> {
    type Cost = CrossingsFirst;

    ghost meaning = { tape_meaning };

    ghost directory = { tape_directory };

    ghost lawful = { tape_lawful };

    ghost indexed = { tape_indexed };

    fn places(&self) -> u16 {
        (self.places.len() as u16).max(1)
    }

    fn segments(&self) -> u16 {
        self.lanes.len() as u16
    }

    // The same two looks as in `source`, at other notes: a function for both would take three numbers and give one.
    fn way(&self, place: u16, index: u16) -> Option<Way> {
        let here = self.places.get(place as usize)?;
        if here.ways <= index {
            return None;
        }
        let segment = here.first + index;
        let end = self.lanes[segment as usize].to;
        Some(Way { end, segment })
    }

    fn source(&self, place: u16, index: u16) -> Option<u16> {
        let here = self.places.get(place as usize)?;
        if here.entries <= index {
            return None;
        }
        let entry = here.entry_first + index;
        let lane = self.lanes[entry as usize].entering;
        Some(self.lanes[lane as usize].from)
    }

    fn user(&self, segment: u16, index: u16) -> Option<u16> {
        let from = self.lanes.get(segment as usize)?.from;
        (index == 0).then_some(from)
    }

    fn floor(&self, segment: u16) -> Option<CrossingsFirst> {
        let floor = self.lanes.get(segment as usize)?.floor;
        Some(cost_of(floor))
    }

    fn state(&self, segment: u16) -> Option<Length<CrossingsFirst>> {
        let state = self.lanes.get(segment as usize)?.state;
        Some(length_of(state))
    }

    fn settable(&self, segment: u16) -> Option<bool> {
        (segment < self.segments()).then_some(true)
    }

    fn hint(&self, place: u16, target: u16) -> Option<CrossingsFirst> {
        let places = self.places();
        if places <= place || places <= target {
            return None;
        }
        if self.places.is_empty() {
            return Some(CrossingsFirst::new(0, 0));
        }
        let start = self.places[place as usize];
        let end = self.places[target as usize];
        Some(CrossingsFirst::new(0, start.larger_difference(end) as u64))
    }

    fn close(&mut self, segment: u16) -> bool {
        // By index, here and below: where `get_mut` gives no lane, nothing that a proof can name says that the lanes are as before.
        let number = segment as usize;
        if self.lanes.len() <= number {
            return false;
        }
        self.lanes[number].state = LaneState::Closed;
        true
    }

    fn set_cost(&mut self, segment: u16, cost: CrossingsFirst) -> bool {
        let entry = segment as usize;
        if self.lanes.len() <= entry {
            return false;
        }
        if !is_allowed(cost_of(self.lanes[entry].floor), Length::Finite(cost)) {
            return false;
        }
        self.lanes[entry].state = LaneState::Open(lane_cost(cost));
        true
    }
}
