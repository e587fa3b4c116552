// Floors, asked as a planner asks them.
#![tactic(auto)]

use cost::{Length, Milliseconds};
use site::Site;
use std::array;

#[cfg(test)]
mod floor_tests;

// The end of a way whose segment has the number of that end.
fn end<S: Site>(site: &S, place: u16, index: u16) -> Option<u16> {
    let way = site.way(place, index)?;
    (way.segment == way.end).then_some(way.end)
}

// Where a place's first four ways lead.
pub fn ends<S: Site>(site: &S, place: u16) -> [Option<u16>; 4] {
    array::from_fn(|index| end(site, place, index as u16))
}

// The milliseconds of a segment's present state, as tests expect them: 0 for closed, and absent for no segment.
fn time<S: Site<Cost = Milliseconds>>(site: &S, segment: u16) -> Option<u64> {
    site.state(segment).map(|state| match state {
        Length::Finite(cost) => cost.count,
        Length::Infinite => 0,
    })
}

// The same of the first four segments.
pub fn times<S: Site<Cost = Milliseconds>>(site: &S) -> [Option<u64>; 4] {
    array::from_fn(|segment| time(site, segment as u16))
}
