// The planner's calls over a floor, a tape and bars.
#![tactic(auto)]

use cost::{Cost, Length};
use refusals::Refusal;
use search::Found;
use sheet::Entry;

// An entry that no call has filled.
pub fn blank<C>() -> Entry<C> {
    Entry {
        estimate: Length::Infinite,
        distance: Length::Infinite,
        link: 0,
        mark: false,
    }
}

// How many places a search opened, and how many its route has.
pub fn counts<C: Cost>(answer: Result<Found<C>, Refusal>) -> Result<[u16; 2], Refusal> {
    answer.map(|found| [found.opened, found.count])
}

#[cfg(test)]
mod tests;
