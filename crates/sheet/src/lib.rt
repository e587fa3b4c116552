// The sheet, its orders of places, and the two ways in which a place gets a lesser length and is queued.
#![tactic(auto)]

ghost use Rattle.std.specs.Prelude.{◌≡◌};
ghost use Rattle.sheet.specs.Sheets.{HasSum, sum_key};

mod offers;
mod orders;

use cost::{Cost, Length};
pub use offers::{lower_estimate, relax};
pub use orders::{By, Estimate, Key, Sum};

// The record that a planner keeps for each place.
#[derive(Clone, Copy)]
pub struct Entry<C> {
    // What a route from the place to the target costs at least (the h-value).
    pub estimate: Length<C>,
    // The least cost found so far of a route from the start to the place (the g-value).
    pub distance: Length<C>,
    // The place before it on that route (the parent).
    pub link: u16,
    // Whether the last search opened the place (expanded it).
    pub mark: bool,
}

impl<C: Cost> Entry<C> {
    // What a route from the start to the target through the place costs at least, as far as is known.
    pub fn sum(self) -> Length<C>
        requires { HasSum C.Cost.kind self }
        ensures { result ≡ sum_key C.Cost.kind self }
    {
        self.distance.plus(self.estimate)
    }
}
