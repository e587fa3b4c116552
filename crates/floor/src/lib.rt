// A floor: a grid of cells over a table that the customer lends.
#![tactic(auto)]

ghost use Rattle.floor.specs.Floors.{SiteOver};
ghost use Rattle.floor.specs.FloorSites.{floor_meaning};

use tables::{Cell, FloorHead};

mod as_site;
mod grid;
mod rules;

use grid::Grid;
pub use rules::verdict;

#[derive(Drop)]
pub struct Floor<'a> {
    // Absent over a faulty head or table: then the floor is one place with no segment.
    grid: Option<Grid<'a>>,
}

impl<'a> Floor<'a> {
    // The floor over this head and table, which is looked through once. Where they break the rules, it is one place with no segment.
    pub fn new(head: FloorHead, cells: &'a mut [Cell]) -> Floor<'a>
        ensures { SiteOver head cells.old (floor_meaning result) }
    {
        Floor {
            grid: Grid::new(head, cells),
        }
    }
}
