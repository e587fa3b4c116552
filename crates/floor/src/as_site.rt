// A floor is a site.
ghost use Rattle.std.specs.Prelude.{◌≡◌};
ghost use Rattle.std.specs.List.{slice_get};
ghost use Rattle.floor.specs.FloorSites.{floor_meaning, floor_directory};
ghost use Rattle.floor.specs.FloorLaws.{floor_lawful, floor_indexed};
ghost use Rattle.floor.specs.Grids.{cell_length};

use crate::Floor;
use cost::{Cost, Length, Milliseconds};
use site::{Site, Way, is_allowed};
use tables::Cell;

// The present cost of entering a cell. A function: `From` is written where one of its two types is.
fn as_length(cell: Cell) -> Length<Milliseconds>
    ensures { result ≡ cell_length cell }
{
    cell.cost().map_or(Length::Infinite, |time| {
        Length::Finite(Milliseconds { count: time as u64 })
    })
}

impl Floor<'_> {
    // A neighbour of a cell, by its index among them.
    fn neighbour(&self, cell: u16, index: u16) -> Option<u16>
        ensures { result ≡ slice_get ((floor_directory self.now).sources cell) index }
    {
        self.grid.as_ref()?.neighbour(cell, index)
    }
}

impl Site for Floor<'_> {
    type Cost = Milliseconds;

    ghost meaning = { floor_meaning };

    ghost directory = { floor_directory };

    ghost lawful = { floor_lawful };

    ghost indexed = { floor_indexed };

    fn places(&self) -> u16 {
        self.segments().max(1)
    }

    fn segments(&self) -> u16 {
        self.grid.as_ref().map_or(0, |grid| grid.count())
    }

    fn way(&self, place: u16, index: u16) -> Option<Way> {
        let cell = self.neighbour(place, index)?;
        Some(Way {
            end: cell,
            segment: cell,
        })
    }

    fn source(&self, place: u16, index: u16) -> Option<u16> {
        self.neighbour(place, index)
    }

    fn user(&self, segment: u16, index: u16) -> Option<u16> {
        self.neighbour(segment, index)
    }

    fn floor(&self, segment: u16) -> Option<Milliseconds> {
        let grid = self.grid.as_ref()?;
        (segment < grid.count()).then_some(grid.free_cost())
    }

    fn state(&self, segment: u16) -> Option<Length<Milliseconds>> {
        let grid = self.grid.as_ref()?;
        grid.cells
            .get(segment as usize)
            .map(|cell| as_length(*cell))
    }

    fn settable(&self, segment: u16) -> Option<bool> {
        (segment < self.segments()).then_some(true)
    }

    fn hint(&self, place: u16, target: u16) -> Option<Milliseconds> {
        let places = self.places();
        if places <= place || places <= target {
            return None;
        }
        match &self.grid {
            Some(grid) => Some(grid.hint(place, target)),
            None => Some(Milliseconds::zero()),
        }
    }

    fn close(&mut self, segment: u16) -> bool {
        match &mut self.grid {
            Some(grid) => grid.set(segment, Cell::Closed),
            None => false,
        }
    }

    fn set_cost(&mut self, segment: u16, cost: Milliseconds) -> bool {
        match &mut self.grid {
            Some(grid) if is_allowed(grid.free_cost(), Length::Finite(cost)) => {
                grid.set(segment, Cell::Open(cost.count as u32))
            },
            _ => false,
        }
    }
}
