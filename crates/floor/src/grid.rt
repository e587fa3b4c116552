// A grid of cells, each of them in its range.
ghost use Rattle.std.specs.Prelude.{◌≡◌, ◌*◌, ◌≤◌, length};
ghost use Rattle.std.specs.List.{AllPass};
ghost use Rattle.tables.specs.Floors.{is_cell, longest_segment};

use crate::rules::verdict;
use arrayvec::ArrayVec;
use cost::Milliseconds;
use tables::{Cell, FloorHead, Verdict};

#[derive(Drop)]
pub struct Grid<'a> {
    pub rows: u16,
    pub columns: u16,
    pub free: u32,
    // The cells row by row, and nothing else.
    pub cells: &'a mut [Cell],
    pub ghost rows_ranged: { (1 ≤ rows) × (rows ≤ 64) },
    pub ghost columns_ranged: { (1 ≤ columns) × (columns ≤ 64) },
    pub ghost free_ranged: { (1 ≤ free) × (free ≤ longest_segment) },
    pub ghost cells_counted: { length cells.now ≡ rows * columns },
    pub ghost cells_ranged: { AllPass (is_cell free) cells.now },
}

impl<'a> Grid<'a> {
    ghost use Rattle.std.specs.Prelude.{◌≡◌, ◌+◌, ◌*◌, ◌<◌, true, IfSome, IfNone, slice_set, nat_lt};
    ghost use Rattle.std.specs.List.{slice_get};
    ghost use Rattle.cost.specs.Milliseconds.{ms};
    ghost use Rattle.floor.specs.Floors.{SoundFloor, cells_of};
    ghost use Rattle.floor.specs.Grids.{around, present, neighbours, grid};
    ghost use Rattle.floor.specs.FloorSites.{head_of, grid_of};

    // The grid that a head and a table describe; none where they break the rules.
    pub fn new(head: FloorHead, cells: &'a mut [Cell]) -> Option<Grid<'a>>
        ensures some { IfSome result (λ g. SoundFloor head cells.old × (grid_of g ≡ grid head (cells_of head cells.old))) }
        ensures none { IfNone result (SoundFloor head cells.old → ⊥) }
    {
        match verdict(head, cells) {
            Verdict::Sound => {
                let count = head.rows as usize * head.columns as usize;
                Some(Grid {
                    rows: head.rows as u16,
                    columns: head.columns as u16,
                    free: head.free,
                    cells: &mut cells[..count],
                })
            },
            Verdict::Faulty => None,
        }
    }

    // How many cells it has.
    pub fn count(&self) -> u16
        ensures { result ≡ self.now.rows * self.now.columns }
    {
        self.rows * self.columns
    }

    pub fn free_cost(&self) -> Milliseconds
        ensures { result ≡ ms self.now.free }
    {
        Milliseconds {
            count: self.free as u64,
        }
    }

    // The cells up, right, down and left of the one at a row and a column, where there are such.
    fn beside(&self, row: u16, column: u16) -> ArrayVec<u16, 4>
        requires row { row < self.now.rows }
        requires column { column < self.now.columns }
        ensures { result.items ≡ present (around self.now.rows self.now.columns row column) }
    {
        let mut cells = ArrayVec::new();
        if 0 < row {
            cells.push((row - 1) * self.columns + column);
        }
        if column + 1 < self.columns {
            cells.push(row * self.columns + (column + 1));
        }
        if row + 1 < self.rows {
            cells.push((row + 1) * self.columns + column);
        }
        if 0 < column {
            cells.push(row * self.columns + (column - 1));
        }
        cells
    }

    // A neighbour of a cell, by its index among them: up, right, down, left. A number that is no cell has none.
    #[tactic(auto, using(crate::specs::GridWays::cell_neighbours))]
    pub fn neighbour(&self, cell: u16, index: u16) -> Option<u16>
        ensures { result ≡ slice_get (neighbours self.now.rows self.now.columns cell) index }
    {
        if self.count() <= cell {
            return None;
        }
        self.beside(cell / self.columns, cell % self.columns)
            .get(index as usize)
            .copied()
    }

    // The free time for each row and each column that two cells are apart.
    pub fn hint(&self, place: u16, target: u16) -> Milliseconds
        requires place { place < self.now.rows * self.now.columns }
        requires target { target < self.now.rows * self.now.columns }
        ensures { result ≡ (grid_of self.now).hint place target }
    {
        let rows_apart = (place / self.columns).abs_diff(target / self.columns);
        let columns_apart = (place % self.columns).abs_diff(target % self.columns);
        Milliseconds {
            count: self.free as u64 * (rows_apart + columns_apart) as u64,
        }
    }

    // Writes a cell, where there is one with this number. By index: after a write by `get_mut` the ghost fields stay unproved.
    pub fn set(&mut self, number: u16, cell: Cell) -> bool
        requires { is_cell self.old.free cell ≡ true }
        ensures answer { result ≡ nat_lt number (self.old.rows * self.old.columns) }
        ensures head { head_of self.new ≡ head_of self.old }
        ensures cells { self.new.cells.now ≡ slice_set self.old.cells.now number cell }
    {
        let exists = number < self.count();
        if exists {
            self.cells[number as usize] = cell;
        }
        exists
    }
}
