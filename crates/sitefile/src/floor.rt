// The file of a floor: after its first byte the rows, the columns, the free time and each cell.
ghost use Rattle.std.specs.Prelude.{◌≡◌, ◌≤◌, MatchResult};
ghost use Rattle.sitefile.specs.Readers.{ahead, size};
ghost use Rattle.sitefile.specs.Formats.{FirstFault};
ghost use Rattle.sitefile.specs.Floors.{cells, floor_format, HeadRead, LoadsFloor};

use crate::fault::{Cause, Fault};
use crate::reader::Reader;
use crate::records::Layout;
use tables::{Cell, FloorHead, LONGEST_SEGMENT, LONGEST_SIDE};

// The cells of a floor with this free time: 0 for closed, or the time to enter it.
#[derive(Clone, Copy)]
pub(crate) struct Cells {
    free: u32,
    ghost some: { 1 ≤ free },
}

impl Layout for Cells {
    type Item = Cell;

    ghost records = { λ layout. cells layout.free };

    fn read(&self, reader: &mut Reader<'_>) -> Result<Cell, Fault> {
        let free = self.free;
        let at = reader.at;
        let time = reader.number()?;
        if time == 0 {
            return Ok(Cell::Closed);
        }
        if !(free..=LONGEST_SEGMENT).contains(&time) {
            return Err(Cause::OutOfRange.at(at));
        }
        Ok(Cell::Open(time))
    }
}

impl Reader<'_> {
    // The head of a floor that is to be read into a table with `entries` entries.
    fn floor_head(&mut self, entries: usize) -> Result<FloorHead, Fault>
        ensures size { size self.new ≡ size self.old }
        ensures read { MatchResult result (λ head. HeadRead entries (ahead self.old) head (ahead self.new)) (λ f. FirstFault (size self.old) (floor_format entries) (ahead self.old) f) }
    {
        let rows = self.ranged(1, LONGEST_SIDE)?;
        let columns = self.ranged(1, LONGEST_SIDE)?;
        if entries < (rows * columns) as usize {
            return Err(Cause::SmallTable.at(0));
        }
        let free = self.ranged(1, LONGEST_SEGMENT)?;
        Ok(FloorHead {
            rows,
            columns,
            free,
        })
    }
}

// The floor after the first byte: one walk over the cells checks them, the next fills the table.
pub(crate) fn load_floor(mut reader: Reader<'_>, table: &mut [Cell]) -> Result<FloorHead, Fault>
    ensures { LoadsFloor (size reader.entry) (ahead reader.entry) table.old table.new result }
{
    let head = reader.floor_head(table.len())?;
    let count = head.rows * head.columns;
    let layout = Cells { free: head.free };
    let mut walk = reader;
    walk.pass_over(&layout, count)?;
    walk.end()?;
    reader.fill(&layout, &mut table[..count as usize])?;
    Ok(head)
}
