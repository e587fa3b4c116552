// The question on a head and a table, which anybody may have written.
ghost use Rattle.std.specs.Prelude.{◌≡◌};
ghost use Rattle.tables.specs.Floors.{is_cell};
ghost use Rattle.floor.specs.Floors.{SoundFloor, is_head, are_cells};
ghost use Rattle.tables.specs.Verdicts.{Judges};

use tables::{Cell, FloorHead, LONGEST_SEGMENT, LONGEST_SIDE, Verdict};

// Whether a cell is closed, or takes from the free time to the longest time.
fn is_cell(free: u32, cell: Cell) -> bool
    ensures { result ≡ is_cell free cell }
{
    cell.cost()
        .is_none_or(|time| (free..=LONGEST_SEGMENT).contains(&time))
}

// Whether the numbers of a head are in their ranges.
fn is_head(head: FloorHead) -> bool
    ensures { result ≡ is_head head }
{
    (1..=LONGEST_SIDE).contains(&head.rows)
        && (1..=LONGEST_SIDE).contains(&head.columns)
        && (1..=LONGEST_SEGMENT).contains(&head.free)
}

// Whether each of these cells is in its range.
fn are_cells(free: u32, cells: &[Cell]) -> bool
    ensures { result ≡ are_cells free cells.now }
{
    cells.iter().all(|cell| is_cell(free, *cell))
}

// Whether a head and a table keep the rules of a floor. Entries past the cells are not looked at.
#[tactic(auto, using(crate::proofs::SoundFloors::sound_parts, crate::proofs::SoundFloors::sound_from))]
pub fn verdict(head: FloorHead, cells: &[Cell]) -> Verdict
    ensures { Judges result (SoundFloor head cells.now) }
{
    let count = head.rows as usize * head.columns as usize;
    if is_head(head) && count <= cells.len() && are_cells(head.free, &cells[..count]) {
        Verdict::Sound
    } else {
        Verdict::Faulty
    }
}
