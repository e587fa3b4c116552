// A site as text: a line for its head, then a line a row, or a line a place and a line a lane.
// The tables are whole, and cut here by the head's counts: to cut them before, what `load` promises would have to be carried through a `Vec`.
use std::fmt;
use tables::{Cell, FloorHead, Lane, Place, TapeHead};

// The cells of a row, blanks between.
#[derive(Clone, Copy)]
struct Row<'a> {
    cells: &'a [Cell],
}

impl fmt::Display for Row<'_> {
    fn fmt<W: fmt::Write>(&self, f: &mut fmt::Formatter<W>) -> fmt::Result {
        let [first, rest @ ..] = self.cells else {
            return Ok(());
        };
        write!(f, "{first}")?;
        for cell in rest {
            write!(f, " {cell}")?;
        }
        Ok(())
    }
}

#[derive(Clone, Copy)]
pub struct FloorText<'a> {
    pub head: FloorHead,
    pub cells: &'a [Cell],
}

impl fmt::Display for FloorText<'_> {
    fn fmt<W: fmt::Write>(&self, f: &mut fmt::Formatter<W>) -> fmt::Result {
        let head = self.head;
        let rows = self.head.rows as usize;
        // `chunks` asks for a width above 0; a head that was read has one.
        let width = self.head.columns.max(1) as usize;
        write!(f, "{head}")?;
        for cells in self.cells.chunks(width).take(rows) {
            let row = Row { cells };
            write!(f, "\n{row}")?;
        }
        Ok(())
    }
}

#[derive(Clone, Copy)]
pub struct TapeText<'a> {
    pub head: TapeHead,
    pub places: &'a [Place],
    pub lanes: &'a [Lane],
}

impl TapeText<'_> {
    fn write_places<W: fmt::Write>(&self, f: &mut fmt::Formatter<W>) -> fmt::Result {
        let count = self.head.places as usize;
        for (number, place) in self.places.iter().take(count).enumerate() {
            let x = place.x;
            let y = place.y;
            write!(f, "\n{number}: {x} {y}")?;
        }
        Ok(())
    }

    fn write_lanes<W: fmt::Write>(&self, f: &mut fmt::Formatter<W>) -> fmt::Result {
        let count = self.head.lanes as usize;
        for (number, lane) in self.lanes.iter().take(count).enumerate() {
            let from = lane.from;
            let to = lane.to;
            let floor = lane.floor;
            let state = lane.state;
            write!(f, "\n{number}: {from} {to} {floor} {state}")?;
        }
        Ok(())
    }
}

impl fmt::Display for TapeText<'_> {
    fn fmt<W: fmt::Write>(&self, f: &mut fmt::Formatter<W>) -> fmt::Result {
        let head = self.head;
        write!(f, "{head}")?;
        self.write_places(f)?;
        self.write_lanes(f)
    }
}
