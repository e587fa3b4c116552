// A site file of any kind: its first byte decides how all bytes after it are read.
ghost use Rattle.sitefile.specs.Sites.{tables_of, Loads};

use crate::fault::{Cause, Fault};
use crate::floor::load_floor;
use crate::reader::Reader;
use crate::tape::load_tape;
use tables::{Cell, FloorHead, Lane, Place, TapeHead};

// The byte that the file of a floor begins with.
const FLOOR: u8 = 0x46;

// The byte that the file of a tape begins with.
const TAPE: u8 = 0x54;

// The numbers that a file's tables are read by.
#[derive(Clone, Copy, Debug, PartialEq, Eq)]
pub enum SiteHead {
    Floor(FloorHead),
    Tape(TapeHead),
}

// Reads a site file into the tables of its kind, which a fault leaves as they were.
pub fn load(
    file: &[u8],
    cells: &mut [Cell],
    places: &mut [Place],
    lanes: &mut [Lane],
) -> Result<SiteHead, Fault>
    ensures { Loads file.now (tables_of cells.old places.old lanes.old) (tables_of cells.new places.new lanes.new) result }
{
    let [kind, rest @ ..] = file else {
        return Err(Cause::MissingByte.at(0));
    };
    match *kind {
        FLOOR => {
            let head = load_floor(Reader::after_kind(rest), cells)?;
            Ok(SiteHead::Floor(head))
        }
        TAPE => {
            let head = load_tape(Reader::after_kind(rest), places, lanes)?;
            Ok(SiteHead::Tape(head))
        }
        _ => Err(Cause::UnknownKind.at(0)),
    }
}
