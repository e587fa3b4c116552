// The places of a tape: their records, and finding one by its number in the bytes of the file.
ghost use Rattle.std.specs.Prelude.{◌≡◌, ◌*◌, ◌<◌, ◌≤◌, length, MatchResult};
ghost use Rattle.sitefile.specs.Readers.{ahead, size};
ghost use Rattle.sitefile.specs.Formats.{FieldRead, FieldFault};
ghost use Rattle.sitefile.specs.Tapes.{zigzag, is_coordinate_number, places};

use crate::fault::Fault;
use crate::reader::Reader;
use crate::records::Layout;
use arrayvec::ArrayVec;
use tables::Place;
use tables::tape::FARTHEST;

impl Reader<'_> {
    // A coordinate: an even number is twice it, an odd one stands for one below zero.
    fn coordinate(&mut self) -> Result<i32, Fault>
        ensures size { size self.new ≡ size self.old }
        ensures read { MatchResult result (λ z. FieldRead is_coordinate_number (ahead self.old) (zigzag z) (ahead self.new)) (λ f. FieldFault (size self.old) is_coordinate_number (ahead self.old) f) }
    {
        let n = self.ranged(0, 2 * FARTHEST)?;
        let half = (n / 2) as i32;
        Ok(if n % 2 == 0 { half } else { -half - 1 })
    }
}

// Places: two coordinates each.
#[derive(Clone, Copy)]
pub(crate) struct Places;

impl Layout for Places {
    type Item = Place;

    ghost records = { λ _. places };

    fn read(&self, reader: &mut Reader<'_>) -> Result<Place, Fault> {
        let x = reader.coordinate()?;
        let y = reader.coordinate()?;
        Ok(Place::at(x, y))
    }
}

// Every so many places one is noted, so that any of them is found without walking over all.
const STRIDE: u32 = 64;

// The places of a tape as its file has them: how many, and a reader at every 64th.
#[derive(Drop)]
pub(crate) struct PlaceIndex<'a> {
    pub(crate) count: u32,
    starts: ArrayVec<Reader<'a>, 64>,
    ghost some: { 1 ≤ count },
    ghost few: { count ≤ 4096 },
    ghost all: { count ≤ 64 * length starts.items },
}

impl<'a> PlaceIndex<'a> {
    ghost use Rattle.std.specs.Prelude.{List, Some};
    ghost use Rattle.tables.specs.declared.tape.Place.{Place};
    ghost use Rattle.tables.specs.Tapes.{place_at};
    ghost use Rattle.sitefile.specs.Records.{StopsAmong};
    ghost use Rattle.sitefile.specs.TapeParts.{PlacesAt, PlacesWalked, PlacesFound};

    // Walks over so many places, and keeps a reader on the way.
    pub(crate) fn read(reader: &mut Reader<'a>, count: u32) -> Result<PlaceIndex<'a>, Fault>
        requires some { 1 ≤ count }
        requires few { count ≤ 4096 }
        ensures { MatchResult result (λ index. PlacesFound count reader.old reader.new index) (λ f. StopsAmong places count reader.old f) }
    {
        let mut starts = ArrayVec::new();
        for first in (0..count).step_by(STRIDE as usize) {
            starts.push(*reader);
            reader.pass_over(&Places, (count - first).min(STRIDE))?;
        }
        Ok(PlaceIndex { count, starts })
    }

    // The place with this number. There is none only if the bytes are not those that were walked over.
    pub(crate) fn find(&self, number: u16) -> Option<Place>
        requires { number < self.now.count }
        ensures { (ps : List Place) → PlacesAt ps self.now → result ≡ Some (place_at ps number) }
    {
        let index = number as u32;
        let starts = self.starts.as_slice();
        let mut walk = starts[(index / STRIDE) as usize];
        walk.pass_over(&Places, index % STRIDE).ok()?;
        Places.read(&mut walk).ok()
    }
}
