// The file of a tape: after its first byte the counts of places and lanes, then the places, then the lanes.
ghost use Rattle.std.specs.Prelude.{◌≡◌, MatchResult};
ghost use Rattle.sitefile.specs.Readers.{ahead, size};
ghost use Rattle.sitefile.specs.Formats.{FirstFault};
ghost use Rattle.sitefile.specs.Tapes.{tape_format, CountsRead, LoadsTape};

use crate::fault::{Cause, Fault};
use crate::lanes::Lanes;
use crate::places::{PlaceIndex, Places};
use crate::reader::Reader;
use tables::tape::{MOST_LANES, MOST_PLACES};
use tables::{Lane, Place, TapeHead};

impl Reader<'_> {
    // The counts of a tape that is to be read into tables with so many entries.
    fn tape_head(&mut self, place_entries: usize, lane_entries: usize) -> Result<TapeHead, Fault>
        ensures size { size self.new ≡ size self.old }
        ensures read { MatchResult result (λ head. CountsRead place_entries lane_entries (ahead self.old) head (ahead self.new)) (λ f. FirstFault (size self.old) (tape_format place_entries lane_entries) (ahead self.old) f) }
    {
        let places = self.ranged(1, MOST_PLACES)?;
        let lanes = self.ranged(0, MOST_LANES)?;
        if place_entries < places as usize || lane_entries < lanes as usize {
            return Err(Cause::SmallTable.at(0));
        }
        Ok(TapeHead { places, lanes })
    }
}

// The tape after the first byte: one walk checks its places and lanes, the next fills the tables.
pub(crate) fn load_tape(
    mut reader: Reader<'_>,
    places: &mut [Place],
    lanes: &mut [Lane],
) -> Result<TapeHead, Fault>
    ensures { LoadsTape (size reader.entry) (ahead reader.entry) places.old places.new lanes.old lanes.new result }
{
    let head = reader.tape_head(places.len(), lanes.len())?;
    let mut walk = reader;
    let index = PlaceIndex::read(&mut walk, head.places)?;
    walk.check_lanes(head.lanes, &index)?;
    walk.end()?;
    reader.fill(&Places, &mut places[..head.places as usize])?;
    let layout = Lanes {
        places: head.places,
    };
    reader.fill(&layout, &mut lanes[..head.lanes as usize])?;
    Ok(head)
}
