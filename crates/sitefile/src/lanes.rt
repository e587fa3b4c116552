// The lanes of a tape: their records, and the walk that asks their rules.
ghost use Rattle.std.specs.Prelude.{◌≡◌, ◌<◌, ◌≤◌, MatchResult, nat_lt};
ghost use Rattle.sitefile.specs.Readers.{ahead, size};
ghost use Rattle.sitefile.specs.Formats.{FieldRead, FieldFault};
ghost use Rattle.sitefile.specs.Records.{Reads};
ghost use Rattle.sitefile.specs.Tapes.{costs, states, lane_numbers};

use crate::fault::{Cause, Fault};
use crate::lane_run::LaneRun;
use crate::places::PlaceIndex;
use crate::reader::Reader;
use crate::records::Layout;
use tables::tape::MOST_CROSSINGS;
use tables::{LONGEST_SEGMENT, Lane, LaneCost, LaneState};

impl Reader<'_> {
    fn cost(&mut self) -> Result<LaneCost, Fault>
        ensures { Reads costs self.old self.new result }
    {
        let crossings = self.ranged(0, MOST_CROSSINGS)?;
        let milliseconds = self.ranged(1, LONGEST_SEGMENT)?;
        Ok(LaneCost {
            crossings,
            milliseconds,
        })
    }

    // 0 for closed, or 1 and the present cost.
    fn state(&mut self) -> Result<LaneState, Fault>
        ensures { Reads states self.old self.new result }
    {
        match self.ranged(0, 1)? {
            0 => Ok(LaneState::Closed),
            _ => Ok(LaneState::Open(self.cost()?)),
        }
    }
}

// The lanes between so many places, by their numbers alone.
#[derive(Clone, Copy)]
pub(crate) struct Lanes {
    pub(crate) places: u32,
    ghost some: { 1 ≤ places },
    ghost few: { places ≤ 4096 },
}

impl Lanes {
    // The number of one of the places.
    fn place(&self, reader: &mut Reader<'_>) -> Result<u16, Fault>
        ensures size { size reader.new ≡ size reader.old }
        ensures read { MatchResult result (λ n. FieldRead (λ p. nat_lt p self.now.places) (ahead reader.old) n (ahead reader.new)) (λ f. FieldFault (size reader.old) (λ p. nat_lt p self.now.places) (ahead reader.old) f) }
    {
        let n = reader.ranged(0, self.places - 1)?;
        Ok(n as u16)
    }
}

impl Layout for Lanes {
    type Item = Lane;

    ghost records = { λ layout. lane_numbers layout.places };

    fn read(&self, reader: &mut Reader<'_>) -> Result<Lane, Fault> {
        let from = self.place(reader)?;
        let to = self.place(reader)?;
        let floor = reader.cost()?;
        let state = reader.state()?;
        Ok(Lane::new(from, to, floor, state))
    }
}

impl Reader<'_> {
    ghost use Rattle.std.specs.Prelude.{List};
    ghost use Rattle.tables.specs.declared.tape.Place.{Place};
    ghost use Rattle.sitefile.specs.Records.{Walked, StopsAmong};
    ghost use Rattle.sitefile.specs.Tapes.{lanes};
    ghost use Rattle.sitefile.specs.TapeParts.{PlacesAt};

    // Walks over `count` lanes between the places, and asks their rules. Not by `pass_over`, since a rule needs the lanes before.
    pub(crate) fn check_lanes(&mut self, count: u32, places: &PlaceIndex<'_>) -> Result<(), Fault>
        ensures { (ps : List Place) → PlacesAt ps places.now → MatchResult result (λ _. Walked (lanes places.now.count ps) count self.old self.new) (λ f. StopsAmong (lanes places.now.count ps) count self.old f) }
    {
        let layout = Lanes {
            places: places.count,
        };
        let mut run = None;
        for _i in 0..count {
            let first = self.at;
            let lane = layout.read(self)?;
            let Some(next) = LaneRun::with_lane(run, lane, places) else {
                return Err(Cause::BrokenRule.at(first));
            };
            run = Some(next);
        }
        Ok(())
    }
}
