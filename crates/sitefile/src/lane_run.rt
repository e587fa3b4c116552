// The rules of lanes, one lane after another.
ghost use Rattle.std.specs.Prelude.{◌≤◌};

use crate::places::PlaceIndex;
use tables::tape::MOST_LEAVING;
use tables::{Lane, Place};

// The lanes so far that leave one place with the last of them: which place, where it lies, and how many they are.
#[derive(Clone, Copy)]
pub(crate) struct LaneRun {
    pub(crate) from: u16,
    pub(crate) place: Place,
    pub(crate) count: u16,
    ghost few: { count ≤ 64 },
}

impl LaneRun {
    ghost use Rattle.std.specs.Prelude.{◌≡◌, ◌+◌, ◌<◌, true, false, List, [], ◌∷◌, ◌++◌, Option, MatchOption};
    ghost use Rattle.tables.specs.declared.tape.Lane.{Lane};
    ghost use Rattle.tables.specs.declared.tape.Place.{Place};
    ghost use Rattle.sitefile.specs.Tapes.{keeps_rules};
    ghost use Rattle.sitefile.specs.TapeParts.{PlacesAt, LastRun, RunOf, NextRun};

    // With a lane more from the same place, if not as many leave it already as may.
    fn longer(self) -> Option<LaneRun>
        ensures { MatchOption result (self.count ≡ 64) (λ run. (run.from ≡ self.from) × (run.place ≡ self.place) × (run.count ≡ self.count + 1)) }
    {
        if self.count == MOST_LEAVING {
            return None;
        }
        Some(LaneRun {
            from: self.from,
            place: self.place,
            count: self.count + 1,
        })
    }

    // The run that a lane goes on or begins, if it comes in order and is not one too many.
    fn next(run: Option<LaneRun>, lane: Lane, places: &PlaceIndex<'_>) -> Option<LaneRun>
        requires { lane.from < places.now.count }
        ensures { (ps : List Place) (before : List Lane) → PlacesAt ps places.now → RunOf ps before run → MatchOption result (keeps_rules ps before lane ≡ false) (NextRun ps before lane) }
    {
        match run {
            Some(run) if lane.from < run.from => None,
            Some(run) if lane.from == run.from => run.longer(),
            _ => {
                let place = places.find(lane.from)?;
                Some(LaneRun {
                    from: lane.from,
                    place,
                    count: 1,
                })
            }
        }
    }

    // The run with a lane more, if that keeps the rules after those before it.
    pub(crate) fn with_lane(
        run: Option<LaneRun>,
        lane: Lane,
        places: &PlaceIndex<'_>,
    ) -> Option<LaneRun>
        requires from { lane.from < places.now.count }
        requires to { lane.to < places.now.count }
        ensures { (ps : List Place) (before : List Lane) → PlacesAt ps places.now → RunOf ps before run → MatchOption result (keeps_rules ps before lane ≡ false) (λ next. (keeps_rules ps before lane ≡ true) × LastRun ps (before ++ lane ∷ []) next) }
    {
        let run = LaneRun::next(run, lane, places)?;
        let end = places.find(lane.to)?;
        if lane.floor.milliseconds < run.place.larger_difference(end) {
            return None;
        }
        if !lane.state.is_not_under(lane.floor) {
            return None;
        }
        Some(run)
    }
}
