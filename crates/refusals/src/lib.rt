// Why a call is refused. A call puts its questions in a fixed order, and the first that is answered no is the reason.
#![tactic(auto)]

ghost use Rattle.std.specs.Prelude.{◌≡◌};
ghost use Rattle.refusals.specs.Refusals.{refusal_number};

#[derive(Clone, Copy, Debug, PartialEq, Eq)]
pub enum Refusal {
    // The planner is not opened.
    NotOpened = 1,
    // A place that is named is none of the site's.
    UnknownPlace = 2,
    // The segment is none of the site's.
    UnknownSegment = 3,
    // The segment cannot be set.
    NotSettable = 4,
    // The new state is neither closed nor a segment cost that is not under the floor.
    CostOutsideLimits = 5,
    // The stamp is before the last one that was granted.
    StampGoingBack = 6,
    // Sheet, queue or list has fewer entries than the site has places.
    ShortMemory = 7,
    // The estimates on the sheet are not sound.
    UnsoundSheet = 8,
    // The segment is not barred, and as many others are as there may be.
    BarsFull = 9,
}

impl Refusal {
    // The number of the question that was answered no.
    pub fn number(self) -> u8
        ensures { result ≡ refusal_number self }
    {
        self as u8
    }
}
