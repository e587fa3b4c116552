// Costs that are compared by crossings first, and by time where those are equal.
ghost use Rattle.std.specs.Prelude.{◌≡◌};
ghost use Rattle.cost.specs.CrossingsFirst.{pair, crossings_first};
ghost use Rattle.cost.specs.CrossingsFirstLaws.{crossings_first_laws, crossings_first_positive};

use crate::milliseconds::Milliseconds;
use crate::{Cost, PositiveCost};

#[derive(Clone, Copy, PartialEq, Eq, PartialOrd, Ord, Debug)]
pub struct CrossingsFirst {
    pub crossings: u32,
    pub time: Milliseconds,
}

const CEILING: u32 = 409_500;

const MOST_ON_SEGMENT: u32 = 100;

impl CrossingsFirst {
    pub fn new(crossings: u32, milliseconds: u64) -> Self
        ensures { result ≡ pair crossings milliseconds }
    {
        CrossingsFirst {
            crossings,
            time: Milliseconds {
                count: milliseconds,
            },
        }
    }
}

impl Cost for CrossingsFirst {
    ghost kind = { crossings_first };

    ghost lawful = { crossings_first_laws };

    fn zero() -> Self {
        CrossingsFirst {
            crossings: 0,
            time: Milliseconds::zero(),
        }
    }

    fn ceiling() -> Self {
        CrossingsFirst {
            crossings: CEILING,
            time: Milliseconds::ceiling(),
        }
    }

    fn at_most(self, other: Self) -> bool {
        self <= other
    }

    fn is_within(self) -> bool {
        self.crossings <= CEILING && self.time.is_within()
    }

    fn is_segment(self) -> bool {
        self.crossings <= MOST_ON_SEGMENT && self.time.is_segment()
    }

    fn sum(self, other: Self) -> Self {
        CrossingsFirst {
            crossings: self.crossings + other.crossings,
            time: self.time.sum(other.time),
        }
    }

    fn less(self, other: Self) -> Self {
        if self.crossings < other.crossings {
            Self::zero()
        } else {
            CrossingsFirst {
                crossings: self.crossings - other.crossings,
                time: self.time.less(other.time),
            }
        }
    }

    fn cut(self) -> Self {
        if self.crossings <= CEILING {
            CrossingsFirst {
                crossings: self.crossings,
                time: self.time.cut(),
            }
        } else {
            Self::ceiling()
        }
    }
}

impl PositiveCost for CrossingsFirst {
    ghost positive = { crossings_first_positive };
}
