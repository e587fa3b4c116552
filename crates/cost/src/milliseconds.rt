// Costs in milliseconds.
ghost use Rattle.cost.specs.Milliseconds.{milliseconds};
ghost use Rattle.cost.specs.MillisecondsLaws.{milliseconds_laws, milliseconds_positive};

use crate::{Cost, PositiveCost};

// The count has 64 bits, since the sum of two counts within the ceiling passes 32.
#[derive(Clone, Copy, PartialEq, Eq, PartialOrd, Ord, Debug)]
pub struct Milliseconds {
    pub count: u64,
}

const CEILING: u64 = 4_095_000_000;

const SHORTEST_SEGMENT: u64 = 1;

const LONGEST_SEGMENT: u64 = 1_000_000;

impl Cost for Milliseconds {
    ghost kind = { milliseconds };

    ghost lawful = { milliseconds_laws };

    fn zero() -> Self {
        Milliseconds { count: 0 }
    }

    fn ceiling() -> Self {
        Milliseconds { count: CEILING }
    }

    fn at_most(self, other: Self) -> bool {
        self <= other
    }

    fn is_within(self) -> bool {
        self.count <= CEILING
    }

    fn is_segment(self) -> bool {
        (SHORTEST_SEGMENT..=LONGEST_SEGMENT).contains(&self.count)
    }

    fn sum(self, other: Self) -> Self {
        Milliseconds {
            count: self.count + other.count,
        }
    }

    fn less(self, other: Self) -> Self {
        Milliseconds {
            count: self.count.saturating_sub(other.count),
        }
    }

    fn cut(self) -> Self {
        Milliseconds {
            count: self.count.min(CEILING),
        }
    }
}

impl PositiveCost for Milliseconds {
    ghost positive = { milliseconds_positive };
}
