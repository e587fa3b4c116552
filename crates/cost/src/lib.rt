// Cost kinds, with the laws that each keeps, and the lengths over a kind.
#![tactic(auto)]

ghost use Rattle.std.specs.Prelude.{◌≡◌, true};
ghost use Rattle.cost.specs.Costs.{Kind, Laws, Positive};

pub mod crossings_first;
pub mod lengths;
pub mod milliseconds;

pub use crossings_first::CrossingsFirst;
pub use lengths::Length;
pub use milliseconds::Milliseconds;

// A cost kind: an order, a sum, a zero, a remainder and a ceiling.
pub trait Cost: Copy {
    ghost kind: { Kind Self };

    fn zero() -> Self
        ensures { result ≡ kind.zero };

    fn ceiling() -> Self
        ensures { result ≡ kind.ceiling };

    fn at_most(self, other: Self) -> bool
        ensures { result ≡ kind.le self other };

    // Whether it lies within the ceiling. Not every cost that is at most the ceiling does.
    fn is_within(self) -> bool
        ensures { result ≡ kind.within self };

    // Whether it can be the cost of one segment.
    fn is_segment(self) -> bool
        ensures { result ≡ kind.segment self };

    // The sum, worked out exactly where both lie within the ceiling.
    fn sum(self, other: Self) -> Self
        requires { (kind.within self ≡ true) × (kind.within other ≡ true) }
        ensures { result ≡ kind.add self other };

    // The remainder: the least cost that, added to `other`, reaches `self`.
    fn less(self, other: Self) -> Self
        requires { (kind.within self ≡ true) × (kind.within other ≡ true) }
        ensures { result ≡ kind.less self other };

    // The greatest cost within the ceiling that is not above `self`.
    fn cut(self) -> Self
        ensures { result ≡ kind.cut self };

    ghost lawful: { Laws kind };
}

// A cost kind in which every segment costs more than zero.
pub trait PositiveCost: Cost {
    ghost positive: { Positive Self.Cost.kind };
}
