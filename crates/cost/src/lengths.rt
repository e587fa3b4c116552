// Lengths: a cost of one kind, or infinite.
ghost use Rattle.std.specs.Prelude.{◌≡◌};
ghost use Rattle.cost.specs.Lengths.{Within, length_le, length_within, sum, remainder, cut_length, lesser, greater, origin, LengthLaws};

use crate::Cost;

// An infinite length is above every cost: the length of a route that does not exist, called "none" in what is printed. It is no `Option`,
// whose `None` is the least. Its order is not derived: a kind's order is its `at_most`, and a second one would need a law that they agree.
#[derive(Clone, Copy, PartialEq, Eq, Debug)]
pub enum Length<C> {
    Finite(C),
    Infinite,
}

impl<C: Cost> Length<C> {
    pub fn zero() -> Self
        ensures { result ≡ origin C.Cost.kind }
    {
        Length::Finite(C::zero())
    }

    pub fn is_at_most(self, other: Self) -> bool
        ensures { result ≡ length_le C.Cost.kind self other }
    {
        match (self, other) {
            (Length::Finite(a), Length::Finite(b)) => a.at_most(b),
            (_, Length::Infinite) => true,
            (Length::Infinite, _) => false,
        }
    }

    // Whether it is infinite, or a cost within the ceiling.
    pub fn is_within(self) -> bool
        ensures { result ≡ length_within C.Cost.kind self }
    {
        match self {
            Length::Finite(a) => a.is_within(),
            Length::Infinite => true,
        }
    }

    // The sum, worked out exactly where both lie within the ceiling.
    pub fn plus(self, other: Self) -> Self
        requires { Within C.Cost.kind self × Within C.Cost.kind other }
        ensures { result ≡ sum C.Cost.kind self other }
    {
        match (self, other) {
            (Length::Finite(a), Length::Finite(b)) => Length::Finite(a.sum(b)),
            _ => Length::Infinite,
        }
    }

    // The remainder: the least length that, added to `other`, reaches `self`.
    pub fn minus(self, other: Self) -> Self
        requires { Within C.Cost.kind self × Within C.Cost.kind other }
        ensures { result ≡ remainder C.Cost.kind self other }
    {
        match (self, other) {
            (_, Length::Infinite) => Self::zero(),
            (Length::Infinite, Length::Finite(_)) => Length::Infinite,
            (Length::Finite(a), Length::Finite(b)) => Length::Finite(a.less(b)),
        }
    }

    // The greatest length within the ceiling that is not above `self`.
    pub fn cut(self) -> Self
        ensures { result ≡ cut_length C.Cost.kind self }
    {
        match self {
            Length::Finite(a) => Length::Finite(a.cut()),
            Length::Infinite => Length::Infinite,
        }
    }

    pub fn min(self, other: Self) -> Self
        ensures { result ≡ lesser C.Cost.kind self other }
    {
        if self.is_at_most(other) { self } else { other }
    }

    pub fn max(self, other: Self) -> Self
        ensures { result ≡ greater C.Cost.kind self other }
    {
        if self.is_at_most(other) { other } else { self }
    }
}

// The lengths over every cost kind keep these laws.
pub fn lengths_are_lawful<C: Cost>()
    ensures { LengthLaws C.Cost.kind }
{}
