// Comparisons of which one value is a total preorder, and another of its type need not be.
ghost use Rattle.std.specs.Prelude.{◌≡◌, ℕ, Bool};
ghost use Rattle.queue.specs.Order.{Ranks};

use crate::Priority;

// How a value compares places.
pub trait Comparison {
    // The places that it can compare.
    ghost covers: { Self → ℕ → Type 0 };

    // Is the first place at most the second?
    ghost before: { Self → ℕ → ℕ → Bool };

    fn at_most(&self, a: u16, b: u16) -> bool
        requires { covers self.now a × covers self.now b }
        ensures { result ≡ before self.now a b };
}

// A comparison that is known to be a total preorder, as the priority of a queue.
#[derive(Drop)]
pub struct Ranked<'a, P: Comparison> {
    order: &'a P,
    ghost ranked: { Ranks (P.before order.now) },
}

impl<'a, P: Comparison> Ranked<'a, P> {
    pub fn new(order: &'a P) -> Ranked<'a, P>
        requires { Ranks (P.before order.now) }
        ensures { result.order.now ≡ order.now }
    {
        Ranked { order }
    }
}

impl<'a, P: Comparison> Priority for Ranked<'a, P> {
    ghost covers = { λ s. P.covers s.order.now };

    ghost before = { λ s. P.before s.order.now };

    fn at_most(&self, a: u16, b: u16) -> bool {
        self.order.at_most(a, b)
    }

    ghost ranks = { λ s. s.ranked };
}
