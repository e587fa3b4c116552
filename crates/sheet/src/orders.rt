// The orders of places by a key of their records: by the estimate, or by the sum of distance and estimate.
ghost use Rattle.std.specs.Prelude.{◌≡◌};
ghost use Rattle.cost.specs.Costs.{Kind};
ghost use Rattle.cost.specs.declared.lengths.Length.{Length};
ghost use Rattle.sheet.specs.declared.Entry.{Entry};
ghost use Rattle.sheet.specs.Sheets.{Keyed, by, HasEstimate, estimate_key, HasSum, sum_key, ranks_by_key};

use crate::Entry;
use cost::{Cost, Length};
use queue::Priority;
use std::marker::PhantomData;

// What places are compared by.
pub trait Key {
    // The entries from which it can be worked out.
    ghost reads: { (C : Type 0) → Kind C → Entry C → Type 0 };

    ghost key: { (C : Type 0) → Kind C → Entry C → Length C };

    fn of<C: Cost>(entry: Entry<C>) -> Length<C>
        requires { reads C C.Cost.kind entry }
        ensures { result ≡ key C C.Cost.kind entry };
}

// By the estimate, which every entry has.
pub struct Estimate;

impl Key for Estimate {
    ghost reads = { λ C. HasEstimate };

    ghost key = { λ C. estimate_key };

    fn of<C: Cost>(entry: Entry<C>) -> Length<C> {
        entry.estimate
    }
}

// By the sum of distance and estimate.
pub struct Sum;

impl Key for Sum {
    ghost reads = { λ C. HasSum };

    ghost key = { λ C. sum_key };

    fn of<C: Cost>(entry: Entry<C>) -> Length<C> {
        entry.sum()
    }
}

// Places by a key, the least first.
#[derive(Drop)]
pub struct By<'a, K, C> {
    pub sheet: &'a [Entry<C>],
    key: PhantomData<K>,
}

impl<'a, K: Key, C: Cost> By<'a, K, C> {
    pub fn new(sheet: &'a [Entry<C>]) -> Self
        ensures { result.sheet.now ≡ sheet.now }
    {
        By {
            sheet,
            key: PhantomData,
        }
    }
}

impl<'a, K: Key, C: Cost> Priority for By<'a, K, C> {
    ghost covers = { λ s. Keyed (K.reads C C.Cost.kind) s.sheet.now };

    ghost before = { λ s. by C.Cost.kind (K.key C C.Cost.kind) s.sheet.now };

    fn at_most(&self, a: u16, b: u16) -> bool {
        let first = K::of(self.sheet[a as usize]);
        let second = K::of(self.sheet[b as usize]);
        first.is_at_most(second)
    }

    ghost ranks = { λ s. ranks_by_key C.lawful (K.key C C.Cost.kind) s.sheet.now };
}
