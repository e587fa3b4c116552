// A site: the places, ways and segments that carts drive on, known only by the questions it answers.
#![tactic(auto)]

ghost use Rattle.std.specs.Prelude.{◌≡◌, ◌<◌};
ghost use Rattle.cost.specs.declared.lengths.Length.TheVariants.{Finite, Infinite};
ghost use Rattle.routes.specs.Sites.{Meaning, Lawful, allowed};
ghost use Rattle.site.specs.Questions.{WayAt, state_of, floor_of, settable_of, hint_of, can_set, after_set};
ghost use Rattle.site.specs.Directories.{Directory, Indexed, source_of, user_of};
ghost use Rattle.site.specs.WaysOut.{ways_of, ways_left};
ghost use Rattle.std.specs.Iterator.{YieldsFirst, item_count};

use cost::{Cost, Length, PositiveCost};

// A way out of a place: the place it ends at and the segment it uses.
#[derive(Clone, Copy, Debug, PartialEq, Eq)]
pub struct Way {
    pub end: u16,
    pub segment: u16,
}

// A question leaves the meaning as it is and answers by it; `None` stands for "absent", the answer for a number out of range.
pub trait Site {
    // The one kind that all costs of the site are of.
    type Cost: PositiveCost;

    ghost meaning: { Self → Meaning Self.Cost };

    // Where to look for the ways into a place, and for those over a segment.
    ghost directory: { Self → Directory };

    // The count of places.
    fn places(&self) -> u16
        ensures { result ≡ (meaning self.now).places };

    // The count of segments.
    fn segments(&self) -> u16
        ensures { result ≡ (meaning self.now).segments };

    // The way out of a place at an index from 0 on.
    fn way(&self, place: u16, index: u16) -> Option<Way>
        ensures { WayAt (meaning self.now) place index result };

    // A place that may have a way into a place, at an index from 0 on; every other place that has one is among them.
    fn source(&self, place: u16, index: u16) -> Option<u16>
        ensures { result ≡ source_of (meaning self.now) (directory self.now) place index };

    // A place that may have a way over a segment, at an index from 0 on; every place that has one to another place is among them.
    fn user(&self, segment: u16, index: u16) -> Option<u16>
        ensures { result ≡ user_of (meaning self.now) (directory self.now) segment index };

    // The least cost that a segment may be set to.
    fn floor(&self, segment: u16) -> Option<Self::Cost>
        ensures { result ≡ floor_of (meaning self.now) segment };

    // The present cost of a segment, infinite while it is closed.
    fn state(&self, segment: u16) -> Option<Length<Self::Cost>>
        ensures { result ≡ state_of (meaning self.now) segment };

    // Whether a segment can be set.
    fn settable(&self, segment: u16) -> Option<bool>
        ensures { result ≡ settable_of (meaning self.now) segment };

    // A cost that no route from a place to a target is under.
    fn hint(&self, place: u16, target: u16) -> Option<Self::Cost>
        ensures { result ≡ hint_of (meaning self.now) place target };

    // Closes a segment that exists and can be set; of any other it says no and changes nothing. Not one method with `set_cost`, which would
    // take a `Length`: each site would have to write that method's three clauses again.
    fn close(&mut self, segment: u16) -> bool
        ensures answer { result ≡ can_set Self.Cost.Cost.kind (meaning self.old) segment Infinite }
        ensures after { meaning self.new ≡ after_set Self.Cost.Cost.kind (meaning self.old) segment Infinite }
        ensures directory { directory self.new ≡ directory self.old };

    // Sets a segment that exists and can be set to a segment cost not under its floor; to any other setting it says no and changes nothing.
    fn set_cost(&mut self, segment: u16, cost: Self::Cost) -> bool
        ensures answer { result ≡ can_set Self.Cost.Cost.kind (meaning self.old) segment (Finite cost) }
        ensures after { meaning self.new ≡ after_set Self.Cost.Cost.kind (meaning self.old) segment (Finite cost) }
        ensures directory { directory self.new ≡ directory self.old };

    // Every site keeps the rules of sites.
    ghost lawful: { (s : Self) → Lawful Self.Cost.Cost.kind (meaning s) };

    // A directory leaves out no way.
    ghost indexed: { (s : Self) → Indexed (meaning s) (directory s) };
}

// The ways out of a place, each in its turn.
#[derive(Drop)]
pub struct Ways<'a, S> {
    site: &'a S,
    place: u16,
    index: u16,
}

impl<'a, S: Site> Ways<'a, S> {
    // All ways out of a place.
    pub fn of(site: &'a S, place: u16) -> Ways<'a, S>
        ensures { ways_left S.Site.meaning result ≡ ways_of (S.Site.meaning site.now) place }
    {
        Ways {
            site,
            place,
            index: 0,
        }
    }
}

impl<'a, S: Site> Iterator for Ways<'a, S> {
    type Item = Way;

    ghost next_gives = { YieldsFirst (ways_left S.Site.meaning) };

    ghost remaining = { item_count (ways_left S.Site.meaning) };

    fn next(&mut self) -> Option<Way> {
        let way = self.site.way(self.place, self.index)?;
        self.index += 1;
        Some(way)
    }
}

// Whether a segment with this floor may be set so: closed, or to a segment cost not under the floor.
pub fn is_allowed<C: Cost>(floor: C, state: Length<C>) -> bool
    ensures { result ≡ allowed C.Cost.kind floor state }
{
    match state {
        Length::Infinite => true,
        Length::Finite(cost) => cost.is_segment() && floor.at_most(cost),
    }
}

// Sets a segment, or says no and changes nothing: the one call made of `close` and `set_cost`.
pub fn set_state<S: Site>(site: &mut S, segment: u16, state: Length<S::Cost>) -> bool
    ensures answer { result ≡ can_set S.Cost.Cost.kind (S.Site.meaning site.old) segment state }
    ensures after { S.Site.meaning site.new ≡ after_set S.Cost.Cost.kind (S.Site.meaning site.old) segment state }
{
    match state {
        Length::Infinite => site.close(segment),
        Length::Finite(cost) => site.set_cost(segment, cost),
    }
}

// The present cost of a segment of the site.
pub fn cost_over<S: Site>(site: &S, segment: u16) -> Length<S::Cost>
    requires { segment < (S.Site.meaning site.now).segments }
    ensures { result ≡ (S.Site.meaning site.now).state segment }
{
    site.state(segment).unwrap_or(Length::Infinite)
}
