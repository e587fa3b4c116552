// Bars over any site, which are a site again: the one below with some segments closed and not settable.
#![tactic(auto)]

ghost use Rattle.std.specs.Prelude.{◌≡◌, [], ◌∷◌, if◌then◌else◌};
ghost use Rattle.bars.specs.Barred.{below, barred, among, barred_site, bars_meaning, with_bar, bar_answer};
ghost use Rattle.bars.specs.BarsLaws.{bars_lawful, bars_indexed};
ghost use Rattle.refusals.specs.Refusals.{is_granted};

use arrayvec::ArrayVec;
use cost::{Cost, Length};
use refusals::Refusal;
use site::{Site, Way};

// How many segments may be barred.
pub const MOST_BARS: usize = 64;

#[derive(Drop)]
pub struct Bars<S> {
    site: S,
    // The barred segments, in the order in which they were named.
    barred: ArrayVec<u16, MOST_BARS>,
}

impl<S: Site> Bars<S> {
    // Bars over a site, none barred yet.
    pub fn new(site: S) -> Bars<S>
        ensures below { below result ≡ site }
        ensures barred { barred result ≡ [] }
        ensures meaning { bars_meaning S.Site.meaning result ≡ S.Site.meaning site }
    {
        Bars {
            site,
            barred: ArrayVec::new(),
        }
    }

    // Bars a segment of the site below. One that is barred already stays so, even where no other could be barred.
    pub fn bar(&mut self, segment: u16) -> Result<(), Refusal>
        ensures answer { result ≡ bar_answer (S.Site.meaning (below self.old)) (barred self.old) segment }
        ensures below { below self.new ≡ below self.old }
        ensures barred { barred self.new ≡ (if is_granted result then with_bar (barred self.old) segment else barred self.old) }
        ensures meaning { bars_meaning S.Site.meaning self.new ≡ (if is_granted result then barred_site (bars_meaning S.Site.meaning self.old) (segment ∷ []) else bars_meaning S.Site.meaning self.old) }
    {
        if self.site.segments() <= segment {
            return Err(Refusal::UnknownSegment);
        }
        if self.is_barred(segment) {
            return Ok(());
        }
        self.barred.try_push(segment).map_err(|_| Refusal::BarsFull)
    }

    // Whether a segment is barred here. One that only bars below it bar is not.
    pub fn is_barred(&self, segment: u16) -> bool
        ensures { result ≡ among (barred self.now) segment }
    {
        // Mostly none or one is barred, and `contains` is made for long rows.
        match self.barred.as_slice() {
            [] => false,
            [only] => *only == segment,
            many => many.contains(&segment),
        }
    }
}

impl<S: Site> Site for Bars<S> {
    type Cost = S::Cost;

    ghost meaning = { bars_meaning S.Site.meaning };

    ghost directory = { λ b. S.Site.directory (below b) };

    ghost lawful = { λ b. bars_lawful (barred b) (S.Site.lawful (below b)) };

    ghost indexed = { λ b. bars_indexed (barred b) (S.Site.indexed (below b)) };

    fn places(&self) -> u16 {
        self.site.places()
    }

    fn segments(&self) -> u16 {
        self.site.segments()
    }

    fn way(&self, place: u16, index: u16) -> Option<Way> {
        self.site.way(place, index)
    }

    fn source(&self, place: u16, index: u16) -> Option<u16> {
        self.site.source(place, index)
    }

    fn user(&self, segment: u16, index: u16) -> Option<u16> {
        self.site.user(segment, index)
    }

    fn floor(&self, segment: u16) -> Option<S::Cost> {
        self.site.floor(segment)
    }

    fn state(&self, segment: u16) -> Option<Length<S::Cost>> {
        self.site.state(segment).map(|below| {
            if self.is_barred(segment) {
                Length::Infinite
            } else {
                below
            }
        })
    }

    fn settable(&self, segment: u16) -> Option<bool> {
        self.site
            .settable(segment)
            .map(|below| below && !self.is_barred(segment))
    }

    fn hint(&self, place: u16, target: u16) -> Option<S::Cost> {
        self.site.hint(place, target)
    }

    fn close(&mut self, segment: u16) -> bool {
        !self.is_barred(segment) && self.site.close(segment)
    }

    fn set_cost(&mut self, segment: u16, cost: S::Cost) -> bool {
        !self.is_barred(segment) && self.site.set_cost(segment, cost)
    }
}
