// The planner over any site.
#![tactic(auto)]

ghost use Rattle.std.specs.Prelude.{◌≡◌, None, Ok, Err, cond, length};
ghost use Rattle.planner.specs.Trips.{trip_of};
ghost use Rattle.planner.specs.Calls.{OpenAnswer, Opens, MoveAnswer, Moves, RetargetAnswer, Retargets, SearchAnswer, Searches};

mod passes;

use cost::{Cost, Length};
use passes::renew;
use refusals::Refusal;
use search::{Found, search};
use sheet::Entry;
use site::Site;
use soundness::is_sound;

// What a planner is opened with.
#[derive(Clone, Copy)]
struct Trip {
    start: u16,
    target: u16,
    // The last stamp that was granted.
    stamp: u64,
}

// A planner holds its site; sheet, queue and list are lent at each call.
#[derive(Drop)]
pub struct Planner<S> {
    site: S,
    // None until it is opened.
    trip: Option<Trip>,
}

// Puts a question: where it is answered no, the refusal is the answer of the call.
fn ask(answer: bool, refusal: Refusal) -> Result<(), Refusal>
    ensures { result ≡ cond answer (Ok tt) (Err refusal) }
{
    if answer { Ok(()) } else { Err(refusal) }
}

impl<S: Site> Planner<S> {
    // A planner that is not opened yet.
    pub fn new(site: S) -> Planner<S>
        ensures { (result.site ≡ site) × (result.trip ≡ None) }
    {
        Planner { site, trip: None }
    }

    // The trip of a planner that is opened. That its start and target are places is asked here: a type that kept it would ask of every
    // mention of a planner that what it holds is a site.
    fn opened(&self) -> Option<Trip>
        ensures { result ≡ trip_of (S.Site.meaning self.now.site) self.now }
    {
        let places = self.site.places();
        self.trip
            .filter(|trip| trip.start < places && trip.target < places)
    }

    // Takes the start and the target, and fills each estimate with the hint.
    pub fn open(
        &mut self,
        start: u16,
        target: u16,
        sheet: &mut [Entry<S::Cost>],
    ) -> Result<(), Refusal>
        ensures answer { OpenAnswer S.Cost.Cost.kind (S.Site.meaning self.old.site) self.old start target (length sheet.old) result }
        ensures after { Opens S.Cost.Cost.kind (S.Site.meaning self.old.site) self.old start target result self.new sheet.old sheet.new }
    {
        let places = self.site.places();
        ask(start < places, Refusal::UnknownPlace)?;
        ask(target < places, Refusal::UnknownPlace)?;
        ask(places as usize <= sheet.len(), Refusal::ShortMemory)?;
        renew(&self.site, target, sheet, |hint, _| Length::Finite(hint));
        self.trip = Some(Trip {
            start,
            target,
            stamp: 0,
        });
        Ok(())
    }

    // Takes another start.
    pub fn move_to(&mut self, start: u16) -> Result<(), Refusal>
        ensures answer { MoveAnswer S.Cost.Cost.kind (S.Site.meaning self.old.site) self.old start result }
        ensures after { Moves S.Cost.Cost.kind (S.Site.meaning self.old.site) self.old start result self.new }
    {
        let trip = self.opened().ok_or(Refusal::NotOpened)?;
        ask(start < self.site.places(), Refusal::UnknownPlace)?;
        self.trip = Some(Trip { start, ..trip });
        Ok(())
    }

    // Takes another target, and turns the estimates to it: each becomes the greater of the hint and of itself less the estimate there.
    pub fn retarget(&mut self, target: u16, sheet: &mut [Entry<S::Cost>]) -> Result<(), Refusal>
        ensures answer { RetargetAnswer S.Cost.Cost.kind (S.Site.meaning self.old.site) self.old target sheet.old result }
        ensures after { Retargets S.Cost.Cost.kind (S.Site.meaning self.old.site) self.old target result self.new sheet.old sheet.new }
    {
        let trip = self.opened().ok_or(Refusal::NotOpened)?;
        let places = self.site.places();
        ask(target < places, Refusal::UnknownPlace)?;
        ask(places as usize <= sheet.len(), Refusal::ShortMemory)?;
        ask(
            is_sound(&self.site, trip.target, sheet),
            Refusal::UnsoundSheet,
        )?;
        let there = sheet[target as usize].estimate;
        renew(&self.site, target, sheet, |hint, estimate| {
            Length::Finite(hint).max(estimate.minus(there))
        });
        self.trip = Some(Trip { target, ..trip });
        Ok(())
    }

    // Searches for a cheapest route from the start to the target.
    pub fn search(
        &self,
        sheet: &mut [Entry<S::Cost>],
        queue: &mut [u16],
        list: &mut [u16],
    ) -> Result<Found<S::Cost>, Refusal>
        ensures answer { SearchAnswer S.Cost.Cost.kind (S.Site.meaning self.now.site) self.now sheet.old queue.old list.old result }
        ensures after { Searches S.Cost.Cost.kind (S.Site.meaning self.now.site) self.now result sheet.old sheet.new queue.old queue.new list.old list.new }
    {
        let trip = self.opened().ok_or(Refusal::NotOpened)?;
        let places = self.site.places() as usize;
        ask(places <= sheet.len(), Refusal::ShortMemory)?;
        ask(places <= queue.len(), Refusal::ShortMemory)?;
        ask(places <= list.len(), Refusal::ShortMemory)?;
        ask(
            is_sound(&self.site, trip.target, sheet),
            Refusal::UnsoundSheet,
        )?;
        Ok(search(&self.site, trip.start, trip.target, sheet, queue, list))
    }

    // The site, once the planner is no longer wanted.
    pub fn end(self) -> S
        ensures { result ≡ self.site }
    {
        let Planner { site, trip: _ } = self;
        site
    }
}
