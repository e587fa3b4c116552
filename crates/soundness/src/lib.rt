// Whether a sheet is sound: the question that is put anew at every call that relies on the estimates.
#![tactic(auto)]

ghost use Rattle.std.specs.Prelude.{◌≡◌, ◌<◌, ◌≤◌, length};
ghost use Rattle.cost.specs.Lengths.{Within};
ghost use Rattle.routes.specs.Estimates.{Sound};
ghost use Rattle.sheet.specs.Sheets.{estimate_of};
ghost use Rattle.soundness.specs.Checks.{Tells, AllWithin, ConsistentFrom, is_way_consistent};

use cost::{Cost, Length};
use sheet::Entry;
use site::{Site, Way, Ways, cost_over};

// Whether every cost among the estimates of the places lies within the ceiling.
fn are_within<C: Cost>(sheet: &[Entry<C>], places: u16) -> bool
    requires { places ≤ length sheet.now }
    ensures { Tells result (AllWithin C.Cost.kind places sheet.now) }
{
    sheet[..places as usize]
        .iter()
        .all(|entry| entry.estimate.is_within())
}

// Whether the estimate of a place is at most the cost of a way out of it plus the estimate at its end.
fn is_way_consistent<S: Site>(site: &S, sheet: &[Entry<S::Cost>], place: u16, way: Way) -> bool
    requires listed { (place < length sheet.now) × (way.end < length sheet.now) }
    requires segment { way.segment < (S.Site.meaning site.now).segments }
    requires within { Within S.Cost.Cost.kind (estimate_of sheet.now way.end) }
    ensures { result ≡ is_way_consistent S.Cost.Cost.kind (S.Site.meaning site.now) sheet.now place way }
{
    let beyond = sheet[way.end as usize].estimate;
    sheet[place as usize]
        .estimate
        .is_at_most(cost_over(site, way.segment).plus(beyond))
}

// Whether each open way out of a place is consistent.
fn are_ways_consistent<S: Site>(site: &S, sheet: &[Entry<S::Cost>], place: u16) -> bool
    requires place { place < (S.Site.meaning site.now).places }
    requires room { (S.Site.meaning site.now).places ≤ length sheet.now }
    requires within { AllWithin S.Cost.Cost.kind (S.Site.meaning site.now).places sheet.now }
    ensures { Tells result (ConsistentFrom S.Cost.Cost.kind (S.Site.meaning site.now) sheet.now place) }
{
    Ways::of(site, place).all(|way| is_way_consistent(site, sheet, place, way))
}

// Whether the sheet is sound: zero at the target, every cost within the ceiling, every open way consistent.
// Site and sheet stay two parameters, as its callers have them: a struct of both would be made here alone, and taken apart at each way.
pub fn is_sound<S: Site>(site: &S, target: u16, sheet: &[Entry<S::Cost>]) -> bool
    requires target { target < (S.Site.meaning site.now).places }
    requires room { (S.Site.meaning site.now).places ≤ length sheet.now }
    ensures { Tells result (Sound S.Cost.Cost.kind (S.Site.meaning site.now) target (estimate_of sheet.now)) }
{
    let places = site.places();
    sheet[target as usize].estimate.is_at_most(Length::zero())
        && are_within(sheet, places)
        && (0..places).all(|place| are_ways_consistent(site, sheet, place))
}
