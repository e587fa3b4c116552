// The search for a cheapest route, over any site.
#![tactic(auto)]

ghost use Rattle.std.specs.Prelude.{◌≡◌, ◌<◌, ◌≤◌, length, take, drop};
ghost use Rattle.routes.specs.Estimates.{Sound};
ghost use Rattle.sheet.specs.Sheets.{estimate_of};
ghost use Rattle.search.specs.Searches.{Searched};

mod explore;
mod passes;
mod route;

use cost::{Cost, Length};
use explore::explore;
use passes::{clear, raise};
use route::tell_route;
use sheet::Entry;
use site::Site;

// What a search found: the distance, how many places were opened, and how many places the route has.
#[derive(Clone, Copy)]
pub struct Found<C> {
    pub answer: Length<C>,
    pub opened: u16,
    pub count: u16,
}

// Searches for a cheapest route from the start to the target, and raises the estimates of the places opened.
// Sheet records beyond the places are kept. Start and target are two numbers: of the planner's trip the stamp is of no use here.
pub fn search<S: Site>(
    site: &S,
    start: u16,
    target: u16,
    sheet: &mut [Entry<S::Cost>],
    queue: &mut [u16],
    list: &mut [u16],
) -> Found<S::Cost>
    requires named { (start < (S.Site.meaning site.now).places) × (target < (S.Site.meaning site.now).places) }
    requires memory { ((S.Site.meaning site.now).places ≤ length sheet.old) × ((S.Site.meaning site.now).places ≤ length queue.old) × ((S.Site.meaning site.now).places ≤ length list.old) }
    requires sound { Sound S.Cost.Cost.kind (S.Site.meaning site.now) target (estimate_of (take (S.Site.meaning site.now).places sheet.old)) }
    ensures searched { Searched S.Cost.Cost.kind (S.Site.meaning site.now) start target (take (S.Site.meaning site.now).places sheet.old) (take (S.Site.meaning site.now).places sheet.new) list.old list.new result.answer result.opened result.count }
    ensures beyond { drop (S.Site.meaning site.now).places sheet.new ≡ drop (S.Site.meaning site.now).places sheet.old }
{
    let sheet = &mut sheet[..site.places() as usize];
    clear(sheet);
    let opened = explore(site, start, target, sheet, queue);
    let answer = sheet[target as usize].distance;
    let count = tell_route(sheet, start, target, list);
    raise(sheet, answer);
    Found {
        answer,
        opened,
        count,
    }
}
