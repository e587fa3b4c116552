// The search proper: places are opened, the least sum of distance and estimate first.
ghost use Rattle.std.specs.Prelude.{◌≡◌, ℕ, ◌<◌, ◌≤◌, true, false, length, MatchOption};
ghost use Rattle.cost.specs.Lengths.{Within, length_le};
ghost use Rattle.routes.specs.Estimates.{Sound};
ghost use Rattle.queue.specs.Queues.{Ordered, Popped};
ghost use Rattle.sheet.specs.Sheets.{distance_of, estimate_of, sum_of, by_sum, Summable};
ghost use Rattle.search.specs.Exploring.{Ready, Improves, Swept, mark_place, Fresh, Explored};

use cost::{Cost, Length};
use queue::Queue;
use sheet::{By, Entry, Sum, relax};
use site::{Site, Ways, cost_over};

// Offers the end of each way out of a place a distance through it.
fn expand<S: Site>(site: &S, sheet: &mut [Entry<S::Cost>], queue: &mut Queue<'_>, from: u16)
    requires ready { Ready S.Cost.Cost.kind (S.Site.meaning site.now) sheet.old queue.old }
    requires place { from < (S.Site.meaning site.now).places }
    requires within { Within S.Cost.Cost.kind (distance_of sheet.old from) }
    requires improves { Improves S.Cost.Cost.kind (S.Site.meaning site.now) sheet.old from }
    ensures { Swept S.Cost.Cost.kind (S.Site.meaning site.now) from ((S.Site.meaning site.now).ways from) sheet.old sheet.new queue.old queue.new }
{
    let distance = sheet[from as usize].distance;
    for way in Ways::of(site, from) {
        let cost = cost_over(site, way.segment);
        relax(sheet, queue, way.end, distance.plus(cost), from);
    }
}

// Marks a place and expands it.
fn open_place<S: Site>(site: &S, sheet: &mut [Entry<S::Cost>], queue: &mut Queue<'_>, place: u16)
    requires ready { Ready S.Cost.Cost.kind (S.Site.meaning site.now) sheet.old queue.old }
    requires place { place < (S.Site.meaning site.now).places }
    requires within { Within S.Cost.Cost.kind (distance_of sheet.old place) }
    requires improves { Improves S.Cost.Cost.kind (S.Site.meaning site.now) sheet.old place }
    ensures { Swept S.Cost.Cost.kind (S.Site.meaning site.now) place ((S.Site.meaning site.now).ways place) (mark_place sheet.old place) sheet.new queue.old queue.new }
{
    sheet[place as usize].mark = true;
    expand(site, sheet, queue, place);
}

// Takes out a place with the least sum.
fn next_place<C: Cost>(sheet: &[Entry<C>], queue: &mut Queue<'_>) -> Option<u16>
    requires { Ordered (Summable C.Cost.kind sheet.now) (by_sum C.Cost.kind sheet.now) queue.old }
    ensures { MatchOption result ((queue.old.len ≡ 0) × (queue.new ≡ queue.old)) (λ p. Popped (Summable C.Cost.kind sheet.now) (by_sum C.Cost.kind sheet.now) queue.old queue.new p) }
{
    queue.pop(&By::<Sum, C>::new(sheet))
}

// Whether the target's distance so far is at most the sum of a place.
fn is_settled<C: Cost>(sheet: &[Entry<C>], target: u16, place: u16) -> bool
    requires listed { target < length sheet.now }
    requires summable { Summable C.Cost.kind sheet.now place }
    ensures { result ≡ length_le C.Cost.kind (distance_of sheet.now target) (sum_of C.Cost.kind sheet.now place) }
{
    let sum = sheet[place as usize].sum();
    sheet[target as usize].distance.is_at_most(sum)
}

// Opens places, the least sum first, until the target's distance is not above the least sum queued or none is queued.
// Returns how many were opened.
pub fn explore<S: Site>(
    site: &S,
    start: u16,
    target: u16,
    sheet: &mut [Entry<S::Cost>],
    queue: &mut [u16],
) -> u16
    requires named { (start < (S.Site.meaning site.now).places) × (target < (S.Site.meaning site.now).places) }
    requires memory { (length sheet.old ≡ (S.Site.meaning site.now).places) × ((S.Site.meaning site.now).places ≤ length queue.old) }
    requires fresh { Fresh sheet.old }
    requires sound { Sound S.Cost.Cost.kind (S.Site.meaning site.now) target (estimate_of sheet.old) }
    ensures { Explored S.Cost.Cost.kind (S.Site.meaning site.now) start target (estimate_of sheet.old) sheet.new result }
{
    let mut queue = Queue::new(queue);
    relax(sheet, &mut queue, start, Length::zero(), start);
    let mut opened = 0;
    while let Some(place) = next_place(sheet, &mut queue) {
        if is_settled(sheet, target, place) {
            return opened;
        }
        open_place(site, sheet, &mut queue, place);
        opened += 1;
    }
    opened
}
