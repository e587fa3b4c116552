// Lesser estimates and shorter distances: a place that gets one is offered to the queue.
// Sheet and queue are lent apart: of a sheet in a struct with its queue, the checker covers no order (a `&mut [T]` in a field lent again as a `&[T]`).
ghost use Rattle.std.specs.Prelude.{◌≡◌, ◌<◌, true, false, length, slice_index_or, slice_set};
ghost use Rattle.cost.specs.Lengths.{length_le, Within};
ghost use Rattle.queue.specs.Queues.{HasRoom, Ordered, Offered};
ghost use Rattle.sheet.specs.Sheets.{blank, estimate_of, distance_of, with_estimate, Keyed, by, IsListed, by_estimate, by_sum, Summable, Relaxed};

use crate::Entry;
use crate::orders::{By, Estimate, Key, Sum};
use cost::{Cost, Length};
use queue::Queue;

// Gives a place an entry whose key is at most what it was, and queues it unless it is queued already.
fn improve<K: Key, C: Cost>(
    sheet: &mut [Entry<C>],
    queue: &mut Queue<'_>,
    place: u16,
    entry: Entry<C>,
)
    requires listed { place < length sheet.old }
    requires readable { K.reads C C.Cost.kind entry }
    requires lesser { length_le C.Cost.kind (K.key C C.Cost.kind entry) (K.key C C.Cost.kind (slice_index_or sheet.old place blank)) ≡ true }
    requires ordered { Ordered (Keyed (K.reads C C.Cost.kind) sheet.old) (by C.Cost.kind (K.key C C.Cost.kind) sheet.old) queue.old }
    requires room { HasRoom queue.old place }
    ensures sheet { sheet.new ≡ slice_set sheet.old place entry }
    ensures queue { Offered (Keyed (K.reads C C.Cost.kind) sheet.new) (by C.Cost.kind (K.key C C.Cost.kind) sheet.new) queue.old queue.new place }
{
    sheet[place as usize] = entry;
    queue.offer(&By::<K, C>::new(sheet), place);
}

// Gives a place a lesser estimate, and queues it unless it is queued already.
pub fn lower_estimate<C: Cost>(
    sheet: &mut [Entry<C>],
    queue: &mut Queue<'_>,
    place: u16,
    estimate: Length<C>,
)
    requires listed { place < length sheet.old }
    requires lesser { length_le C.Cost.kind estimate (estimate_of sheet.old place) ≡ true }
    requires ordered { Ordered (IsListed C.Cost.kind sheet.old) (by_estimate C.Cost.kind sheet.old) queue.old }
    requires room { HasRoom queue.old place }
    ensures sheet { sheet.new ≡ slice_set sheet.old place (with_estimate (slice_index_or sheet.old place blank) estimate) }
    ensures queue { Offered (IsListed C.Cost.kind sheet.new) (by_estimate C.Cost.kind sheet.new) queue.old queue.new place }
{
    let entry = sheet[place as usize];
    improve::<Estimate, C>(sheet, queue, place, Entry { estimate, ..entry });
}

// Offers a place a distance by way of another.
pub fn relax<C: Cost>(
    sheet: &mut [Entry<C>],
    queue: &mut Queue<'_>,
    place: u16,
    distance: Length<C>,
    from: u16,
)
    requires listed { place < length sheet.old }
    requires within { length_le C.Cost.kind (distance_of sheet.old place) distance ≡ false → Within C.Cost.kind distance }
    requires fine { Within C.Cost.kind (estimate_of sheet.old place) }
    requires ordered { Ordered (Summable C.Cost.kind sheet.old) (by_sum C.Cost.kind sheet.old) queue.old }
    requires room { HasRoom queue.old place }
    ensures { Relaxed C.Cost.kind sheet.old sheet.new queue.old queue.new from place distance }
{
    let entry = sheet[place as usize];
    if entry.distance.is_at_most(distance) {
        return;
    }
    let shorter = Entry {
        distance,
        link: from,
        ..entry
    };
    match entry.estimate {
        Length::Finite(_) => improve::<Sum, C>(sheet, queue, place, shorter),
        Length::Infinite => sheet[place as usize] = shorter,
    }
}
