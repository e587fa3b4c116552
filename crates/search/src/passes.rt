// The passes over the whole sheet before and after the search proper.
ghost use Rattle.std.specs.Prelude.{◌≡◌, ℕ, ◌<◌, true, length, slice_index_or};
ghost use Rattle.cost.specs.Lengths.{Within};
ghost use Rattle.sheet.specs.Sheets.{blank, distance_of, mark_of};
ghost use Rattle.search.specs.Passes.{cleared, raised};

use cost::{Cost, Length};
use sheet::Entry;

// Takes away every distance and mark.
pub fn clear<C: Cost>(sheet: &mut [Entry<C>])
    ensures { (s : ℕ) → slice_index_or sheet.new s blank ≡ cleared (slice_index_or sheet.old s blank) }
{
    for entry in sheet.iter_mut() {
        entry.distance = Length::Infinite;
        entry.mark = false;
    }
}

// Raises the estimate of each marked place by the answer and its distance.
pub fn raise<C: Cost>(sheet: &mut [Entry<C>], answer: Length<C>)
    requires answer { Within C.Cost.kind answer }
    requires marked { (s : ℕ) → s < length sheet.old → mark_of sheet.old s ≡ true → Within C.Cost.kind (distance_of sheet.old s) }
    ensures { (s : ℕ) → slice_index_or sheet.new s blank ≡ raised C.Cost.kind answer (slice_index_or sheet.old s blank) }
{
    for entry in sheet.iter_mut() {
        if entry.mark {
            entry.estimate = entry.estimate.max(answer.minus(entry.distance));
        }
    }
}
