// The pass that gives every place a new estimate.
ghost use Rattle.std.specs.Prelude.{ℕ, ◌<◌, ◌≤◌, length};
ghost use Rattle.sheet.specs.Sheets.{estimate_of};
ghost use Rattle.planner.specs.Passes.{Renewed};

use cost::Length;
use sheet::Entry;
use site::Site;

// Makes each estimate anew, of the hint to the target and of the estimate as it was. That the sheet has a record for each place is asked
// here, in `soundness` and in `search`: site and sheet are lent apart, so no type of theirs could keep it.
pub fn renew<S: Site, F: Fn(S::Cost, Length<S::Cost>) -> Length<S::Cost>>(
    site: &S,
    target: u16,
    sheet: &mut [Entry<S::Cost>],
    estimate: F,
)
    requires target { target < (S.Site.meaning site.now).places }
    requires room { (S.Site.meaning site.now).places ≤ length sheet.old }
    requires callable { (s : ℕ) → s < (S.Site.meaning site.now).places → F.pre estimate ((S.Site.meaning site.now).hint s target) (estimate_of sheet.old s) }
    ensures { Renewed (λ s. F.post estimate ((S.Site.meaning site.now).hint s target) (estimate_of sheet.old s)) (S.Site.meaning site.now).places sheet.old sheet.new }
{
    // By places: a proof knows nothing of the values of `sheet.iter_mut()` once it is zipped with them.
    for place in 0..site.places() {
        if let Some(hint) = site.hint(place, target) {
            let entry = &mut sheet[place as usize];
            entry.estimate = estimate(hint, entry.estimate);
        }
    }
}
