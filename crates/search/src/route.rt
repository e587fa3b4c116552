// The route that the links tell.
ghost use Rattle.std.specs.Prelude.{◌≡◌, ℕ, ◌<◌, ◌≤◌, ◌++◌, length, drop};
ghost use Rattle.cost.specs.declared.lengths.Length.TheVariants.{Finite};
ghost use Rattle.sheet.specs.Sheets.{distance_of, link_of};
ghost use Rattle.search.specs.Searches.{Told};
ghost use Rattle.search.specs.Trails.{walk, trail, LinksBack, Led, Walked};

use cost::{Cost, Length};
use sheet::Entry;

// How many links lead from the target back to the start. (An iterator over links would have to carry that they lead back, to be shown to end.)
fn count_links<C: Cost>(sheet: &[Entry<C>], start: u16, target: u16) -> u16
    requires few { length sheet.now ≤ 4096 }
    requires leads { LinksBack C.Cost.kind sheet.now start }
    requires found { Led sheet.now target }
    ensures { Walked sheet.now start target start result }
{
    let mut place = target;
    let mut links = 0;
    while place != start {
        place = sheet[place as usize].link;
        links += 1;
    }
    links
}

// Writes the places that the links lead through, the target last. The entries after them are kept. By number: of the values of
// `iter_mut().rev()` a proof knows nothing.
fn write_places<C: Cost>(sheet: &[Entry<C>], target: u16, list: &mut [u16], count: u16)
    requires room { count ≤ length list.old }
    requires places { (j : ℕ) → j < count → walk (link_of sheet.now) j target < length sheet.now }
    ensures { list.new ≡ trail (link_of sheet.now) count target ++ drop count list.old }
{
    let mut place = target;
    for at in (0..count).rev() {
        list[at as usize] = place;
        place = sheet[place as usize].link;
    }
}

// Writes the places that the links lead through from the start to the target, if the target has a distance.
// Returns how many they are: 0 where it has none, a true count, since nothing is written then.
pub fn tell_route<C: Cost>(sheet: &[Entry<C>], start: u16, target: u16, list: &mut [u16]) -> u16
    requires few { length sheet.now ≤ 4096 }
    requires place { target < length sheet.now }
    requires leads { LinksBack C.Cost.kind sheet.now start }
    requires room { length sheet.now ≤ length list.old }
    ensures { Told sheet.now start target list.old list.new result }
{
    let distance = sheet[target as usize].distance;
    match distance {
        Length::Infinite => 0,
        Length::Finite(_) => {
            let links = count_links(sheet, start, target);
            let count = links + 1;
            write_places(sheet, target, list, count);
            count
        }
    }
}
