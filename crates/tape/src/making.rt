// How a tape is made over its tables.
ghost use Rattle.tape.specs.TapeSites.{SiteOver};
ghost use Rattle.tape.specs.TapeMeaning.{tape_meaning};

use crate::Tape;
use crate::rules::verdict;
use tables::{Lane, Place, TapeHead, Verdict};
use tape_notes::build;

impl<'p, 'l> Tape<'p, 'l> {
    // The tape over a head and its tables, which are looked through once. Where they break the rules, it is one place with no segment.
    pub fn new(head: TapeHead, places: &'p mut [Place], lanes: &'l mut [Lane]) -> Tape<'p, 'l>
        ensures { SiteOver head places.old lanes.old (tape_meaning result) }
    {
        match verdict(head, places, lanes) {
            Verdict::Sound => {
                let places = &mut places[..head.places as usize];
                let lanes = &mut lanes[..head.lanes as usize];
                build(places, lanes);
                Tape { places, lanes }
            }
            Verdict::Faulty => Tape {
                places: &mut places[..0],
                lanes: &mut lanes[..0],
            },
        }
    }
}
