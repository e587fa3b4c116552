// What the records of every layout are read by.
ghost use Rattle.std.specs.Prelude.{◌≡◌, [], length, MatchResult};
ghost use Rattle.tables.specs.Floors.{between};
ghost use Rattle.sitefile.specs.Readers.{ahead, size};
ghost use Rattle.sitefile.specs.Formats.{ended, FieldRead, FieldFault, FirstFault};
ghost use Rattle.sitefile.specs.Records.{Records, Reads, ReadAll, Walked, StopsAmong};

use crate::fault::{Cause, Fault};
use crate::reader::Reader;

// The records of one kind: cells, places or lanes.
pub(crate) trait Layout {
    type Item: Copy;

    ghost records: { Self → Records Self.Item };

    fn read(&self, reader: &mut Reader<'_>) -> Result<Self::Item, Fault>
        ensures { Reads (records self.now) reader.old reader.new result };
}

impl Reader<'_> {
    // Walks over `count` records.
    pub(crate) fn pass_over<L: Layout>(&mut self, layout: &L, count: u32) -> Result<(), Fault>
        ensures { MatchResult result (λ _. Walked (L.records layout.now) count self.old self.new) (λ f. StopsAmong (L.records layout.now) count self.old f) }
    {
        for _i in 0..count {
            layout.read(self)?;
        }
        Ok(())
    }

    // Fills each entry of a table from a record.
    pub(crate) fn fill<L: Layout>(&mut self, layout: &L, table: &mut [L::Item]) -> Result<(), Fault>
        ensures size { size self.new ≡ size self.old }
        ensures read { MatchResult result (λ _. ReadAll (L.records layout.now) (ahead self.old) table.new (ahead self.new)) (λ f. StopsAmong (L.records layout.now) (length table.old) self.old f) }
    {
        for entry in table.iter_mut() {
            *entry = layout.read(self)?;
        }
        Ok(())
    }

    // A number from `lowest` to `highest`.
    pub(crate) fn ranged(&mut self, lowest: u32, highest: u32) -> Result<u32, Fault>
        ensures size { size self.new ≡ size self.old }
        ensures read { MatchResult result (λ n. FieldRead (between lowest highest) (ahead self.old) n (ahead self.new)) (λ f. FieldFault (size self.old) (between lowest highest) (ahead self.old) f) }
    {
        let at = self.at;
        let n = self.number()?;
        if !(lowest..=highest).contains(&n) {
            return Err(Cause::OutOfRange.at(at));
        }
        Ok(n)
    }

    // Nothing follows.
    pub(crate) fn end(&self) -> Result<(), Fault>
        ensures { MatchResult result (λ _. ahead self.now ≡ []) (λ f. FirstFault (size self.now) ended (ahead self.now) f) }
    {
        match self.left {
            [] => Ok(()),
            [_, ..] => Err(Cause::BytesLeft.at(self.at)),
        }
    }
}
