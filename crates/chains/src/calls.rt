// The chained table as a version table.
ghost use Rattle.std.specs.Prelude.{◌≡◌, MatchResult};
ghost use Rattle.words.specs.Outcome.{told};
ghost use Rattle.tables.specs.Versions.{raised, marked};
ghost use Rattle.tables.specs.Table.{Cleared, Inserted, Altered, Cut, insert_answer, raise_answer, mark_answer, cut_answer};
ghost use Rattle.chains.specs.Store.{store, mean, Unused};
ghost use Rattle.chains.specs.Kept.{chained_sound};

use crate::table::ChainTable;
use tables::{VersionTable, stays};
use words::{Ending, Refusal, Version};

// Beside the promises of the trait: memory that is lent and not used stays as it was.
impl<'a> VersionTable for ChainTable<'a> {
    ghost meaning = { λ t. mean t.links };

    ghost sound = { λ t. chained_sound (store t.links) t.kept.sized.few t.kept.sinking };

    fn clear(&mut self) -> u64
        ensures answer { result ≡ 0 }
        ensures after { Cleared (mean self.old.links) (mean self.new.links) }
        ensures unused { Unused (store self.old.links) (store self.new.links) }
    {
        self.links.clear();
        0
    }

    fn cells(&self) -> usize {
        self.links.cells
    }

    fn free_places(&self, cell: usize) -> Result<u64, Refusal> {
        self.chain(cell)?;
        Ok(self.links.free_count as u64)
    }

    fn length(&self, cell: usize) -> Result<u64, Refusal> {
        Ok(self.chain(cell)?.length() as u64)
    }

    fn version(&self, cell: usize, at: usize) -> Result<Version, Refusal> {
        self.chain(cell)?.version(at)
    }

    fn insert(&mut self, cell: usize, stamp: u64, value: u64) -> Result<u64, Refusal>
        ensures answer { told result ≡ insert_answer (mean self.old.links) cell stamp }
        ensures after { MatchResult result (λ _. Inserted (mean self.old.links) (mean self.new.links) cell stamp value) (λ _. mean self.new.links ≡ mean self.old.links) }
        ensures unused { Unused (store self.old.links) (store self.new.links) }
    {
        let chain = self.chain(cell)?;
        if chain.stamped(stamp).is_some() {
            return Err(Refusal::StampTaken);
        }
        let free = self.links.free.ok_or(Refusal::NoPlace)?;
        let place = chain.place(stamp);
        self.links
            .take(cell, place, free, Version::pending(stamp, value));
        Ok(0)
    }

    fn raise(&mut self, cell: usize, stamp: u64, to: u64) -> Result<u64, Refusal>
        ensures answer { told result ≡ raise_answer (mean self.old.links) cell stamp }
        ensures after { MatchResult result (λ _. Altered (mean self.old.links) (mean self.new.links) cell stamp (raised to)) (λ _. mean self.new.links ≡ mean self.old.links) }
        ensures unused { Unused (store self.old.links) (store self.new.links) }
    {
        let at = self.stamped(cell, stamp)?;
        let read = self.links.records[at].version.read.max(to);
        self.links.records[at].version.read = read;
        Ok(0)
    }

    fn mark(&mut self, cell: usize, stamp: u64, ending: Ending) -> Result<u64, Refusal>
        ensures answer { told result ≡ mark_answer (mean self.old.links) cell stamp }
        ensures after { MatchResult result (λ _. Altered (mean self.old.links) (mean self.new.links) cell stamp (marked ending)) (λ _. mean self.new.links ≡ mean self.old.links) }
        ensures unused { Unused (store self.old.links) (store self.new.links) }
    {
        let at = self.stamped(cell, stamp)?;
        if !self.links.records[at].version.status.is_pending() {
            return Err(Refusal::NoVersion);
        }
        self.links.records[at].version.status = ending.into();
        Ok(0)
    }

    fn cut(&mut self, cell: usize, stamp: u64) -> Result<u64, Refusal>
        ensures answer { told result ≡ cut_answer (mean self.old.links) cell stamp }
        ensures after { MatchResult result (λ _. Cut (mean self.old.links) (mean self.new.links) cell stamp) (λ _. mean self.new.links ≡ mean self.old.links) }
        ensures unused { Unused (store self.old.links) (store self.new.links) }
    {
        let mut gone = 0;
        let mut newer = None;
        let mut at = self.chain(cell)?.first;
        // No iterator: it would borrow the memory that is relinked here.
        while let Some(i) = at {
            let record = self.links.records[i];
            if stays(&record.version, stamp) {
                newer = Some(i);
            } else {
                self.links.give_back(cell, newer, i);
                gone += 1;
            }
            at = record.next;
        }
        Ok(gone)
    }
}
