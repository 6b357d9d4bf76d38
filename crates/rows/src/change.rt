// The calls of a table on one row.
ghost use Rattle.std.specs.Prelude.{◌≡◌, ◌-◌, [], ◌∷◌, length, is_ok, if◌then◌else◌};
ghost use Rattle.words.specs.Outcome.{told};
ghost use Rattle.words.specs.Version.{first_version, new_version};
ghost use Rattle.tables.specs.Versions.{with_version, at_stamp, raised, marked, kept, cut_count};
ghost use Rattle.tables.specs.Table.{version_in, insert_in, raise_in, mark_in};
ghost use Rattle.rows.specs.Row.{row_list};

use crate::row::Row;
use arrayvec::ArrayVec;
use tables::stays;
use words::{Ending, Refusal, Version};

impl Row {
    // One committed version, both stamps 0, value 0.
    pub(crate) fn first() -> Row
        ensures { row_list result ≡ first_version ∷ [] }
    {
        let mut versions = ArrayVec::new();
        versions.push(Version::first());
        Row { versions }
    }

    // Makes the row the first one again, in its own memory.
    pub(crate) fn clear(&mut self)
        ensures { row_list self.new ≡ first_version ∷ [] }
    {
        self.versions.clear();
        self.versions.push(Version::first());
    }

    pub(crate) fn len(&self) -> usize
        ensures { result ≡ length (row_list self.now) }
    {
        self.versions.len()
    }

    pub(crate) fn version(&self, at: usize) -> Result<Version, Refusal>
        ensures { told result ≡ version_in (row_list self.now) at }
    {
        self.versions.get(at).copied().ok_or(Refusal::NoVersion)
    }

    #[tactic(auto, using(crate::proofs::Found::held_is, crate::proofs::Found::with_version_is))]
    pub(crate) fn insert(&mut self, stamp: u64, value: u64) -> Result<u64, Refusal>
        ensures answer { told result ≡ insert_in (row_list self.old) (8 - length (row_list self.old)) stamp }
        ensures after { row_list self.new ≡ (if is_ok result then with_version (new_version stamp value) (row_list self.old) else row_list self.old) }
    {
        if self.find(stamp).is_some() {
            return Err(Refusal::StampTaken);
        }
        if self.versions.is_full() {
            return Err(Refusal::NoPlace);
        }
        let at = self.place_of(stamp);
        self.versions.insert(at, Version::pending(stamp, value));
        Ok(0)
    }

    #[tactic(auto, using(crate::proofs::Found::held_is))]
    pub(crate) fn raise(&mut self, stamp: u64, to: u64) -> Result<u64, Refusal>
        ensures answer { told result ≡ raise_in (row_list self.old) stamp }
        ensures after { row_list self.new ≡ (if is_ok result then at_stamp stamp (raised to) (row_list self.old) else row_list self.old) }
    {
        let at = self.find(stamp).ok_or(Refusal::NoVersion)?;
        let version = &mut self.versions[at];
        version.read = version.read.max(to);
        Ok(0)
    }

    #[tactic(auto, using(crate::proofs::Found::held_is, crate::proofs::Found::pending_is))]
    pub(crate) fn mark(&mut self, stamp: u64, ending: Ending) -> Result<u64, Refusal>
        ensures answer { told result ≡ mark_in (row_list self.old) stamp }
        ensures after { row_list self.new ≡ (if is_ok result then at_stamp stamp (marked ending) (row_list self.old) else row_list self.old) }
    {
        let at = self.find(stamp).ok_or(Refusal::NoVersion)?;
        let version = &mut self.versions[at];
        if !version.status.is_pending() {
            return Err(Refusal::NoVersion);
        }
        version.status = ending.into();
        Ok(0)
    }

    // Removes every version that does not stay at the stamp, and answers how many.
    pub(crate) fn cut(&mut self, stamp: u64) -> u64
        ensures answer { result ≡ cut_count stamp (row_list self.old) }
        ensures after { row_list self.new ≡ kept stamp (row_list self.old) }
    {
        let before = self.versions.len();
        self.versions.retain(|version| stays(version, stamp));
        (before - self.versions.len()) as u64
    }
}
