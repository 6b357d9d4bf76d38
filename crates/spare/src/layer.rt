// The layer, as a version table.
ghost use Rattle.std.specs.Prelude.{◌≡◌, IfOk};
ghost use Rattle.words.specs.Outcome.{told, accepted};
ghost use Rattle.tables.specs.Table.{in_cell};
ghost use Rattle.spare.specs.Spare.{spare_at, stamped, layered, layered_sound, one_more, Spared};

use crate::ask::{has_stamp, version_beside};
use crate::spares::Spares;
use tables::VersionTable;
use words::{Ending, Refusal, Version};

// A table with one spare place beside each of its cells. The table is lent, the spare places are in
// the layer itself.
#[derive(Drop)]
pub struct SpareLayer<'b, T: VersionTable> {
    below: &'b mut T,
    spares: Spares,
}

impl<'b, T: VersionTable> SpareLayer<'b, T> {
    // All spare places are empty. The table below is not cleared: its lists are the layer's.
    pub fn over(below: &'b mut T) -> SpareLayer<'b, T>
        ensures { layered (spare_at result.spares.places) (T.VersionTable.meaning result.below.now) ≡ one_more (T.VersionTable.meaning below.old) }
    {
        SpareLayer {
            below,
            spares: Spares::none(),
        }
    }

    // The version in the spare place of a cell, if one is there.
    pub fn spare(&self, cell: usize) -> Result<Option<Version>, Refusal>
        ensures answer { told result ≡ in_cell (T.VersionTable.meaning self.now.below.now) cell (accepted (spare_at self.now.spares.places cell)) }
        ensures exact { let t = T.VersionTable.meaning self.now.below.now in IfOk result (λ o. Spared t (layered (spare_at self.now.spares.places) t) cell o) }
    {
        if cell >= self.below.cells() {
            return Err(Refusal::NoCell);
        }
        Ok(self.spares.at(cell))
    }

    // The spare version of a cell, if it has that stamp.
    fn stamped(&self, cell: usize, stamp: u64) -> Result<Option<Version>, Refusal>
        ensures { told result ≡ in_cell (T.VersionTable.meaning self.now.below.now) cell (accepted (stamped stamp (spare_at self.now.spares.places cell))) }
    {
        Ok(self.spare(cell)?.filter(|spare| spare.write == stamp))
    }
}

impl<'b, T: VersionTable> VersionTable for SpareLayer<'b, T> {
    ghost meaning = { λ s. layered (spare_at s.spares.places) (T.VersionTable.meaning s.below.now) };

    ghost sound = { λ s. layered_sound s.spares.places (T.VersionTable.meaning s.below.now) (T.VersionTable.sound s.below.now) };

    fn clear(&mut self) -> u64 {
        self.spares = Spares::none();
        self.below.clear()
    }

    fn cells(&self) -> usize {
        self.below.cells()
    }

    fn free_places(&self, cell: usize) -> Result<u64, Refusal> {
        let free = self.below.free_places(cell)?;
        Ok(free.saturating_add(self.spares.room(cell)))
    }

    fn length(&self, cell: usize) -> Result<u64, Refusal> {
        let length = self.below.length(cell)?;
        Ok(length.saturating_add(self.spares.taken(cell)))
    }

    fn version(&self, cell: usize, at: usize) -> Result<Version, Refusal> {
        match self.spares.at(cell) {
            Some(spare) => version_beside(self.below, spare, cell, at),
            None => self.below.version(cell, at),
        }
    }

    // A hint: over the row table the call is just too large to be inlined without it.
    #[inline]
    fn insert(&mut self, cell: usize, stamp: u64, value: u64) -> Result<u64, Refusal> {
        match self.spare(cell)? {
            Some(spare) if spare.write == stamp => Err(Refusal::StampTaken),
            Some(_) => self.below.insert(cell, stamp, value),
            None if has_stamp(self.below, cell, stamp) => Err(Refusal::StampTaken),
            None => {
                self.spares.put(cell, Version::pending(stamp, value));
                Ok(0)
            }
        }
    }

    // Of versions with one stamp the spare one comes first.
    //
    // `mark` has this form too: one function for both would take two closures and be no shorter.
    fn raise(&mut self, cell: usize, stamp: u64, to: u64) -> Result<u64, Refusal> {
        let Some(mut spare) = self.stamped(cell, stamp)? else {
            return self.below.raise(cell, stamp, to);
        };
        spare.read = spare.read.max(to);
        self.spares.put(cell, spare);
        Ok(0)
    }

    fn mark(&mut self, cell: usize, stamp: u64, ending: Ending) -> Result<u64, Refusal> {
        let Some(mut spare) = self.stamped(cell, stamp)? else {
            return self.below.mark(cell, stamp, ending);
        };
        if !spare.status.is_pending() {
            return Err(Refusal::NoVersion);
        }
        spare.status = ending.into();
        self.spares.put(cell, spare);
        Ok(0)
    }

    fn cut(&mut self, cell: usize, stamp: u64) -> Result<u64, Refusal> {
        let removed = self.below.cut(cell, stamp)?;
        Ok(removed.saturating_add(self.spares.cut(cell, stamp)))
    }
}
