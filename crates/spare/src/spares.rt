// The spare places, one for each cell.
ghost use Rattle.std.specs.Prelude.{◌≡◌, ◌<◌, Some};
ghost use Rattle.tables.specs.Table.{put};
ghost use Rattle.spare.specs.Spare.{spare_at, no_spares, taken, room, kept_spare, lost};

use tables::stays;
use words::Version;

// No table has more cells.
const PLACES: usize = 1024;

// Any versions may stand in the places, whatever the table below holds, so that a layer has nothing
// to keep true and can be the table below another.
//
// No `impl Model`: contracts read the places as a function of the cell, and a function has no code.
#[derive(Drop)]
pub(crate) struct Spares {
    places: [Option<Version>; PLACES],
}

impl Spares {
    // All places empty.
    pub(crate) fn none() -> Spares
        ensures { spare_at result.places ≡ no_spares }
    {
        Spares {
            places: [None; PLACES],
        }
    }

    // The spare version of a cell.
    pub(crate) fn at(&self, cell: usize) -> Option<Version>
        ensures { result ≡ spare_at self.now.places cell }
    {
        self.places.get(cell).copied().flatten()
    }

    // How many versions the place of a cell holds.
    pub(crate) fn taken(&self, cell: usize) -> u64
        ensures { result ≡ taken (spare_at self.now.places cell) }
    {
        u64::from(self.at(cell).is_some())
    }

    // How many versions the place of a cell has room for.
    pub(crate) fn room(&self, cell: usize) -> u64
        ensures { result ≡ room (spare_at self.now.places cell) }
    {
        1 - self.taken(cell)
    }

    // Puts a version into the place of a cell.
    pub(crate) fn put(&mut self, cell: usize, version: Version)
        requires { cell < PLACES }
        ensures { spare_at self.new.places ≡ put (spare_at self.old.places) cell (Some version) }
    {
        self.places[cell] = Some(version);
    }

    // Empties the place of a cell if its version does not stay at the stamp, and answers how many
    // versions went.
    pub(crate) fn cut(&mut self, cell: usize, stamp: u64) -> u64
        requires { cell < PLACES }
        ensures answer { result ≡ lost stamp (spare_at self.old.places cell) }
        ensures after { spare_at self.new.places ≡ put (spare_at self.old.places) cell (kept_spare stamp (spare_at self.old.places cell)) }
    {
        let gone = self.places[cell].take_if(|spare| !stays(spare, stamp));
        u64::from(gone.is_some())
    }
}
