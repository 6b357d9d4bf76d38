// The lent memory, and the moves of a record from one chain to another. There is no promise about
// it here: a move breaks its order until it is done.
ghost use Rattle.std.specs.Prelude.{◌≡◌, ◌-◌, ◌<◌, Some};
ghost use Rattle.chains.specs.Chain.{next_of};
ghost use Rattle.chains.specs.Store.{store, Touches, moved, taken, freed};

use crate::chain::Place;
use crate::record::Record;
use words::Version;

// The first `cells` heads and the first `used` records are used; `free` is the first free record,
// and `free_count` of them are free, counted so that no question walks them. A link is an index, since the memory is lent and fixed. Both
// slices are held whole, so that the promises can say that what is not used stays as it was.
#[derive(Drop)]
pub(crate) struct Links<'a> {
    pub(crate) heads: &'a mut [Option<usize>],
    pub(crate) records: &'a mut [Record],
    pub(crate) cells: usize,
    pub(crate) used: usize,
    pub(crate) free: Option<usize>,
    pub(crate) free_count: usize,
}

impl<'a> Links<'a> {
    // Rewrites the record at `at`, and leads the cell's chain, behind `newer`, to `to`. Cell and `newer` are two
    // parameters, and no link: a link would not name the chain that the promises speak of. Each move
    // asks that what it touches is there (`Touches`), since the memory by itself promises nothing.
    fn relink(
        &mut self,
        cell: usize,
        newer: Option<usize>,
        to: Option<usize>,
        at: usize,
        new: Record,
    )
        requires { Touches (store self.old) cell newer at }
        ensures { store self.new ≡ moved (store self.old) cell newer to at new (store self.old).free (store self.old).count }
    {
        self.records[at] = new;
        match newer {
            Some(i) => self.records[i].next = to,
            None => self.heads[cell] = to,
        }
    }

    // Puts the version into the first free record, `free`, and that record into the cell's chain at
    // its place.
    pub(crate) fn take(&mut self, cell: usize, place: Place, free: usize, version: Version)
        requires touches { Touches (store self.old) cell place.newer free }
        requires counted { 0 < (store self.old).count }
        ensures { store self.new ≡ taken (store self.old) cell place.newer place.older free version }
    {
        let next = self.records[free].next;
        self.relink(
            cell,
            place.newer,
            Some(free),
            free,
            Record {
                version,
                next: place.older,
            },
        );
        self.free = next;
        self.free_count -= 1;
    }

    // Takes the record at `at` out of the cell's chain, where it stands behind `newer`, and puts it
    // in front of the free ones.
    pub(crate) fn give_back(&mut self, cell: usize, newer: Option<usize>, at: usize)
        requires touches { Touches (store self.old) cell newer at }
        requires room { (store self.old).count < (store self.old).used }
        ensures { store self.new ≡ freed (store self.old) cell newer at }
    {
        let Record { version, next } = self.records[at];
        let free = self.free;
        self.relink(
            cell,
            newer,
            next,
            at,
            Record {
                version,
                next: free,
            },
        );
        self.free = Some(at);
        self.free_count += 1;
    }
}
