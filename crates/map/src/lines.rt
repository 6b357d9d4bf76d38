// The floor and the keep line of a map.
ghost use Rattle.std.specs.Prelude.{◌≡◌, take};
ghost use Rattle.tables.specs.Table.{Table};
ghost use Rattle.rules.specs.Stamps.{floor, keep_line};
ghost use Rattle.map.specs.Plate.{plate};

use crate::crew::Crew;
use crate::floor::{floor, keep};
use workers::Worker;

impl Crew {
    // The workers that are in use.
    fn in_use(&self) -> &[Worker]
        ensures { result.now ≡ take self.now.count self.now.workers.items }
    {
        &self.workers[0..self.count as usize]
    }

    pub(crate) fn floor(&self) -> u64
        ensures { (t : Table) → result ≡ floor (plate t self.now) }
    {
        floor(self.in_use())
    }

    pub(crate) fn keep_line(&self) -> u64
        ensures { (t : Table) → result ≡ keep_line (plate t self.now) }
    {
        let floor = self.floor();
        keep(self.in_use(), floor)
    }
}
