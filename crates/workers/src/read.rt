// read, of an open pass and of a look.
ghost use Rattle.std.specs.Prelude.{◌≡◌};
ghost use Rattle.words.specs.Outcome.{told};
ghost use Rattle.rules.specs.Turns.{read_by};
ghost use Rattle.workers.specs.Shape.{Bounded, known};

use crate::seat::Seat;
use crate::stage::Stage;
use crate::worker::Worker;
use rules::{ReadEntry, WriteEntry};
use searches::{Sought, find, search};
use tables::VersionTable;
use words::Refusal;

// The value of a cell in the write set, else in the read set.
fn known(reads: &[ReadEntry], writes: &[WriteEntry], cell: u64) -> Option<u64>
    ensures { result ≡ known cell reads.now writes.now }
{
    if let Some(i) = find(writes, cell) {
        return Some(writes[i].value);
    }
    let i = find(reads, cell)?;
    Some(reads[i].value)
}

impl Worker {
    // The value in the write set, else in the read set, else of the version visible below the pass, which
    // joins the read set; of a look, of the version visible below its floor.
    pub fn read<T: VersionTable>(
        &mut self,
        table: &T,
        seat: Seat,
        cell: u64,
    ) -> Result<u64, Refusal>
        ensures after { (told result, self.new) ≡ read_by (T.meaning table.now) seat.number cell self.old }
        ensures bounds { Bounded self.old × Bounded self.new }
    {
        match self.stage {
            Stage::Open => {
                if let Some(value) = known(self.reads.as_slice(), self.writes.as_slice(), cell) {
                    return Ok(value);
                }
                if self.reads.len() >= 16 {
                    return Err(Refusal::SetFull);
                }
                let stamp = self.stamp(seat);
                let version = search(table, cell as usize, Sought::Visible(stamp))?;
                self.reads.push_reserved(ReadEntry {
                    cell,
                    stamp: version.write,
                    value: version.value,
                });
                Ok(version.value)
            }
            Stage::Looking(floor) => {
                Ok(search(table, cell as usize, Sought::Visible(floor))?.value)
            }
            _ => Err(Refusal::OutOfTurn),
        }
    }
}
