// commit and abort: a pass ends, and its versions with it.
ghost use Rattle.std.specs.Prelude.{◌≡◌};
ghost use Rattle.words.specs.Outcome.{told};
ghost use Rattle.rules.specs.Beneath.{marks, Steps, StepsUpon};
ghost use Rattle.workers.specs.Shape.{Bounded, end_by, end_calls};

use crate::seat::Seat;
use crate::stage::Stage;
use crate::worker::Worker;
use rules::WriteEntry;
use tables::VersionTable;
use words::{Ending, Refusal};

// Marks the version of each write. In a run each is there and pending; on other tables a mark that is
// refused leaves its list.
fn settle<T: VersionTable>(table: &mut T, writes: &[WriteEntry], stamp: u64, ending: Ending)
    ensures { Steps (T.meaning table.old) (marks ending stamp writes.now) (T.meaning table.new) }
{
    for entry in writes {
        let _ = table.mark(entry.cell as usize, stamp, ending);
    }
}

impl Worker {
    // Ends a pass, if the stage and the call go together: commit needs all steps done.
    pub fn end<T: VersionTable>(
        &mut self,
        table: &mut T,
        seat: Seat,
        call: Ending,
    ) -> Result<u64, Refusal>
        ensures after { (told result, (self.new, (T.meaning table.new).versions)) ≡ end_by call (T.meaning table.old) seat.number self.old }
        ensures beneath { StepsUpon (T.meaning table.old) (told result) (end_calls call seat.number self.old) (T.meaning table.new) }
        ensures bounds { Bounded self.old × Bounded self.new }
    {
        let steps = 2 * (self.writes.len() + self.reads.len());
        let stamp = self.stamp(seat);
        match (self.stage, call) {
            (Stage::Sealed(k), Ending::Commit) if k == steps => {
                settle(table, self.writes.as_slice(), stamp, Ending::Commit);
                self.boost = 0;
                self.stage = Stage::Idle;
                Ok(stamp)
            }
            (Stage::Open, Ending::Abort) => {
                self.boost = 10;
                self.stage = Stage::Idle;
                Ok(0)
            }
            (Stage::Sealed(k), Ending::Abort) => {
                let installed = k.min(self.writes.len());
                settle(table, &self.writes[0..installed], stamp, Ending::Abort);
                self.boost = 10;
                self.stage = Stage::Idle;
                Ok(installed as u64)
            }
            _ => Err(Refusal::OutOfTurn),
        }
    }
}
