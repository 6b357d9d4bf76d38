// install, stamp and check: the steps of a sealed pass.
ghost use Rattle.std.specs.Prelude.{MatchResult, ◌≡◌, ◌+◌, ◌-◌, ◌<◌};
ghost use Rattle.words.specs.Outcome.{told, refused};
ghost use Rattle.words.specs.Refusal.{number, detail};
ghost use Rattle.tables.specs.Table.{Altered, raise_answer};
ghost use Rattle.tables.specs.Versions.{raised};
ghost use Rattle.rules.specs.Beneath.{StepsUpon};
ghost use Rattle.rules.specs.Rules.{gone};
ghost use Rattle.rules.specs.Search.{visible, search};
ghost use Rattle.workers.specs.Shape.{Bounded, step_by, calls_for, read_checked, write_checked};
ghost use Rattle.workers.specs.declared.stage.Stage.TheVariants.{Sealed};

use crate::seat::Seat;
use crate::stage::Stage;
use crate::worker::Worker;
use rules::{ReadEntry, WriteEntry};
use searches::{Sought, search};
use tables::VersionTable;
use words::Refusal;

#[derive(Clone, Copy, Debug, PartialEq, Eq)]
pub enum Step {
    Install,
    Stamp,
    Check,
}

// A version that is gone at its stamp is CHANGED.
fn lost(refusal: Refusal) -> Refusal
    ensures { refused (number result) (detail result) ≡ gone (refused (number refusal) (detail refusal)) }
{
    match refusal {
        Refusal::NoVersion => Refusal::Changed,
        _ => refusal,
    }
}

// The stamp of a read; a version that is gone is CHANGED.
fn raise<T: VersionTable>(table: &mut T, stamp: u64, entry: ReadEntry) -> Result<u64, Refusal>
    ensures answer { told result ≡ gone (raise_answer (T.meaning table.old) entry.cell entry.stamp) }
    ensures after { MatchResult result (λ _. Altered (T.meaning table.old) (T.meaning table.new) entry.cell entry.stamp (raised stamp)) (λ _. T.meaning table.new ≡ T.meaning table.old) }
{
    table
        .raise(entry.cell as usize, entry.stamp, stamp)
        .map_err(lost)
}

// The check of a read: the version is still the visible one.
fn check_read<T: VersionTable>(table: &T, stamp: u64, entry: ReadEntry) -> Result<(), Refusal>
    ensures { told result ≡ read_checked entry (search (visible stamp) (T.meaning table.now) entry.cell) }
{
    let version = search(table, entry.cell as usize, Sought::Visible(stamp))?;
    if version.write == entry.stamp {
        Ok(())
    } else {
        Err(Refusal::Changed)
    }
}

// The check of a write: no later pass has read the version that it comes after.
fn check_write<T: VersionTable>(table: &T, stamp: u64, entry: WriteEntry) -> Result<(), Refusal>
    ensures { told result ≡ write_checked stamp (search (visible stamp) (T.meaning table.now) entry.cell) }
{
    let version = search(table, entry.cell as usize, Sought::Visible(stamp))?;
    if version.read > stamp {
        Err(Refusal::ReadLater)
    } else {
        Ok(())
    }
}

// One more of so many steps is done; answers how many are left.
fn go_on(stage: &mut Stage, k: usize, steps: usize) -> u64
    requires { k < steps }
    ensures stage { stage.new ≡ Sealed (k + 1) }
    ensures left { result ≡ steps - (k + 1) }
{
    *stage = Stage::Sealed(k + 1);
    (steps - (k + 1)) as u64
}

impl Worker {
    // One step of a sealed pass, if the stage and the call go together; answers how many are left.
    pub fn step<T: VersionTable>(
        &mut self,
        table: &mut T,
        seat: Seat,
        call: Step,
    ) -> Result<u64, Refusal>
        ensures after { (told result, (self.new, (T.meaning table.new).versions)) ≡ step_by call (T.meaning table.old) seat.number self.old }
        ensures beneath { StepsUpon (T.meaning table.old) (told result) (calls_for call seat.number self.old) (T.meaning table.new) }
        ensures bounds { Bounded self.old × Bounded self.new }
    {
        let w = self.writes.len();
        let r = self.reads.len();
        let steps = 2 * (w + r);
        let stamp = self.stamp(seat);
        match (self.stage, call) {
            (Stage::Sealed(k), Step::Install) if k < w => {
                let entry = self.writes[k];
                table.insert(entry.cell as usize, stamp, entry.value)?;
                Ok(go_on(&mut self.stage, k, steps))
            }
            (Stage::Sealed(k), Step::Stamp) if w <= k && k < w + r => {
                raise(table, stamp, self.reads[k - w])?;
                Ok(go_on(&mut self.stage, k, steps))
            }
            (Stage::Sealed(k), Step::Check) if w + r <= k && k < w + 2 * r => {
                check_read(&*table, stamp, self.reads[k - (w + r)])?;
                Ok(go_on(&mut self.stage, k, steps))
            }
            (Stage::Sealed(k), Step::Check) if w + 2 * r <= k && k < steps => {
                check_write(&*table, stamp, self.writes[k - (w + 2 * r)])?;
                Ok(go_on(&mut self.stage, k, steps))
            }
            _ => Err(Refusal::OutOfTurn),
        }
    }
}
