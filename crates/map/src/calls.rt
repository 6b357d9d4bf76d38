// The calls of a worker, by what they touch. Each takes the seat and then the worker: of one function that gave
// both, what is lent would stand inside a result.
ghost use Rattle.std.specs.Prelude.{◌≡◌, ◌<◌, ◌≤◌, MatchResult};
ghost use Rattle.words.specs.Outcome.{told, refuse};
ghost use Rattle.words.specs.declared.refusal.Refusal.TheVariants.{NoWorker};
ghost use Rattle.tables.specs.Table.{Table};
ghost use Rattle.map.specs.Performed.{Performed, tick_call, step_call};
ghost use Rattle.rules.specs.declared.call.Call.TheVariants.{Sync, Seal, Write, Read, Commit, Abort, Look, Close};

use crate::crew::Crew;
use rules::WriteEntry;
use tables::VersionTable;
use words::{Ending, Refusal};
use workers::{Edit, Glance, Seat, Step, Tick};

impl Crew {
    // The seat of a worker of the map.
    fn seat(&self, worker: u64) -> Result<Seat, Refusal>
        ensures { MatchResult result (λ s. (worker < self.now.count) × (s.number ≡ worker)) (λ e. (self.now.count ≤ worker) × (e ≡ NoWorker)) }
    {
        if worker >= self.count {
            return Err(Refusal::NoWorker);
        }
        Seat::try_from(worker)
    }

    // begin and pulse.
    pub(crate) fn tick(&mut self, worker: u64, call: Tick, units: u64) -> Result<u64, Refusal>
        ensures { (t : Table) → Performed t self.old (tick_call call worker units) (told result) t self.new }
    {
        let seat = self.seat(worker)?;
        self.worker(worker as usize).tick(seat, call, units)
    }

    // install, stamp and check.
    pub(crate) fn step<T: VersionTable>(
        &mut self,
        table: &mut T,
        worker: u64,
        call: Step,
    ) -> Result<u64, Refusal>
        ensures { Performed (T.meaning table.old) self.old (step_call call worker) (told result) (T.meaning table.new) self.new }
    {
        let seat = self.seat(worker)?;
        self.worker(worker as usize).step(table, seat, call)
    }

    pub(crate) fn seal(&mut self, worker: u64) -> Result<u64, Refusal>
        ensures { (t : Table) → Performed t self.old (Seal worker) (told result) t self.new }
    {
        self.seat(worker)?;
        self.worker(worker as usize).edit(Edit::Seal)
    }

    // A write to one of so many cells.
    pub(crate) fn write(
        &mut self,
        cells: u64,
        worker: u64,
        entry: WriteEntry,
    ) -> Result<u64, Refusal>
        ensures { (t : Table) → t.cells ≡ cells → Performed t self.old (Write worker entry.cell entry.value) (told result) t self.new }
    {
        self.seat(worker)?;
        if entry.cell >= cells {
            return Err(Refusal::NoCell);
        }
        self.worker(worker as usize).edit(Edit::Write(entry))
    }

    pub(crate) fn read<T: VersionTable>(
        &mut self,
        table: &T,
        worker: u64,
        cell: u64,
    ) -> Result<u64, Refusal>
        ensures { Performed (T.meaning table.now) self.old (Read worker cell) (told result) (T.meaning table.now) self.new }
    {
        let seat = self.seat(worker)?;
        if cell >= table.cells() as u64 {
            return Err(Refusal::NoCell);
        }
        self.worker(worker as usize).read(table, seat, cell)
    }

    pub(crate) fn close(&mut self, worker: u64) -> Result<u64, Refusal>
        ensures { (t : Table) → Performed t self.old (Close worker) (told result) t self.new }
    {
        self.seat(worker)?;
        self.worker(worker as usize).glance(Glance::Close)
    }

    // Brings a worker's clock up to another's.
    pub(crate) fn sync(&mut self, worker: u64, other: u64) -> Result<u64, Refusal>
        ensures { (t : Table) → Performed t self.old (Sync worker other) (told result) t self.new }
    {
        self.seat(worker)?;
        self.seat(other)?;
        let time = self.workers[other as usize].time();
        Ok(self.worker(worker as usize).sync(time))
    }

    pub(crate) fn look(&mut self, worker: u64) -> Result<u64, Refusal>
        ensures { (t : Table) → Performed t self.old (Look worker) (told result) t self.new }
    {
        self.seat(worker)?;
        let floor = self.floor();
        self.worker(worker as usize).glance(Glance::Look(floor))
    }

    pub(crate) fn abort<T: VersionTable>(
        &mut self,
        table: &mut T,
        worker: u64,
    ) -> Result<u64, Refusal>
        ensures { Performed (T.meaning table.old) self.old (Abort worker) (told result) (T.meaning table.new) self.new }
    {
        let seat = self.seat(worker)?;
        self.worker(worker as usize).end(table, seat, Ending::Abort)
    }

    pub(crate) fn commit<T: VersionTable>(
        &mut self,
        table: &mut T,
        worker: u64,
    ) -> Result<u64, Refusal>
        ensures { Performed (T.meaning table.old) self.old (Commit worker) (told result) (T.meaning table.new) self.new }
    {
        let seat = self.seat(worker)?;
        let stamp = self
            .worker(worker as usize)
            .end(table, seat, Ending::Commit)?;
        self.commits = (self.commits + 1).min(4294967295);
        Ok(stamp)
    }
}
