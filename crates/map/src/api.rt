// The sixteen calls of the map, as they are to be offered. The crew has calls of the same names beside them, which
// take the table as a parameter: the checker has no rule yet for them on a struct that holds a reference.
ghost use Rattle.words.specs.Outcome.{told};
ghost use Rattle.rules.specs.declared.call.Call.TheVariants.{Begin, Pulse, Sync, Read, Write, Seal, Install, Stamp, Check, Commit, Abort, Look, Close, Show, Commits, Collect};
ghost use Rattle.map.specs.Performed.{Did};

use crate::plate::PlateMap;
use rules::WriteEntry;
use tables::VersionTable;
use words::Refusal;
use workers::{Step, Tick};

impl<'t, T: VersionTable> PlateMap<'t, T> {
    // Opens a pass and answers its timestamp.
    pub(crate) fn begin(&mut self, worker: u64, units: u64) -> Result<u64, Refusal>
        ensures { Did T.meaning self.old (Begin worker units) (told result) self.new }
    {
        self.crew.tick(worker, Tick::Begin, units)
    }

    // Lets the clock go on and answers the timestamp.
    pub(crate) fn pulse(&mut self, worker: u64, units: u64) -> Result<u64, Refusal>
        ensures { Did T.meaning self.old (Pulse worker units) (told result) self.new }
    {
        self.crew.tick(worker, Tick::Pulse, units)
    }

    // Brings a worker's clock up to another's and answers it.
    pub(crate) fn sync(&mut self, worker: u64, other: u64) -> Result<u64, Refusal>
        ensures { Did T.meaning self.old (Sync worker other) (told result) self.new }
    {
        self.crew.sync(worker, other)
    }

    // Answers a value to a pass or a look.
    pub(crate) fn read(&mut self, worker: u64, cell: u64) -> Result<u64, Refusal>
        ensures { Did T.meaning self.old (Read worker cell) (told result) self.new }
    {
        self.crew.read(&*self.table, worker, cell)
    }

    // Notes a write of a pass and answers how many it has.
    pub(crate) fn write(&mut self, worker: u64, cell: u64, value: u64) -> Result<u64, Refusal>
        ensures { Did T.meaning self.old (Write worker cell value) (told result) self.new }
    {
        let cells = self.table.cells() as u64;
        self.crew.write(cells, worker, WriteEntry { cell, value })
    }

    // Ends the reads and writes of a pass and answers the steps to do.
    pub(crate) fn seal(&mut self, worker: u64) -> Result<u64, Refusal>
        ensures { Did T.meaning self.old (Seal worker) (told result) self.new }
    {
        self.crew.seal(worker)
    }

    // Puts the next write in, pending, and answers the steps left.
    pub(crate) fn install(&mut self, worker: u64) -> Result<u64, Refusal>
        ensures { Did T.meaning self.old (Install worker) (told result) self.new }
    {
        self.crew.step(self.table, worker, Step::Install)
    }

    // Stamps the next read and answers the steps left.
    pub(crate) fn stamp(&mut self, worker: u64) -> Result<u64, Refusal>
        ensures { Did T.meaning self.old (Stamp worker) (told result) self.new }
    {
        self.crew.step(self.table, worker, Step::Stamp)
    }

    // Checks the next read or write and answers the steps left.
    pub(crate) fn check(&mut self, worker: u64) -> Result<u64, Refusal>
        ensures { Did T.meaning self.old (Check worker) (told result) self.new }
    {
        self.crew.step(self.table, worker, Step::Check)
    }

    // Makes a pass count and answers its timestamp.
    pub(crate) fn commit(&mut self, worker: u64) -> Result<u64, Refusal>
        ensures { Did T.meaning self.old (Commit worker) (told result) self.new }
    {
        self.crew.commit(self.table, worker)
    }

    // Gives a pass up and answers how many writes it had installed.
    pub(crate) fn abort(&mut self, worker: u64) -> Result<u64, Refusal>
        ensures { Did T.meaning self.old (Abort worker) (told result) self.new }
    {
        self.crew.abort(self.table, worker)
    }

    // Opens a look and answers its floor.
    pub(crate) fn look(&mut self, worker: u64) -> Result<u64, Refusal>
        ensures { Did T.meaning self.old (Look worker) (told result) self.new }
    {
        self.crew.look(worker)
    }

    // Ends a look.
    pub(crate) fn close(&mut self, worker: u64) -> Result<u64, Refusal>
        ensures { Did T.meaning self.old (Close worker) (told result) self.new }
    {
        self.crew.close(worker)
    }

    // Answers a cell's newest committed value.
    pub(crate) fn show(&mut self, cell: u64) -> Result<u64, Refusal>
        ensures { Did T.meaning self.old (Show cell) (told result) self.new }
    {
        self.crew.show(&*self.table, cell)
    }

    // Answers how many commits were accepted.
    pub(crate) fn commits(&mut self) -> Result<u64, Refusal>
        ensures { Did T.meaning self.old (Commits) (told result) self.new }
    {
        Ok(self.crew.commits)
    }

    // Cuts a cell's old versions off and answers how many.
    pub(crate) fn collect(&mut self, cell: u64) -> Result<u64, Refusal>
        ensures { Did T.meaning self.old (Collect cell) (told result) self.new }
    {
        self.crew.collect(self.table, cell)
    }
}
