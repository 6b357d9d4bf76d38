// A call as a value, performed.
ghost use Rattle.std.specs.Prelude.{[], ◌∷◌};
ghost use Rattle.words.specs.Outcome.{told};
ghost use Rattle.map.specs.Performed.{Did};
ghost use Rattle.map.specs.Events.{GoesOn};

use crate::plate::PlateMap;
use rules::Call;
use tables::VersionTable;
use words::Refusal;

impl<'t, T: VersionTable> PlateMap<'t, T> {
    fn dispatch(&mut self, call: Call) -> Result<u64, Refusal>
        ensures { Did T.meaning self.old call (told result) self.new }
    {
        match call {
            Call::Begin { worker, units } => self.begin(worker, units),
            Call::Pulse { worker, units } => self.pulse(worker, units),
            Call::Sync { worker, other } => self.sync(worker, other),
            Call::Read { worker, cell } => self.read(worker, cell),
            Call::Write {
                worker,
                cell,
                value,
            } => self.write(worker, cell, value),
            Call::Seal { worker } => self.seal(worker),
            Call::Install { worker } => self.install(worker),
            Call::Stamp { worker } => self.stamp(worker),
            Call::Check { worker } => self.check(worker),
            Call::Commit { worker } => self.commit(worker),
            Call::Abort { worker } => self.abort(worker),
            Call::Look { worker } => self.look(worker),
            Call::Close { worker } => self.close(worker),
            Call::Show { cell } => self.show(cell),
            Call::Commits => self.commits(),
            Call::Collect { cell } => self.collect(cell),
        }
    }

    // Performs a call. A run followed by it is the run longer by the call's event, so the law holds of every
    // list of calls, however each was chosen.
    pub(crate) fn perform(&mut self, call: Call) -> Result<u64, Refusal>
        ensures performed { Did T.meaning self.old call (told result) self.new }
        ensures longer { GoesOn T.meaning self.old (call ∷ []) (result ∷ []) self.new }
    {
        self.dispatch(call)
    }
}
