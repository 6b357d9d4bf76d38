// A list of calls on a map, and the law of runs.
ghost use Rattle.std.specs.Prelude.{◌≡◌, length, IfOk};
ghost use Rattle.map.specs.Events.{GoesOn, Upheld};

use crate::plate::PlateMap;
use crate::ran::Ran;
use rules::Call;
use std::alloc::{AllocError, Global};
use tables::VersionTable;
use words::Refusal;

impl<'t, T: VersionTable> PlateMap<'t, T> {
    // Performs calls in order, with one answer for each. A run goes on with their events.
    pub(crate) fn perform_all(
        &mut self,
        heap: Global,
        calls: &[Call],
    ) -> Result<Vec<Result<u64, Refusal>>, AllocError>
        ensures { IfOk result (λ v. (length v.items ≡ length calls.now) × GoesOn T.meaning self.old calls.now v.items self.new) }
    {
        let mut answers = Vec::with_capacity(heap, calls.len())?;
        for call in calls {
            let answer = self.perform(*call);
            answers.push_reserved(answer);
        }
        Ok(answers)
    }

    // Makes a map over a table and performs calls on it in order; gives the answers and the map. Their events
    // are a run, and the law holds of them.
    pub(crate) fn run(
        heap: Global,
        table: &'t mut T,
        workers: u64,
        calls: &[Call],
    ) -> Result<Ran<'t, T>, AllocError>
        ensures { IfOk result (λ x. Upheld T.meaning workers (T.meaning table.old).cells calls.now x.answers.items x.map) }
    {
        let mut map = PlateMap::new(heap, table, workers)?;
        let answers = map.perform_all(heap, calls)?;
        Ok(Ran { map, answers })
    }
}
