// One worker of the map, lent to be changed in place.
ghost use Rattle.std.specs.Prelude.{◌≡◌, ◌<◌, vec_len, slice_index_or};
ghost use Rattle.std.specs.Borrow.{sem, follows};
ghost use Rattle.map.specs.contracts.crew.Crew.{the_row as crew-row};
ghost use Rattle.workers.specs.contracts.worker.Worker.{the_row as worker-row};
ghost use Rattle.std.specs.Vec.{with_item};

use crate::crew::Crew;
use workers::Worker;

impl Crew {
    pub(crate) fn worker(&mut self, w: usize) -> &mut Worker
        requires { w < vec_len self.old.workers }
        ensures* follows { sem 𝓛 (follows crew-row worker-row self.entry.ghost_name result.ghost_name (λ v. record { workers = with_item self.old.workers w v; count = self.old.count; commits = self.old.commits; full = self.old.full })) }
        ensures value { result.now ≡ slice_index_or self.old.workers.items w result.now }
    {
        &mut self.workers[w]
    }
}
