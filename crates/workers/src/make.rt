// The making of a worker.
ghost use Rattle.std.specs.Prelude.{◌≡◌, IfOk};
ghost use Rattle.rules.specs.Model.{new_worker};

use crate::stage::Stage;
use crate::worker::Worker;
use rules::{ReadEntry, WriteEntry};
use std::alloc::{AllocError, Global};

impl Worker {
    // A worker before its first call, with room for both sets.
    pub fn new(heap: Global) -> Result<Worker, AllocError>
        ensures { IfOk result (λ x. x ≡ new_worker) }
    {
        let reads: Vec<ReadEntry> = Vec::with_capacity(heap, 16)?;
        let writes: Vec<WriteEntry> = Vec::with_capacity(heap, 16)?;
        Ok(Worker {
            clock: 0,
            boost: 0,
            last: 1,
            stage: Stage::Idle,
            reads,
            writes,
        })
    }
}
