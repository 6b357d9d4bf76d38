// The making of the worker places.
ghost use Rattle.std.specs.Prelude.{◌≡◌, replicate, IfOk, vec_len};
ghost use Rattle.rules.specs.Model.{new_worker, new_map, workers_of};
ghost use Rattle.tables.specs.Table.{Cleared};
ghost use Rattle.map.specs.Plate.{model_of};

use crate::crew::Crew;
use crate::plate::PlateMap;
use std::alloc::{AllocError, Global};
use tables::VersionTable;
use workers::Worker;

impl Crew {
    // Sixteen workers before their first call; so many as asked for, counted as 1 to 16, are in use.
    pub(crate) fn new(heap: Global, asked: u64) -> Result<Crew, AllocError>
        ensures { IfOk result (λ c. (c.workers.items ≡ replicate 16 new_worker) × (c.count ≡ workers_of asked) × (c.commits ≡ 0)) }
    {
        let mut workers = Vec::new(heap);
        for _n in 0..16usize {
            let worker = Worker::new(heap)?;
            workers.push(worker)?;
        }
        Ok(Crew {
            workers,
            count: asked.min(16).max(1),
            commits: 0,
        })
    }
}

impl<'t, T: VersionTable> PlateMap<'t, T> {
    // A map over a table, which it clears, of so many workers. Where there is no memory for the workers the
    // table stays as it was.
    pub(crate) fn new(
        heap: Global,
        table: &'t mut T,
        workers: u64,
    ) -> Result<PlateMap<'t, T>, AllocError>
        ensures { IfOk result (λ m. Cleared (T.meaning table.old) (T.meaning m.table.now) × (model_of T.meaning m ≡ new_map workers (T.meaning table.old).cells)) }
    {
        let crew = Crew::new(heap, workers)?;
        table.clear();
        Ok(PlateMap { table, crew })
    }
}
