// The law of runs, owed here.
ghost use Rattle.law.specs.Law.{LawOfRuns};

// For every number of workers and cells, every table that keeps its contract and every list of calls:
// committed passes replay one at a time by their timestamps, looks read one snapshot and never wait,
// the earliest sealed pass never waits.
pub fn law_stands()
    ensures law { LawOfRuns }
{}
