// The sixteen calls of a map, with their numbers. Numbers come from outside and are not limited.

#[derive(Clone, Copy, Debug, PartialEq, Eq)]
pub enum Call {
    // Opens a pass after so many units of 0.1 microsecond.
    Begin { worker: u64, units: u64 },
    // Lets the clock go on by so many units, without a pass.
    Pulse { worker: u64, units: u64 },
    // Brings a worker's clock up to another's.
    Sync { worker: u64, other: u64 },
    Read { worker: u64, cell: u64 },
    Write { worker: u64, cell: u64, value: u64 },
    // Ends the reads and writes of a pass.
    Seal { worker: u64 },
    // The steps of a sealed pass: one write put in pending, one read stamped, one read or write checked.
    Install { worker: u64 },
    Stamp { worker: u64 },
    Check { worker: u64 },
    Commit { worker: u64 },
    Abort { worker: u64 },
    // Opens and ends a look.
    Look { worker: u64 },
    Close { worker: u64 },
    // Questions to the map and the collection of a cell's old versions.
    Show { cell: u64 },
    Commits,
    Collect { cell: u64 },
}
