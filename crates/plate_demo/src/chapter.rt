// The scan, played on any table. Console and table travel as two parameters: of a struct that holds both, over
// the chained table, the checker says that its reference "would stand at several lifetimes at once".
use crate::report::{Told, print_list};
use crate::scan::{CLEARING, READINGS, REFUSALS, UPKEEP, filling};
use std::io;
use tables::{TableCall, VersionTable, perform};

// The whole scan on a cleared table; a cell of it is filled by `inserts` calls, of which the last
// finds no place.
pub fn play_scan<T: VersionTable>(
    rt: &HostRuntime,
    name: &str,
    table: &mut T,
    inserts: u32,
) -> io::Result<()> {
    println!(rt; "On {name}")?;
    play(rt, table, "Readings", &READINGS)?;
    play(rt, table, "Upkeep", &UPKEEP)?;
    play(rt, table, "Refusals", &REFUSALS)?;
    println!(rt; "  Filling a cell")?;
    for n in 1..=inserts {
        play_call(rt, table, filling(n))?;
    }
    play(rt, table, "Clearing", &CLEARING)
}

fn play<T: VersionTable>(
    rt: &HostRuntime,
    table: &mut T,
    title: &str,
    calls: &[TableCall],
) -> io::Result<()> {
    println!(rt; "  {title}")?;
    for call in calls {
        play_call(rt, table, *call)?;
    }
    Ok(())
}

fn play_call<T: VersionTable>(rt: &HostRuntime, table: &mut T, call: TableCall) -> io::Result<()> {
    let told = Told(perform(table, call));
    println!(rt; "    {call}: {told}")?;
    match cell_of(call) {
        Some(cell) => print_list(rt, table, cell),
        None => Ok(()),
    }
}

fn cell_of(call: TableCall) -> Option<usize> {
    match call {
        TableCall::Clear | TableCall::Cells => None,
        TableCall::FreePlaces { cell }
        | TableCall::Length { cell }
        | TableCall::Version { cell, .. }
        | TableCall::Insert { cell, .. }
        | TableCall::Raise { cell, .. }
        | TableCall::Mark { cell, .. }
        | TableCall::Cut { cell, .. } => Some(cell),
    }
}
