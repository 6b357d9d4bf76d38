// A small scan of a plate on each version table, call by call: what was called, what was answered,
// and what the cell's list then holds.
#![tactic(auto)]

mod chapter;
mod report;
mod scan;

use chains::{ChainTable, Record};
use chapter::play_scan;
use rows::RowTable;
use spare::SpareLayer;
use std::io;

fn main(rt: HostRuntime) -> io::Result<()> {
    on_rows(&rt)?;
    on_chains(&rt)
}

// The row table, and the row table with a spare place beside each cell.
fn on_rows(rt: &HostRuntime) -> io::Result<()> {
    let mut rows = RowTable::new();
    play_scan(rt, "the row table", &mut rows, 8)?;
    let mut spared = SpareLayer::over(&mut rows);
    play_scan(rt, "the row table with the spare place", &mut spared, 9)
}

// The chained table over 48 heads and 56 records, so that 8 records are free after clear; and the
// same with a spare place beside each cell.
fn on_chains(rt: &HostRuntime) -> io::Result<()> {
    let mut heads = [None; 48];
    let mut records = [Record::blank(); 56];
    let mut chains = ChainTable::over(&mut heads, &mut records);
    play_scan(rt, "the chained table", &mut chains, 8)?;
    let mut spared = SpareLayer::over(&mut chains);
    play_scan(rt, "the chained table with the spare place", &mut spared, 9)
}
