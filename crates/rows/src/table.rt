// The row table, as a version table.
ghost use Rattle.std.specs.Prelude.{◌≡◌, nat_lt, if◌then◌else◌};
ghost use Rattle.words.specs.declared.refusal.Refusal.TheVariants.{NoCell};
ghost use Rattle.tables.specs.Table.{cleared};
ghost use Rattle.rows.specs.Places.{eight_places, EightEach};
ghost use Rattle.rows.specs.Rows.{row_lists, rows_sound};

use crate::row::Row;
use std::array;
use tables::VersionTable;
use words::{Ending, Refusal, Version};

const CELLS: usize = 128;

const PLACES: u64 = 8;

// 128 cells of 8 places.
#[derive(Drop)]
pub struct RowTable {
    rows: [Row; 128],
}

impl RowTable {
    // A cleared table.
    pub fn new() -> RowTable
        ensures { eight_places 128 (row_lists result.rows) ≡ eight_places 128 (cleared 128) }
    {
        RowTable {
            rows: array::from_fn(|_| Row::first()),
        }
    }

    // How many places a cell has, taken and free together.
    pub fn places(&self) -> u64
        ensures answer { result ≡ 8 }
        ensures exact { EightEach 128 (eight_places 128 (row_lists self.now.rows)) }
    {
        PLACES
    }
}

// The number of the cell's row, where there is such a cell.
fn row_of(cell: usize) -> Result<usize, Refusal>
    ensures { result ≡ (if nat_lt cell 128 then Ok cell else Err NoCell) }
{
    if cell < CELLS {
        Ok(cell)
    } else {
        Err(Refusal::NoCell)
    }
}

impl VersionTable for RowTable {
    ghost meaning = { λ t. eight_places 128 (row_lists t.rows) };

    ghost sound = { λ t. rows_sound t.rows };

    fn clear(&mut self) -> u64 {
        for row in self.rows.iter_mut() {
            row.clear();
        }
        0
    }

    fn cells(&self) -> usize {
        CELLS
    }

    fn free_places(&self, cell: usize) -> Result<u64, Refusal> {
        Ok(PLACES - self.rows[row_of(cell)?].len() as u64)
    }

    fn length(&self, cell: usize) -> Result<u64, Refusal> {
        Ok(self.rows[row_of(cell)?].len() as u64)
    }

    fn version(&self, cell: usize, at: usize) -> Result<Version, Refusal> {
        self.rows[row_of(cell)?].version(at)
    }

    fn insert(&mut self, cell: usize, stamp: u64, value: u64) -> Result<u64, Refusal> {
        self.rows[row_of(cell)?].insert(stamp, value)
    }

    fn raise(&mut self, cell: usize, stamp: u64, to: u64) -> Result<u64, Refusal> {
        self.rows[row_of(cell)?].raise(stamp, to)
    }

    fn mark(&mut self, cell: usize, stamp: u64, ending: Ending) -> Result<u64, Refusal> {
        self.rows[row_of(cell)?].mark(stamp, ending)
    }

    fn cut(&mut self, cell: usize, stamp: u64) -> Result<u64, Refusal> {
        Ok(self.rows[row_of(cell)?].cut(stamp))
    }
}
