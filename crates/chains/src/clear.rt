// Clearing: the first records become the cells' first versions, the others are free.
ghost use Rattle.std.specs.Prelude.{◌≡◌, ℕ, ◌-◌, ◌<◌, ◌≤◌, length, drop, Some, None, slice_index_or};
ghost use Rattle.tables.specs.Table.{cleared};
ghost use Rattle.chains.specs.Chain.{blank};
ghost use Rattle.chains.specs.Store.{store, list, cleared_record, Unused};
ghost use Rattle.chains.specs.Kept.{Sized, Kept};

use crate::links::Links;
use crate::record::Record;
use words::Version;

// Each cell's chain begins at the record of its number.
fn write_heads(heads: &mut [Option<usize>], cells: usize)
    requires { cells ≤ length heads.old }
    ensures written { (k : ℕ) → k < cells → slice_index_or heads.new k None ≡ Some k }
    ensures others { drop cells heads.new ≡ drop cells heads.old }
{
    for (cell, head) in heads[..cells].iter_mut().enumerate() {
        *head = Some(cell);
    }
}

// A first version for each cell, and behind them the free records, each leading to the next.
fn write_records(records: &mut [Record], cells: usize, used: usize)
    requires { used ≤ length records.old }
    ensures written { (k : ℕ) → k < used → slice_index_or records.new k blank ≡ cleared_record cells used k }
    ensures others { drop used records.new ≡ drop used records.old }
{
    for (at, record) in records[..used].iter_mut().enumerate() {
        *record = Record {
            version: Version::first(),
            next: (cells <= at && at + 1 < used).then_some(at + 1),
        };
    }
}

impl<'a> Links<'a> {
    pub(crate) fn clear(&mut self)
        requires { Sized (store self.old) }
        ensures kept { Kept (store self.new) }
        ensures lists { list (store self.new) ≡ cleared self.old.cells }
        ensures free { (store self.new).count ≡ self.old.used - self.old.cells }
        ensures unused { Unused (store self.old) (store self.new) }
    {
        let cells = self.cells;
        let used = self.used;
        write_heads(self.heads, cells);
        write_records(self.records, cells, used);
        self.free = (cells < used).then_some(cells);
        self.free_count = used - cells;
    }
}
