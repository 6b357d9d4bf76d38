// Questions to any table that the layer needs and no table has as a call.
ghost use Rattle.std.specs.Prelude.{◌≡◌, ◌&&◌, nat_lt};
ghost use Rattle.words.specs.Outcome.{told};
ghost use Rattle.tables.specs.Versions.{holds, with_version};
ghost use Rattle.tables.specs.Table.{in_cell, version_in};

use tables::VersionTable;
use words::{Refusal, Version};

// Whether the list of a cell has a version of that stamp; a cell that is not there has none.
//
// It asks by a raise to 0, which is accepted if the stamp is there, and changes nothing, since no
// read stamp is below 0. This is exact on every list, and a walk would not be: nothing bounds the
// length of a list, and positions end at 2^64 - 1.
pub(crate) fn has_stamp<T: VersionTable>(table: &mut T, cell: usize, stamp: u64) -> bool
    ensures answer { result ≡ (nat_lt cell (T.meaning table.old).cells && holds stamp ((T.meaning table.old).versions cell)) }
    ensures after { T.meaning table.new ≡ T.meaning table.old }
{
    table.raise(cell, stamp, 0).is_ok()
}

// The version at a position of a cell's list, were the spare version put into the list.
//
// There is no walk. Stamps never rise along the list, so the versions at the position and before
// it tell on which side of the spare version the position is.
pub(crate) fn version_beside<T: VersionTable>(
    table: &T,
    spare: Version,
    cell: usize,
    at: usize,
) -> Result<Version, Refusal>
    ensures { told result ≡ in_cell (T.meaning table.now) cell (version_in (with_version spare ((T.meaning table.now).versions cell)) at) }
{
    if cell >= table.cells() {
        return Err(Refusal::NoCell);
    }
    let here = table.version(cell, at);
    if here.is_ok_and(|version| version.write > spare.write) {
        return here;
    }
    if at == 0 {
        return Ok(spare);
    }
    let before = table.version(cell, at - 1)?;
    if before.write > spare.write {
        return Ok(spare);
    }
    Ok(before)
}
