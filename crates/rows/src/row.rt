// One row: the versions of one cell, in fixed memory.
ghost use Rattle.std.specs.Prelude.{◌≡◌, ◌≤◌, true, length};
ghost use Rattle.tables.specs.Versions.{sinks};

use arrayvec::ArrayVec;
use words::Version;

// Newest first. The facts are ghost fields and no `impl Model`: the law `sound` of every table reads
// `sinking` from each row's value, and a view would hide it.
#[derive(Drop)]
pub(crate) struct Row {
    pub(crate) versions: ArrayVec<Version, 8>,
    ghost short: { length versions.items ≤ 8 },
    ghost sinking: { sinks versions.items ≡ true },
}
