// The calls of the scan. Stamps are such as two workers' clocks would give; values are
// thicknesses in micrometres.
ghost use Rattle.std.specs.Prelude.{◌≡◌, ◌+◌, ◌*◌};
ghost use Rattle.tables.specs.declared.call.TableCall.TheVariants.{Insert};

use tables::TableCall;
use words::Ending;

const CELL: usize = 17;

// Two readings are committed and one is aborted. The one stamped 1792 comes last and still
// stands below 2305.
pub const READINGS: [TableCall; 8] = [
    TableCall::Cells,
    TableCall::FreePlaces { cell: CELL },
    TableCall::Insert {
        cell: CELL,
        stamp: 1280,
        value: 2850,
    },
    TableCall::Mark {
        cell: CELL,
        stamp: 1280,
        ending: Ending::Commit,
    },
    TableCall::Insert {
        cell: CELL,
        stamp: 2305,
        value: 3000,
    },
    TableCall::Mark {
        cell: CELL,
        stamp: 2305,
        ending: Ending::Abort,
    },
    TableCall::Insert {
        cell: CELL,
        stamp: 1792,
        value: 2900,
    },
    TableCall::Mark {
        cell: CELL,
        stamp: 1792,
        ending: Ending::Commit,
    },
];

// The read stamp of 1280 rises once and does not fall back; a cut lets the versions below 1792 go.
pub const UPKEEP: [TableCall; 6] = [
    TableCall::Raise {
        cell: CELL,
        stamp: 1280,
        to: 2305,
    },
    TableCall::Raise {
        cell: CELL,
        stamp: 1280,
        to: 1536,
    },
    TableCall::Length { cell: CELL },
    TableCall::Version { cell: CELL, at: 2 },
    TableCall::Cut {
        cell: CELL,
        stamp: 1792,
    },
    TableCall::FreePlaces { cell: CELL },
];

// Each refusal of a table but NO PLACE, which comes when a cell is filled.
pub const REFUSALS: [TableCall; 5] = [
    TableCall::Insert {
        cell: 1024,
        stamp: 2560,
        value: 2850,
    },
    TableCall::Insert {
        cell: CELL,
        stamp: 1792,
        value: 2850,
    },
    TableCall::Version { cell: CELL, at: 2 },
    TableCall::Raise {
        cell: CELL,
        stamp: 1280,
        to: 2560,
    },
    TableCall::Mark {
        cell: CELL,
        stamp: 1792,
        ending: Ending::Abort,
    },
];

pub const CLEARING: [TableCall; 2] = [TableCall::Clear, TableCall::Length { cell: CELL }];

// The nth insert that fills a cell, n from 1.
pub fn filling(n: u32) -> TableCall
    ensures { result ≡ Insert 40 (256 * n) (2800 + n) }
{
    let n = u64::from(n);
    TableCall::Insert {
        cell: 40,
        stamp: 256 * n,
        value: 2800 + n,
    }
}
