// The search along a cell's list.
ghost use Rattle.std.specs.Prelude.{◌≡◌};
ghost use Rattle.words.specs.Outcome.{told};
ghost use Rattle.rules.specs.Search.{search};
ghost use Rattle.searches.specs.Judge.{looks_for};

use crate::sought::Sought;
use tables::VersionTable;
use words::{Refusal, Version};

// The version of a cell that is sought, newest to oldest: the first that counts. A pending version that
// is met is WAIT; where none counts, NO VERSION.
pub fn search<T: VersionTable>(table: &T, cell: usize, sought: Sought) -> Result<Version, Refusal>
    ensures { told result ≡ search (looks_for sought) (T.meaning table.now) cell }
{
    for at in 0..=usize::MAX {
        if let Some(version) = sought.judge(table.version(cell, at)?)? {
            return Ok(version);
        }
    }
    Err(Refusal::NoVersion)
}
