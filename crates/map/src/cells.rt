// show and collect: the calls of a cell.
ghost use Rattle.words.specs.Outcome.{told};
ghost use Rattle.rules.specs.declared.call.Call.TheVariants.{Show, Collect};
ghost use Rattle.map.specs.Performed.{Performed};

use crate::crew::Crew;
use searches::{Sought, search};
use tables::VersionTable;
use words::Refusal;

impl Crew {
    // The newest committed value of a cell.
    pub(crate) fn show<T: VersionTable>(&self, table: &T, cell: u64) -> Result<u64, Refusal>
        ensures { Performed (T.meaning table.now) self.now (Show cell) (told result) (T.meaning table.now) self.now }
    {
        Ok(search(table, cell as usize, Sought::Newest)?.value)
    }

    // Cuts a cell at its newest committed version below the keep line; answers how many versions went.
    pub(crate) fn collect<T: VersionTable>(&self, table: &mut T, cell: u64) -> Result<u64, Refusal>
        ensures { Performed (T.meaning table.old) self.now (Collect cell) (told result) (T.meaning table.new) self.now }
    {
        let line = self.keep_line();
        let version = search(&*table, cell as usize, Sought::NewestBelow(line))?;
        table.cut(cell as usize, version.write)
    }
}
