// The trait of version tables.
ghost use Rattle.std.specs.Prelude.{◌≡◌, MatchResult};
ghost use Rattle.words.specs.Outcome.{told};
ghost use Rattle.tables.specs.Versions.{raised, marked};
ghost use Rattle.tables.specs.Table.{Table, Sound, Cleared, Inserted, Altered, Cut, free_answer, length_answer, version_answer, insert_answer, raise_answer, mark_answer, cut_answer};

use words::{Ending, Refusal, Version};

// For each cell a list of versions, newest first, and a number of free places. Cells are numbered
// from 0. A refused call changes nothing; an accepted one changes one cell's list. Cell and stamp are two parameters
// of each call, as users name them.
pub trait VersionTable {
    // What a table means; each promise below is about the meanings at entry and at exit.
    ghost meaning: { Self → Table };

    // Every table has at most 1,024 cells, and its stamps never rise along a list.
    ghost sound: { (t : Self) → Sound (meaning t) };

    // Leaves each cell one committed version, both stamps 0, value 0. Answers 0.
    fn clear(&mut self) -> u64
        ensures answer { result ≡ 0 }
        ensures after { Cleared (meaning self.old) (meaning self.new) };

    fn cells(&self) -> usize
        ensures { result ≡ (meaning self.now).cells };

    fn free_places(&self, cell: usize) -> Result<u64, Refusal>
        ensures { told result ≡ free_answer (meaning self.now) cell };

    fn length(&self, cell: usize) -> Result<u64, Refusal>
        ensures { told result ≡ length_answer (meaning self.now) cell };

    // The version at a position, counted from 0, the newest.
    fn version(&self, cell: usize, at: usize) -> Result<Version, Refusal>
        ensures { told result ≡ version_answer (meaning self.now) cell at };

    // Puts a pending version in by its stamp. Answers 0.
    fn insert(&mut self, cell: usize, stamp: u64, value: u64) -> Result<u64, Refusal>
        ensures answer { told result ≡ insert_answer (meaning self.old) cell stamp }
        ensures after { MatchResult result (λ _. Inserted (meaning self.old) (meaning self.new) cell stamp value) (λ _. meaning self.new ≡ meaning self.old) };

    // Raises the read stamp of the version stamped `stamp` to the greater of itself and `to`. Answers 0.
    fn raise(&mut self, cell: usize, stamp: u64, to: u64) -> Result<u64, Refusal>
        ensures answer { told result ≡ raise_answer (meaning self.old) cell stamp }
        ensures after { MatchResult result (λ _. Altered (meaning self.old) (meaning self.new) cell stamp (raised to)) (λ _. meaning self.new ≡ meaning self.old) };

    // Ends the pending version stamped `stamp`. Answers 0.
    fn mark(&mut self, cell: usize, stamp: u64, ending: Ending) -> Result<u64, Refusal>
        ensures answer { told result ≡ mark_answer (meaning self.old) cell stamp }
        ensures after { MatchResult result (λ _. Altered (meaning self.old) (meaning self.new) cell stamp (marked ending)) (λ _. meaning self.new ≡ meaning self.old) };

    // Removes every version stamped below the stamp. Answers how many.
    fn cut(&mut self, cell: usize, stamp: u64) -> Result<u64, Refusal>
        ensures answer { told result ≡ cut_answer (meaning self.old) cell stamp }
        ensures after { MatchResult result (λ _. Cut (meaning self.old) (meaning self.new) cell stamp) (λ _. meaning self.new ≡ meaning self.old) };
}
