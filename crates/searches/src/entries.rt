// Sets of entries that name a cell, and the one search of them all.
ghost use Rattle.std.specs.Prelude.{◌≡◌, ℕ, ◌<◌, ◌==◌, length, IfSome};
ghost use Rattle.std.specs.List.{position};

use rules::{ReadEntry, WriteEntry};

pub trait NamesCell {
    ghost named: { Self → ℕ };

    fn cell(&self) -> u64
        ensures { result ≡ named self.now };
}

// One impl for each kind of entry: an impl that a macro of this repository wrote is not accepted.
impl NamesCell for ReadEntry {
    ghost named = { λ e. e.cell };

    fn cell(&self) -> u64 {
        self.cell
    }
}

impl NamesCell for WriteEntry {
    ghost named = { λ e. e.cell };

    fn cell(&self) -> u64 {
        self.cell
    }
}

// The position of the first entry for a cell.
pub fn find<E: NamesCell>(entries: &[E], cell: u64) -> Option<usize>
    ensures place { result ≡ position (λ e. E.named e == cell) entries.now }
    ensures within { IfSome result (λ i. i < length entries.now) }
{
    entries.iter().position(|entry| entry.cell() == cell)
}
