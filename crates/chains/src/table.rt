// The chained table: lent memory that is kept in order.
ghost use Rattle.std.specs.Prelude.{◌≡◌, ◌≤◌, length, drop, MatchResult};
ghost use Rattle.words.specs.Outcome.{refuse};
ghost use Rattle.words.specs.declared.refusal.Refusal.TheVariants.{NoCell};
ghost use Rattle.tables.specs.Table.{raise_answer};
ghost use Rattle.chains.specs.Store.{store, mean, ChainOf, chained_clear, cells_of, used_of};
ghost use Rattle.chains.specs.Kept.{Kept, SharedPlaces};
ghost use Rattle.chains.specs.Walk.{StampedAt};

use crate::chain::Chain;
use crate::links::Links;
use crate::record::Record;
use words::Refusal;

// Cells whose versions are chained records of lent memory; free records are shared by all cells.
#[derive(Drop)]
pub struct ChainTable<'a> {
    pub(crate) links: Links<'a>,
    ghost kept: { Kept (store links) },
}

impl<'a> ChainTable<'a> {
    // A cleared table over the lent memory, whatever it held.
    pub fn over(heads: &'a mut [Option<usize>], records: &'a mut [Record]) -> ChainTable<'a>
        ensures cells { (store result.links).cells ≡ cells_of (length heads.old) (length records.old) }
        ensures used { (store result.links).used ≡ used_of (length records.old) }
        ensures cleared { mean result.links ≡ chained_clear (store result.links).cells (store result.links).used }
        ensures heads { drop (store result.links).cells (store result.links).heads ≡ drop (store result.links).cells heads.old }
        ensures records { drop (store result.links).used (store result.links).records ≡ drop (store result.links).used records.old }
    {
        let used = records.len().min(8192);
        let cells = heads.len().min(1024).min(used.saturating_sub(2));
        let mut links = Links {
            heads,
            records,
            cells,
            used,
            free: None,
            free_count: 0,
        };
        links.clear();
        ChainTable { links }
    }

    // How many records the table uses, free ones among them.
    pub fn records(&self) -> u64
        ensures answer { result ≡ (store self.now.links).used }
        ensures exact { SharedPlaces (store self.now.links).used (mean self.now.links) }
    {
        self.links.used as u64
    }

    // The chain of a cell that is there.
    pub(crate) fn chain(&self, cell: usize) -> Result<Chain<'_>, Refusal>
        ensures { MatchResult result (λ chain. ChainOf (store self.now.links) cell chain.records.now chain.first) (λ refusal. (refusal ≡ NoCell) × (self.now.links.cells ≤ cell)) }
    {
        if cell >= self.links.cells {
            return Err(Refusal::NoCell);
        }
        Ok(Chain {
            records: self.links.records,
            first: self.links.heads[cell],
        })
    }

    // The record of the first version of the cell with that stamp. It is refused as a raise is.
    pub(crate) fn stamped(&self, cell: usize, stamp: u64) -> Result<usize, Refusal>
        ensures { MatchResult result (λ at. StampedAt (store self.now.links) cell stamp at) (λ refusal. refuse refusal ≡ raise_answer (mean self.now.links) cell stamp) }
    {
        self.chain(cell)?.stamped(stamp).ok_or(Refusal::NoVersion)
    }
}
