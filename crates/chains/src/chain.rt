// A chain of records, newest to oldest. A walk looks at the chain's own records only.
ghost use Rattle.std.specs.Prelude.{◌≡◌, ◌<◌, true, length, is_some, IfSome};
ghost use Rattle.words.specs.Outcome.{told};
ghost use Rattle.tables.specs.Versions.{holds};
ghost use Rattle.tables.specs.Table.{version_in};
ghost use Rattle.chains.specs.Chain.{path, good, along, met};
ghost use Rattle.chains.specs.Walk.{Found, Placed};

use crate::record::Record;
use words::{Refusal, Version};

// The records from the link `first` on, to its end.
#[derive(Clone, Copy)]
pub(crate) struct Chain<'a> {
    pub(crate) records: &'a [Record],
    pub(crate) first: Option<usize>,
    ghost ends: { good records.now first ≡ true },
}

// Between which records of a chain a stamp has its place.
#[derive(Clone, Copy, Debug, PartialEq, Eq)]
pub(crate) struct Place {
    pub(crate) newer: Option<usize>,
    pub(crate) older: Option<usize>,
}

// Gives each record's position and version.
impl<'a> Iterator for Chain<'a> {
    ghost use Rattle.std.specs.Iterator.{YieldsFirst, item_count};

    type Item = (usize, Version);

    ghost next_gives = { YieldsFirst (λ c. met c.records.now c.first) };

    ghost remaining = { item_count (λ c. met c.records.now c.first) };

    fn next(&mut self) -> Option<(usize, Version)> {
        let at = self.first?;
        let Record { version, next } = self.records[at];
        self.first = next;
        Some((at, version))
    }
}

impl<'a> Chain<'a> {
    pub(crate) fn length(self) -> usize
        ensures { result ≡ length (along self.entry.records.now self.entry.first) }
    {
        self.count()
    }

    // The version so many links on.
    pub(crate) fn version(mut self, position: usize) -> Result<Version, Refusal>
        ensures { told result ≡ version_in (along self.entry.records.now self.entry.first) position }
    {
        self.nth(position)
            .map(|(_, version)| version)
            .ok_or(Refusal::NoVersion)
    }

    // The record of the first version with that stamp.
    pub(crate) fn stamped(mut self, stamp: u64) -> Option<usize>
        ensures test { is_some result ≡ holds stamp (along self.entry.records.now self.entry.first) }
        ensures found { IfSome result (λ i. Found self.entry.records.now (path self.entry.records.now self.entry.first) stamp i) }
    {
        self.find(|(_, version)| version.write == stamp)
            .map(|(at, _)| at)
    }

    // The place of a stamp: behind every version that is stamped above it.
    pub(crate) fn place(self, stamp: u64) -> Place
        ensures { Placed self.entry.records.now self.entry.first stamp result.newer result.older }
    {
        let mut newer = None;
        for (at, version) in self {
            if version.write <= stamp {
                return Place {
                    newer,
                    older: Some(at),
                };
            }
            newer = Some(at);
        }
        Place { newer, older: None }
    }
}
