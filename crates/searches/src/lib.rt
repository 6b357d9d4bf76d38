// Searches: along the list of a cell, on any version table, and in a set of entries that name cells.
#![tactic(auto)]

mod entries;
mod sought;
mod walk;

pub use entries::{NamesCell, find};
pub use sought::Sought;
pub use walk::search;
