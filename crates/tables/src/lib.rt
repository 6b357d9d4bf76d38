// What a version table is: the trait that every table keeps, and its calls as values.
//
// A table keeps, for each of its cells, the versions of that cell, newest first. Everything
// above is generic over the trait and is proved once, against what the trait says a table means.
#![tactic(auto)]

mod call;
mod cut;
mod table;

pub use call::{Answer, TableCall, perform};
pub use cut::stays;
pub use table::VersionTable;
