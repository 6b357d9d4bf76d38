// The chained table: versions as records in lent memory, linked newest to oldest.
//
// Free records are shared by all cells. A record stands in one chain at a time, that of a cell or
// that of the free records; every call only relinks records.
#![tactic(auto)]

mod calls;
mod chain;
mod clear;
mod links;
mod record;
mod table;

pub use record::Record;
pub use table::ChainTable;
