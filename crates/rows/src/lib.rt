// The row table: 128 cells, each a row of at most 8 versions, in fixed memory.
//
// A row is proved by itself against the meaning of one cell's list; the table then only chooses
// the row that a call names.
#![tactic(auto)]

mod change;
mod row;
mod search;
mod table;

pub use table::RowTable;
