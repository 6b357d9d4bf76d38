// The spare-place layer: one more place for each cell, over any version table.
//
// The layer is a version table itself, so layers can stand on layers. It holds the table below by
// reference and keeps the spare places beside it; a cell's list is the list below with the spare
// version put in by its stamp.
#![tactic(auto)]

mod ask;
mod layer;
mod spares;

pub use layer::SpareLayer;
