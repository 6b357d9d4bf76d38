// The rules of the plate map: its calls and its sets' entries as values, and, in specs/, one total
// function from a model and a call to the answer and the next model.
//
// Nothing here performs a call.
#![tactic(auto)]

mod call;
mod entry;
mod standing;

pub use call::Call;
pub use entry::{ReadEntry, WriteEntry};
pub use standing::rules_stand;
