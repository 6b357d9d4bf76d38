// The words that every layer shares: a version of a cell, the status of a version, and the
// reasons for which a call is turned down.
//
// Nothing here knows of tables, workers or passes.
#![tactic(auto)]

mod refusal;
mod status;
mod version;

pub use refusal::Refusal;
pub use status::{Ending, Status};
pub use version::Version;
