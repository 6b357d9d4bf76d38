// One worker of a map: its clock, the sets of the pass that it runs, and what each of its calls does to it
// and to the table.
//
// A call is told the worker's seat, which is its number: a worker that kept it would have to promise in each
// call that it stays. Stage and call are matched together, in place (docs/DECISIONS.md). Nothing here knows of
// other workers.
#![tactic(auto)]

mod clock;
mod edit;
mod ends;
mod glance;
mod make;
mod read;
mod seat;
mod stage;
mod steps;
mod time;
mod worker;

pub use clock::Tick;
pub use edit::Edit;
pub use glance::Glance;
pub use seat::Seat;
pub use stage::Stage;
pub use steps::Step;
pub use time::Time;
pub use worker::Worker;
