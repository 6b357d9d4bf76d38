// The plate map: a lent version table, sixteen worker places, and the sixteen calls.
//
// Every call is proved to do what the rules say to the whole map, on any table, and every list of calls
// is proved to be a run, of which the law holds. The calls are not offered to other crates yet.
#![tactic(auto)]

mod api;
mod calls;
mod cells;
mod crew;
mod floor;
mod lend;
mod lines;
mod make;
mod perform;
mod plate;
mod ran;
mod run;
