// The law of runs: what the calls of a map and their answers come to, whatever the calls are.
//
// specs/ says it: the plain array, what events tell of passes and looks, runs, the law. Nothing here
// performs a call.
#![tactic(auto)]

mod standing;

pub use standing::law_stands;
