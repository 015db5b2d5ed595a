// The search: the record of a run and its steps, and the calls, each in a file of its own. Each call takes the run by
// value and returns it.

#![tactic(auto)]

pub mod answer;
pub mod counting;
pub mod counts;
pub mod last;
pub mod laws;
pub mod next;
pub mod progress;
pub mod result;
pub mod run;
pub mod start;
pub mod stop;
