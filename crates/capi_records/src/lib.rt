// What enums and arrays become for callers in C: structs of numbers, which C lays out in the same way. A refusal
// becomes its number, and a value that it leaves out is 0. A flag is a byte, 0 or not 0. Each function equals its
// definition in specs/.

#![tactic(auto)]

pub mod cameras;
pub mod journals;
pub mod laws;
pub mod lists;
pub mod plate;
pub mod record;
pub mod replays;
pub mod run;
pub mod scoring;
