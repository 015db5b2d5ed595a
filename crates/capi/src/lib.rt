// The functions that other languages call, under C's names and types: every operation and entry point, with numbers,
// structs of numbers and slices (a pointer and a length). Each contract is an equation with the definition that is
// exported. An enum becomes a number, a value that a refusal leaves out is 0, and a flag is a byte, 0 or not 0.
// include/jinnychair.h declares the functions.

#![tactic(auto)]

pub mod cameras;
pub mod echo;
pub mod journals;
pub mod lists;
pub mod plate;
pub mod replays;
pub mod run;
pub mod scoring;
pub mod version;
