//! The file of inputs beside a journal: what a search was started from. docs/JOURNAL.md has its form.
#![tactic(auto)]

pub mod fault;
pub mod field;
pub mod file;
mod group;
pub mod laws;
mod line;
mod list;
pub mod stored;
#[cfg(test)]
mod tests;
mod value;
