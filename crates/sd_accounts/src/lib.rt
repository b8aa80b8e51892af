//! The accounts of a run: running counters that take in one entry at a time, and the texts that are written of them
//! behind the entries of a journal, with the blocking cycles of the final state, and as a summary.
#![tactic(auto)]

mod accounts;
mod counters;
mod cycle_lines;
mod events;
mod laps;
mod laws;
mod lines;
mod summary;

pub use accounts::Accounts;
pub use laps::cycles;
pub use laws::blocking_cycles_are_listed;
