//! The entries of a run, each in 28 bytes and in one more for each number that it read of a processor.
#![tactic(auto)]

mod entry_log;
mod parts;
mod short;

pub use entry_log::EntryLog;
pub use parts::{Numbers, Parts};
