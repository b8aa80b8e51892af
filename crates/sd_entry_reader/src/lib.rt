//! The entry that a line of a journal tells.
#![tactic(auto)]

mod cutting;
mod events;
mod fitting;
mod indexing;
mod lines;
mod lookups;
mod places;
mod read;
mod words;

pub use indexing::Names;
pub use lines::Lines;
pub use read::read_entry;
