//! The workload to which a task set expands: the lines of the set, and behind them the clocks that give a unit for each release
//! at its tick, and the starters that bind them.
#![tactic(auto)]

mod clocks;
mod counts;
mod expanding;
mod laws;
mod lines;
mod scripts;
mod starters;
mod tails;

pub use expanding::{Expansion, SetFault, expand};
pub use laws::expansions_are_accepted;
