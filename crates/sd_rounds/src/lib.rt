//! The run of a workload that goes in rounds: in each round every processor in turn makes one entry where it has
//! one, and the first round that makes none ends the run. The processors take turns in rising order, or in orders that
//! are drawn.
#![tactic(auto)]

mod laws;
mod orders;
mod rounds;
mod sight;
mod survey;
mod ticks;
mod turns;

pub use laws::one_serial;
pub use orders::RoundOrder;
pub use rounds::{Finished, run_rounds, run_to_end};
