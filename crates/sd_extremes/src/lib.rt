//! What is earliest and what is latest over all orders in which the processors of a workload can act.
#![tactic(auto)]

mod ends;
mod marks;
mod misses;
mod scanning;
mod whole;

pub use ends::{Ending, When, when_ended};
pub use misses::{Missed, run_without};
pub use whole::whole_run;
