//! What is longest over all orders in which the processors of a workload can act: the time from a wakeup of a thread to its running, and a run.
#![tactic(auto)]

mod edges;
mod effects;
mod heights;
mod labels;
mod latency;
mod laws;
mod longest;
mod marking;
mod openings;
mod run_lengths;
mod tables;

pub use edges::{Edge, Effect};
pub use latency::{Longest, longest_wait};
pub use laws::ticks_are_reported;
pub use longest::Wait;
pub use run_lengths::longest_run;
