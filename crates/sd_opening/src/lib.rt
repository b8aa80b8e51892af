//! The initial state of a workload: each thread on the queue of a processor of its set, all locks free, and nothing
//! counted.
#![tactic(auto)]

mod start;

pub use start::opening;
