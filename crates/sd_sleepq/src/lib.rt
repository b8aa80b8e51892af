//! Chains of sleep queues: a chain has one ranked queue of sleepers for each of its channels.
#![tactic(auto)]

mod chain;
mod queue;

pub use chain::SleepChain;
