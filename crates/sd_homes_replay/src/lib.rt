//! The replay of a run on its homes, all of which one thread of the host has: what the state told shows, looked up where it stands, the
//! event that a processor may make next with given numbers, and whether an entry is a step, which is then made.
#![tactic(auto)]

mod looks;
mod stepping;

pub use looks::{
    body_of, count_of, duty_of, effective_of, greatest_waiting, has_waiters, lock_of,
    others_waiting, runner_of, spot_of, tokens_of,
};
pub use stepping::{next_event, step};
