//! Tests of homes and hands: a thread goes from a queue to its processor and on to a nap, and what the hand tells of it; all homes of
//! an initial state; runs whose homes are given out one by one, among troubles.
#![tactic(auto)]

#[cfg(test)]
mod all_homes;
#[cfg(test)]
mod hostile;
mod hostile_world;
mod plan;
#[cfg(test)]
mod tests;
mod turns;

pub use hostile_world::HostileWorld;
pub use plan::{Trouble, What};
