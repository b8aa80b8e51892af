//! The hand of a processor: the homes that it holds, or all homes of a run, as a store of the state. What it tells and what it changes
//! is so in every state for whose parts its homes stand.
#![tactic(auto)]

mod acting;
mod asks;
mod changes;
mod frames;
mod guide;
mod hand;
mod look;
mod one_home;
mod order;
mod ordering;
mod sets;
mod steps;
mod store;
mod walks;

pub use acting::{Acting, Actor};
pub use frames::{locks_keep_other_homes, processors_keep_other_homes, threads_keep_other_homes};
pub use guide::Guide;
pub use hand::Hand;
pub use one_home::each_thread_stands_in_one_list;
pub use steps::Step;
