//! The search of every order in which the processors of a workload can act.
#![tactic(auto)]

mod copying;
mod expanding;
mod exploring;
mod finals;
mod findings;
mod graph;
mod judging;
mod laws;
mod packing;
mod questions;
mod room;
mod store;
mod turning;
mod witnesses;

pub use exploring::{begin, explore_more};
pub use findings::Finding;
pub use graph::{Graph, Step};
pub use laws::{
    closed_sets_have_every_run, entries_keep_the_order, ranks_tell_the_order, turns_are_the_same,
    turns_spell_a_run,
};
pub use questions::{Answer, Question};
pub use turning::Turn;
pub use witnesses::{take_turn, witness};
