//! The homes of a run behind locks, in a table that all processors share.
#![tactic(auto)]

mod closing;
mod commit;
mod history;
mod indices;
mod opening;
mod publishing;
mod reading;
mod rule;
mod seat;
mod shared;
mod steps;
mod taking;
mod words;

pub use rule::{Intent, Rule};
pub use seat::{Held, Seat};
pub use shared::Shared;
