//! What each processor knows of the homes that all processors share, the rule that the shared table keeps between any two of its
//! steps, and for each kind of step that it keeps the rule. Definitions and lemmas; there is nothing to run.
#![tactic(auto)]

mod views;

pub use views::{Desk, Note, View, Written};
