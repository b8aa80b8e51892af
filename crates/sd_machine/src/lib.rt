//! The dispatcher machine with all of its events, as definitions and lemmas: what a processor reads and does, the
//! state after each event, runs, the counts of the summary and all texts of the journal. It takes the states, the
//! initial state and the best of a queue from `sd_state`. The programs and their laws follow this machine. There is no code here
//! but the types of a plan.
#![tactic(auto)]

mod plans;

pub use plans::{Placement, Plan, Requeue};
