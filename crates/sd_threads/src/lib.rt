//! The run of a workload whose processors are threads of the host: they share a table of homes in stints, and rounds on one thread show
//! that nothing is left to do.
//!
//! Source: this project's own.
#![tactic(auto)]

mod jobs;
mod patience;
mod run;
mod stints;
mod threads;
mod world;

pub use run::run_on_threads;
pub use threads::try_lock_thread;
pub use world::TableWorld;
