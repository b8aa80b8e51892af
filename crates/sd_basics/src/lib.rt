//! Lemmas on truth values, numbers, lists, ranges and results that several crates cite and std does not have, and the call that tells the optimiser
//! what is proved. Nothing here knows of threads or processors.
#![tactic(auto)]

mod hint;

pub use hint::known;
