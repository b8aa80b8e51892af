//! The judge of scripts: which lists of operations are well formed, and what is wrong with the others.
#![tactic(auto)]

mod checks;
mod faults;
mod laws;

pub use checks::{check, fault_of, take_or_release};
pub use faults::ScriptFault;
pub use laws::{faults_stay, one_answer, one_fault};
