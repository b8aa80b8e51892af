//! Inputs read to their end that may hold a task set in place of a workload: the set stands for the workload to which it expands.
#![tactic(auto)]

mod inputs;
mod laws;
mod spelling;

pub use inputs::{SetCertificate, read_certificate, read_input};
pub use laws::{sets_are_sound, workloads_stand_for_themselves};
pub use spelling::fault_answer;
