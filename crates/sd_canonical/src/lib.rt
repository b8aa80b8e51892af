//! The canonical spelling of a workload: one text for each workload, which is read back as that workload.
#![tactic(auto)]

mod laws;
mod lines;
mod scripts;
mod tables;
mod threads;
mod words;
mod works;

pub use laws::{
    accepted_works_are_valid, canonical_texts_are_accepted, canonical_texts_tell_works,
};
pub use tables::write_tables;
pub use works::write_work;
