//! Workload texts: read into valid works, or refused at the first line at fault, with the least of its causes.
#![tactic(auto)]

mod fault;
mod laws;
mod line_starts;
mod lines;
mod read;
mod scripts;
mod tables;
mod works;

pub use fault::WorkFault;
pub use laws::{
    causes_are_first, texts_have_one_answer, texts_have_one_work, works_are_their_parts,
};
pub use read::read_work;
pub use sd_declare::WorkCause;
