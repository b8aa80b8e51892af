//! The generated workload of a number: 200 threads of all classes on 8 processors, for trying and measuring.
//!
//! Source: this project's own.
#![tactic(auto)]

mod laws;
mod lines;
mod parts;
mod threads;

pub use laws::{
    accepted_texts_are_plain, generated_texts_are_accepted, texts_are_accepted_or_refused,
};
pub use threads::generate;
