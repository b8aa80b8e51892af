//! What the lines of a workload text declare, and why a line is refused against what the lines above it declare.
//! Lines are judged by their causes in the order of their numbers, so the first that is found is the least.
#![tactic(auto)]

mod causes;
mod classes;
mod declared;
mod lookups;
mod objects;
mod operations;
mod scripted;
mod sets;
mod settings;
mod statements;

pub use causes::{Refusal, WorkCause};
pub use declared::Declared;
pub use operations::op_of;
pub use scripted::Scripted;
pub use statements::{Opened, take_statement};
