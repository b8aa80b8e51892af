//! The record of a thread, as it moves from queue to queue: its number, what its class and its locks keep of it,
//! and the key of its place.
#![tactic(auto)]

mod copies;
mod laws;
mod record;

pub use copies::{copied, copied_body};
pub use laws::{effective_is_greatest, numbers_are_apart};
pub use record::{Kept, Record};
