//! The turn of a processor on a world of homes: it takes the homes that it needs, one by one, makes at most one entry, and gives all back.
//!
//! Source: Solaris Internals (thread locks, the lock of a dispatch queue); the order in which homes are taken is this project's own.
#![tactic(auto)]

mod attempts;
mod gate;
mod phases;
mod seeking;
mod touching;
mod turns;

pub use attempts::{Attempted, Turned, attempt};
pub use gate::{Gate, OpenGate, pass_gate};
pub use phases::{Phased, phase};
pub use turns::turn;
