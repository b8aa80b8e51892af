//! The state as one value, as a store: it stands for itself alone, and lacks nothing.

mod clock;
mod look;
mod sets;
mod store;

pub use look::{Never, view_of};
