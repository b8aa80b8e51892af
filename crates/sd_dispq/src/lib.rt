//! Dispatch queues with a bitmap.
#![tactic(auto)]

mod bitmap;
mod items;
pub mod laws;
mod levels;
mod queue;

pub use bitmap::Bitmap;
pub use items::Items;
pub use queue::DispQueue;
