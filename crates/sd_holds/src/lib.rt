//! Who holds which lock, and from which entry of a run to which: one hold for each time that a thread takes a mutex, or a
//! readers/writer lock as its writer or as a reader, and the lanes in which the holds of a thread are drawn. Definitions over the
//! entries that a history keeps, and the law that they say of each state of a run which locks each thread holds.
#![tactic(auto)]

mod banding;
mod holdings;
mod laws;
mod parts;

pub use banding::{Band, bands, most_lanes};
pub use holdings::{Hold, holds};
pub use laws::holds_are_exact;
pub use parts::holds_between;
