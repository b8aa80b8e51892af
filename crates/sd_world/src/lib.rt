//! The homes of a run, all of them: where the threads of a whole state stand.
#![tactic(auto)]

mod bare;
mod entries;
mod homes;
mod laws;
mod notes;
mod parts;
mod plain;
mod showing;
mod snapshot;
mod threads;
mod turns;
mod world;

pub use entries::reserve_entry;
pub use homes::Homes;
pub use laws::an_event_leaves_other_homes;
pub use notes::{Count, Glance, Miss};
pub use plain::PlainWorld;
pub use showing::shown_hint;
pub use world::{Behind, Take, ThreadLock, World};
