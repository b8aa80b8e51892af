//! The whole machine as a plain program over its state: it makes one step, says whether a processor has any, and judges
//! whole lists of entries. Every faster body of the machine is measured against it.
#![tactic(auto)]

mod entering;
mod equality;
mod replays;
mod serial;
mod stepping;

pub use entering::can_enter;
pub use equality::same_event;
pub use replays::{IllegalEntry, ReplayFault, replay};
pub use serial::serial_next;
pub use stepping::{apply, make_entry, step};
