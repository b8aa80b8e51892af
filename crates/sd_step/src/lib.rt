//! One step of a processor over any store: the order of the six tries by which it finds what it is about to do, what it
//! reads of others for that, the one event that it may make, and the state after it.
//!
//! Source: Solaris Internals (swtch, the clock's tick, preemption); this order is this project's own.
#![tactic(auto)]

mod effects;
mod events;
mod plans;

pub use effects::after;
pub use events::{next, plan_event, plan_event_read, plan_next, plan_reads, unread_event};
pub use plans::{plan, run_plan, runner_plan};
