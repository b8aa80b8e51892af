//! Sleeping and waking: naps that end with the count of a processor, and channels on which threads sleep until others wake
//! them. What a processor may do and what the event makes of a store stand side by side.
//!
//! Source: Solaris Internals (sleep queues, cv_signal, cv_broadcast).
#![tactic(auto)]

mod channels;
mod conditions;
mod naps;
mod semaphores;

pub use channels::{fallen_asleep, rouse_plan, roused, wake_plan, woke, woke_all};
pub use conditions::cv_waited;
pub use naps::{napend_plan, napped};
pub use semaphores::{sema_counted, sema_handed, sema_p_event, sema_taken, sema_v_plan};
