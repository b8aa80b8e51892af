//! Mutexes and readers/writer locks: a thread that wants a lock takes it, spins or blocks; one that gives it up leaves it
//! free, or has its processor wake the waiters of a mutex, or hand a rwlock over to them. What a processor may do and what
//! the event makes of a store stand side by side.
//!
//! Source: Solaris Internals (adaptive mutexes, rwlocks, turnstiles). That a mutex is free for whoever comes while its
//! waiters are woken, and that a rwlock is handed over, one waiter after another, are this project's own.
#![tactic(auto)]

mod entering;
mod handing;
mod inheriting;
mod releasing;
mod walking;

pub use entering::{blocked, enter_event, owned, read, read_event, write_event};
pub use handing::{grant_reader_plan, grant_writer_plan, granted, passed, unblock_plan, unblocked};
pub use inheriting::eff_as_with;
pub use releasing::{exited, released};
pub use walking::{walk_ended, walk_plan, willed};
