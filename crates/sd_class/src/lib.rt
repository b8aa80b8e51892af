//! The scheduling classes: what a tick, a wakeup, a second of waiting and a requeue make of a thread's class state, and the checks of
//! priocntl(2), which changes it. No call allocates.
//!
//! Source: Solaris Internals (the TS, FX, SYS and RT classes), `ts_dptbl`(4), `rt_dptbl`(4), priocntl(2).
#![tactic(auto)]

mod changes;
mod classes;
mod fixed_priority;
mod laws;
mod permissions;
mod quanta;
mod real_time;
mod system;
mod time_sharing;

pub use changes::{enter, first_state};
pub use classes::{
    aged_class, class_expires, class_requeue, tick_class, ticked_class, woken_class,
};
pub use fixed_priority::{fx_global, fx_tick, fx_wake};
pub use laws::{base_priorities_in_range, callers_without_privilege};
pub use permissions::{Target, Who, judge};
pub use quanta::full_quantum;
pub use real_time::{rt_global, rt_tick, rt_wake};
pub use system::sys_global;
pub use time_sharing::{
    ts_global, ts_requeue, ts_second, ts_tick, ts_wake, wakes_without_longer_wait,
};
