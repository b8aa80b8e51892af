//! The dispatcher: threads that run on a processor and leave it, dispatch queues and marks, and where a thread is put that
//! is made runnable. What a processor may do and what the event makes of a store stand side by side.
//!
//! Source: Solaris Internals (disp, setbackdq, setfrontdq, cpu_surrender, clock_tick).
#![tactic(auto)]

mod bodies;
mod choosing;
mod dispatching;
mod marks;
mod placing;
mod reading;
mod requeueing;
mod running;
mod waking;

pub use bodies::{
    bound_in, bound_of, class_in, class_of, eff_as, eff_in, eff_of, effective_in, has_ended,
    is_privileged, op_in, op_of, priority_of, uid_of, willed_numbers,
};
pub use choosing::{neighbours, put_chosen, put_read, put_unread, victim_for, victim_read};
pub use dispatching::{dispatch_plan, leave_in, search_event};
pub use marks::{mark_over, remark};
pub use placing::{put, put_where, put_with};
pub use reading::{Reading, hints_fit, reads_for, reads_to_steal};
pub use requeueing::{reordered, requeue};
pub use running::{
    dispatched, done, idled, preempted, sent_away, spun, stolen, ticked, ticked_as, yielded,
};
pub use waking::{woken, woken_priority};
