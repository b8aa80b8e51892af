//! Class parameters that change, and threads that have waited for a long time: priocntl and ageing. What a processor may do
//! and what the event makes of a store stand side by side.
//!
//! Source: priocntl(2), ts_dptbl(4), Solaris Internals (ts_update).
#![tactic(auto)]

mod ageing;
mod assigning;
mod binding;
mod priocntl;
mod targets;

pub use ageing::{age_plan, aged};
pub use assigning::{assign_answer, assigned, closing_plan, joined, moved};
pub use binding::{bind_to, pbound};
pub use priocntl::{prio_plan, reprioritised};
pub use targets::answer_to;
