//! The deadlines of a run with a task set, from its history: for each task its jobs, their responses, and which missed their deadlines
//! (`task_table`); for each job when it started, who preempted it, and who blocked it (`job_lines`); the tasks of a set, or of a
//! workload without one, by number (`numbering`).
#![tactic(auto)]

mod job_lines;
mod means;
mod numbering;
mod task_table;

pub use job_lines::{Delay, blocks, delayers, preemptions, start};
pub use means::{Mean, mean_of};
pub use numbering::{found_tasks, numbered_tasks};
pub use task_table::{Task, TaskLine, least, misses, set_jobs, task_line};
