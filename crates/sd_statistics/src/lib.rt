//! The statistics of a run, from its history: how long each thread runs, spins, is runnable, waits, sleeps and naps, and how soon it
//! runs after a wakeup; what the processors do; who holds the locks and waits for them; how soon tasks respond. Each number is a sum
//! or a count over the lists of the run, whose definitions stand in `specs/`.
#![tactic(auto)]

mod activities;
mod cpus;
mod delays;
mod inherited;
mod jobs;
mod locks;
mod nexts;
mod rows;
mod slice_laws;
mod spans;
mod statistics_laws;
mod tasks;
mod threads;

pub use activities::Activity;
pub use cpus::{Deed, cpu_rows};
pub use jobs::{Job, Point, Release, script_of, takes, told_entries};
pub use locks::lock_rows;
pub use rows::{Figures, Measure, Row, Subject};
pub use slice_laws::{others_keep_running, running_ticks_are_accounted, slices_follow_in_time};
pub use spans::{Span, Summary, summary_of, ticks_of};
pub use statistics_laws::{deeds_are_counts, the_longest_is_longest, ticks_add_up};
pub use tasks::{kind_of, responses, task_jobs, task_rows};
pub use threads::thread_rows;
