//! `disptask` once more, for a second stored run: a task set that it refuses.
#![tactic(auto)]

use std::process::ExitCode;

fn main(rt: HostRuntime) -> ExitCode {
    sd_task_program::program(&rt)
}
