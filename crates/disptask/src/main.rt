//! Task sets: reads one, and prints the workload to which it expands.
#![tactic(auto)]

use std::process::ExitCode;

fn main(rt: HostRuntime) -> ExitCode {
    sd_task_program::program(&rt)
}
