//! The picture or the trace of a run: reads a workload or a task set, the line `journal` and a journal, and draws what is a complete legal
//! run of the workload.
#![tactic(auto)]

use std::process::ExitCode;

fn main(rt: HostRuntime) -> ExitCode {
    sd_viewer::program(&rt)
}
