//! The search of every order in which the processors of a workload can act: reads a workload or a task set, and says whether a run
//! of it ends as was asked for, with the journal of one.
#![tactic(auto)]

use std::process::ExitCode;

fn main(rt: HostRuntime) -> ExitCode {
    sd_find::program(&rt)
}
