//! The thread dispatcher of the Solaris kernel, simulated: reads a workload and writes the journal of its run.
#![tactic(auto)]

use std::process::ExitCode;

fn main(rt: HostRuntime) -> ExitCode {
    sd_program::program(&rt, &rt)
}
