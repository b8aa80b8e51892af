//! `dispview` once more, for a second stored run: arguments that it refuses.
#![tactic(auto)]

use std::process::ExitCode;

fn main(rt: HostRuntime) -> ExitCode {
    sd_viewer::program(&rt)
}
