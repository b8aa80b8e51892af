//! The thread dispatcher of the Solaris kernel, simulated: reads a workload and
//! writes the journal of its run, or judges a journal.
#![tactic(auto)]

mod audits;
mod bytes;
mod forms;
mod journal_laws;
mod laws;
mod running;
mod tables;
mod top;
mod writing;

pub use bytes::numbers_are_bytes;
pub use journal_laws::{
    entries_are_spelled, journals_tell_entries, run_journals_are_journals,
    serial_journals_are_journals,
};
pub use laws::runs_are_audited;
use sd_answers::behind_name;
pub use sd_cpu::{Gate, OpenGate};
use sd_text::{StdSink, StdSource};
use std::io::Stdout;
use std::marker::Sync;
use std::process::ExitCode;
use std::sync::Wait;
use std::thread::Threads;
use std::{env, io};
pub use top::{dispsim, serial, start};

/// The arguments behind the program's name.
fn arguments(host: &HostRuntime) -> io::Result<Vec<String>> {
    Ok(behind_name(host.alloc(), env::args(host)?)?)
}

/// The host's output, which gets many lines at once; without memory for that it gets each line by itself.
fn output(host: &HostRuntime) -> StdSink<Stdout> {
    match StdSink::buffered(host.alloc(), host.stdout()) {
        Ok(sink) => sink,
        Err(_) => StdSink::unbuffered(host.alloc(), host.stdout()),
    }
}

/// The program on the host: gives the host's input, output and error output, and its arguments, to `start`, with a handle
/// to its threads, and returns its status. It is trusted: no clause says what the host does.
pub fn program<R: Threads + Wait + Sync>(host: &HostRuntime, rt: &R) -> ExitCode {
    let mut input = StdSource::new(host.stdin());
    let mut out = output(host);
    let mut err = StdSink::unbuffered(host.alloc(), host.stderr());
    let arguments = arguments(host);
    ExitCode::from(start(
        rt,
        host.alloc(),
        arguments,
        &mut input,
        &mut out,
        &mut err,
        &OpenGate,
    ))
}
