//! The top call of `dispfind`, which searches every order in which the processors of a workload can act.
#![tactic(auto)]

mod helping;
mod laws;
mod progress;
mod quiet;
mod seeking;
mod top;

pub use laws::{endings_are_audited, waits_are_audited, witnesses_are_audited};
pub use progress::Progress;
use sd_answers::behind_name;
use sd_text::{StdSink, StdSource};
use std::io::{IsTerminal, Stderr, Stdout};
use std::process::ExitCode;
use std::{env, io};
pub use top::{find, start};

/// The arguments behind the program's name.
fn arguments(host: &HostRuntime) -> io::Result<Vec<String>> {
    Ok(behind_name(host.alloc(), env::args(host)?)?)
}

/// Shows how far a search has come where the host's error output is a terminal.
fn shown_on(host: &HostRuntime) -> Progress<StdSink<Stderr>> {
    let err = host.stderr();
    let sink = if err.is_terminal() {
        Some(StdSink::unbuffered(host.alloc(), err))
    } else {
        None
    };
    Progress::new(host.alloc(), sink)
}

/// The host's output, which gets many lines at once; without memory for that it gets each line by itself.
fn output(host: &HostRuntime) -> StdSink<Stdout> {
    match StdSink::buffered(host.alloc(), host.stdout()) {
        Ok(sink) => sink,
        Err(_) => StdSink::unbuffered(host.alloc(), host.stdout()),
    }
}

/// The program on the host: gives the host's input, output and error output, and its arguments, to `start`, and returns its
/// status. It is trusted: no clause says what the host does.
pub fn program(host: &HostRuntime) -> ExitCode {
    let mut input = StdSource::new(host.stdin());
    let mut out = output(host);
    let mut err = StdSink::unbuffered(host.alloc(), host.stderr());
    let arguments = arguments(host);
    ExitCode::from(start(
        host.alloc(),
        arguments,
        &mut input,
        &mut out,
        &mut err,
        &mut shown_on(host),
    ))
}
