//! What `dispview` draws of a run: the timeline, the trace, the story or the report of the run whose journal a text is, and nothing where
//! it is none; and its top call, which reads an input and writes the drawing.
#![tactic(auto)]

mod drawings;
mod foreseen;
mod forms;
mod frames;
mod gathering;
mod glimpses;
mod helping;
mod lines;
mod reports;
mod top;
mod viewing;

pub use drawings::{Drawing, draw};
pub use forms::Request;
use sd_answers::behind_name;
use sd_text::{StdSink, StdSource};
use std::io::Stdout;
use std::process::ExitCode;
use std::{env, io};
pub use top::{start, view};

/// The arguments behind the program's name.
fn arguments(host: &HostRuntime) -> io::Result<Vec<String>> {
    Ok(behind_name(host.alloc(), env::args(host)?)?)
}

/// The host's output, which gets many lines at once; without memory for that it gets each line by itself.
fn output(host: &HostRuntime) -> StdSink<Stdout> {
    match StdSink::buffered(host.alloc(), host.stdout()) {
        Ok(sink) => sink,
        Err(_) => StdSink::unbuffered(host.alloc(), host.stdout()),
    }
}

/// The program on the host: gives the host's input, output and error output, and its arguments, to `start`, and returns its
/// status. It is trusted: no clause says what the host does.
pub fn program(host: &HostRuntime) -> ExitCode {
    let mut input = StdSource::new(host.stdin());
    let mut out = output(host);
    let mut err = StdSink::unbuffered(host.alloc(), host.stderr());
    let arguments = arguments(host);
    ExitCode::from(start(host.alloc(), arguments, &mut input, &mut out, &mut err))
}
