//! The top call of `disptask`, which expands a task set to a workload.
#![tactic(auto)]

mod expanding;
mod forms;
mod printing;
mod top;

pub use forms::Request;
use forms::file_of;
use sd_answers::behind_name;
use sd_files::source_of;
use sd_text::StdSink;
use std::io::Stdout;
use std::process::ExitCode;
use std::{env, io};
pub use top::{expand_set, start};

/// The arguments behind the program's name.
fn arguments(host: &HostRuntime) -> io::Result<Vec<String>> {
    Ok(behind_name(host.alloc(), env::args(host)?)?)
}

/// The file that the arguments name, where they were read and name one.
fn file_in(arguments: &io::Result<Vec<String>>) -> Option<&String> {
    match arguments {
        Ok(arguments) => file_of(arguments),
        Err(_) => None,
    }
}

/// The host's output, which gets many lines at once; without memory for that it gets each line by itself.
fn output(host: &HostRuntime) -> StdSink<Stdout> {
    match StdSink::buffered(host.alloc(), host.stdout()) {
        Ok(sink) => sink,
        Err(_) => StdSink::unbuffered(host.alloc(), host.stdout()),
    }
}

/// The program on the host: gives the file that its arguments name or the host's input, the output, the error output and the
/// arguments to `start`, and returns its status. It is trusted: no clause says what the host does.
pub fn program(host: &HostRuntime) -> ExitCode {
    let arguments = arguments(host);
    let mut input = source_of(host, file_in(&arguments));
    let mut out = output(host);
    let mut err = StdSink::unbuffered(host.alloc(), host.stderr());
    ExitCode::from(start(host.alloc(), arguments, &mut input, &mut out, &mut err))
}
