//! Where a program reads its input: the file that its arguments name, or the host's standard input. This is part of the trusted
//! edge: no clause says what a file gives.
#![tactic(auto)]

use sd_text::StdSource;
use std::fs::File;
use std::io;
use std::io::{ErrorKind, Read, Stdin};

/// The reader of an input. Each read of a file that could not be opened fails.
#[derive(Drop)]
pub enum HostReader {
    Standard(Stdin),
    Opened(File),
    Unopened,
}

impl Read for HostReader {
    fn read(&mut self, buf: &mut [u8]) -> io::Result<usize> {
        match self {
            HostReader::Standard(stdin) => stdin.read(buf),
            HostReader::Opened(file) => file.read(buf),
            HostReader::Unopened => Err(io::Error::from(ErrorKind::NotFound)),
        }
    }
}

/// Opens the file of this name; without a name, the host's standard input.
fn reader_of(host: &HostRuntime, name: Option<&String>) -> HostReader {
    let Some(name) = name else {
        return HostReader::Standard(host.stdin());
    };
    match File::open(host, name.as_str()) {
        Ok(file) => HostReader::Opened(file),
        Err(_) => HostReader::Unopened,
    }
}

/// The file of this name as a source, or the host's standard input where there is no name. Where the file cannot be opened, a
/// source of which each read fails.
pub fn source_of(host: &HostRuntime, name: Option<&String>) -> StdSource<HostReader> {
    StdSource::new(reader_of(host, name))
}
