//! Calls of the programs over streams in memory, and how their answers are judged. One function owns the streams of each kind of call,
//! since a function that drops some of them takes long to prove.

ghost use Rattle.std.specs.Prelude.{◌≤◌};

use sd_cpu::{Gate, OpenGate};
use sd_program::dispsim;
use sd_text::{MemorySink, MemorySource};
use sd_viewer::view;
use std::alloc::{AllocError, Global};
use std::marker::Sync;
use std::sync::Wait;
use std::thread::Threads;

/// What the streams of a call are made of: the reads named in `reads` and the writes named in `writes` fail, counted from 1. The
/// output has room for `room` bytes, and the error output for `err_room`.
#[derive(Clone, Copy)]
pub(crate) struct Given<'a> {
    pub(crate) input: &'a [u8],
    pub(crate) chunk: usize,
    pub(crate) reads: &'a [u64],
    pub(crate) room: usize,
    pub(crate) writes: &'a [u64],
    pub(crate) err_room: usize,
}

/// An input of which this many bytes come at a time, and room for outputs. Nothing fails.
pub(crate) fn plain(input: &[u8], chunk: usize) -> Given<'_> {
    Given {
        input,
        chunk,
        reads: &[],
        room: 4096,
        writes: &[],
        err_room: 200,
    }
}

/// The streams of a call.
#[derive(Drop)]
pub(crate) struct Streams {
    pub(crate) input: MemorySource,
    pub(crate) out: MemorySink,
    pub(crate) err: MemorySink,
}

fn source_of(
    alloc: Global,
    input: &[u8],
    chunk: usize,
    reads: &[u64],
) -> Result<MemorySource, AllocError>
    requires { 1 ≤ chunk }
{
    let bytes = Vec::from_slice(alloc, input)?;
    let failing = Vec::from_slice(alloc, reads)?;
    Ok(MemorySource::new(bytes, chunk, failing))
}

pub(crate) fn sink_of(
    alloc: Global,
    room: usize,
    writes: &[u64],
) -> Result<MemorySink, AllocError> {
    let failing = Vec::from_slice(alloc, writes)?;
    MemorySink::new(alloc, room, failing)
}

/// The streams that are so given. A read gives one byte at least.
pub(crate) fn streams_of(alloc: Global, given: Given<'_>) -> Result<Streams, AllocError> {
    let chunk = if given.chunk == 0 { 1 } else { given.chunk };
    let input = source_of(alloc, given.input, chunk, given.reads)?;
    let out = sink_of(alloc, given.room, given.writes)?;
    let err = sink_of(alloc, given.err_room, &[])?;
    Ok(Streams { input, out, err })
}

fn put_words(alloc: Global, words: &str, texts: &mut Vec<String>) -> Result<(), AllocError> {
    for word in words.split_whitespace() {
        texts.push(String::from_str(alloc, word)?)?;
    }
    Ok(())
}

/// The words of a text, each as an argument.
pub(crate) fn words_of(alloc: Global, words: &str) -> Result<Vec<String>, AllocError> {
    let mut texts = Vec::new(alloc);
    put_words(alloc, words, &mut texts)?;
    Ok(texts)
}

/// What a call returned, and its streams behind it.
#[derive(Drop)]
pub(crate) struct Called {
    pub(crate) status: u8,
    pub(crate) streams: Streams,
}

/// Whether the output and the error output hold these bytes.
pub(crate) fn holds(streams: &Streams, out: &[u8], err: &[u8]) -> bool {
    streams.out.bytes() == out && streams.err.bytes() == err
}

/// The status of a call of `dispsim`.
fn run_over<R: Threads + Wait + Sync + AllocGlobal, G: Gate + Sync>(
    rt: &R,
    arguments: &[String],
    streams: &mut Streams,
    gate: &G,
) -> u8 {
    let Streams { input, out, err } = streams;
    dispsim(rt, rt.alloc(), arguments, input, out, err, gate)
}

/// The status of a call of `dispview`.
fn view_over(alloc: Global, arguments: &[String], streams: &mut Streams) -> u8 {
    let Streams { input, out, err } = streams;
    view(alloc, arguments, input, out, err)
}

/// A call of `dispsim` with this gate.
pub(crate) fn call_gated<R: Threads + Wait + Sync + AllocGlobal, G: Gate + Sync>(
    rt: &R,
    words: &str,
    given: Given<'_>,
    gate: &G,
) -> Result<Called, AllocError> {
    let arguments = words_of(rt.alloc(), words)?;
    let mut streams = streams_of(rt.alloc(), given)?;
    let status = run_over(rt, &arguments, &mut streams, gate);
    Ok(Called { status, streams })
}

/// The programs that are called with their arguments.
#[derive(Clone, Copy)]
pub(crate) enum Program {
    Dispsim,
    Dispview,
}

fn status_over<R: Threads + Wait + Sync + AllocGlobal>(
    rt: &R,
    program: Program,
    arguments: &[String],
    streams: &mut Streams,
) -> u8 {
    match program {
        Program::Dispsim => run_over(rt, arguments, streams, &OpenGate),
        Program::Dispview => view_over(rt.alloc(), arguments, streams),
    }
}

/// What a call is to answer.
#[derive(Clone, Copy)]
pub(crate) enum Wanted<'a> {
    /// This status, this output and this error output.
    All {
        status: u8,
        out: &'a [u8],
        err: &'a [u8],
    },
    /// A write failed behind so many lines of this output.
    Lines {
        output: &'a [u8],
        count: usize,
    },
    /// A write failed behind so many bytes of this output.
    Front {
        output: &'a [u8],
        count: usize,
    },
    /// All went well, and these lines stand somewhere in the output.
    Within(&'a [u8]),
}

pub(crate) fn line_count(text: &[u8]) -> usize {
    text.iter().filter(|byte| **byte == b'\n').count()
}

fn are_lines(out: &[u8], output: &[u8], count: usize) -> bool {
    output.starts_with(out) && (out.is_empty() || out.ends_with(b"\n")) && line_count(out) == count
}

fn is_front(out: &[u8], output: &[u8], count: usize) -> bool {
    output.starts_with(out) && out.len() == count
}

/// The lines stand somewhere in the text.
fn stand_in(text: &[u8], lines: &[u8]) -> bool {
    for i in 0..text.len() {
        if text[i..].starts_with(lines) {
            return true;
        }
    }
    false
}

fn is_wanted(status: u8, out: &[u8], err: &[u8], wanted: Wanted<'_>) -> bool {
    match wanted {
        Wanted::All {
            status: number,
            out: output,
            err: line,
        } => status == number && out == output && err == line,
        Wanted::Lines { output, count } => {
            status == 4 && err == b"write fault\n".as_slice() && are_lines(out, output, count)
        }
        Wanted::Front { output, count } => {
            status == 4 && err == b"write fault\n".as_slice() && is_front(out, output, count)
        }
        Wanted::Within(lines) => status == 0 && stand_in(out, lines),
    }
}

/// The call answers as it is to.
pub(crate) fn answers<R: Threads + Wait + Sync + AllocGlobal>(
    rt: &R,
    program: Program,
    words: &str,
    given: Given<'_>,
    wanted: Wanted<'_>,
) -> Result<bool, AllocError> {
    let arguments = words_of(rt.alloc(), words)?;
    let mut streams = streams_of(rt.alloc(), given)?;
    let status = status_over(rt, program, &arguments, &mut streams);
    Ok(is_wanted(status, streams.out.bytes(), streams.err.bytes(), wanted))
}
