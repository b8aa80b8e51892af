//! Inputs that are refused late, when memory was taken many times: each is told for what it is. By the contracts out of memory may
//! stand in the place of each, so no clause tells the two apart.

use crate::judging::judge;
use crate::large::put_line;
use crate::streams::{Given, Program, Wanted, answers};
use std::alloc::AllocError;
use std::marker::Sync;
use std::sync::Wait;
use std::thread::Threads;

/// What is at fault behind much that is not.
#[derive(Clone, Copy)]
enum Late {
    /// The journal of a processor that is idle for 1,000 ticks lacks its last entry.
    LastEntry,
    /// There is a 257th mutex.
    OneLockMore,
    /// There are 300 threads and 219 mutexes: 65,700 pairs, of which 65,536 are allowed.
    Pairs,
    /// There are 4,097 operations: 16 scripts with 256 each, and one with one.
    OneOperationMore,
}

type Row = (Late, &'static str, u8, &'static str);

/// How each is asked about, and answered: the status and the line.
const LATE: [Row; 4] = [
    (Late::LastEntry, "audit", 7, "journal: incomplete: c0\n"),
    (Late::OneLockMore, "run", 2, "refused: line 258: limits\n"),
    (Late::Pairs, "run", 2, "refused: line 521: limits\n"),
    (
        Late::OneOperationMore,
        "run",
        2,
        "refused: line 4150: limits\n",
    ),
];

/// So many lines with the numbers from 0, each behind this text.
fn put_lines(out: &mut Vec<u8>, text: &str, count: u64, end: &str) -> Result<(), AllocError> {
    for i in 0..count {
        put_line(out, &[(text, i)], end)?;
    }
    Ok(())
}

/// Each entry of the journal but the last.
fn put_entries(out: &mut Vec<u8>) -> Result<(), AllocError> {
    out.extend_from_slice(b"limit 1000\njournal\n")?;
    put_lines(out, "", 999, " c0 idle\n")?;
    out.extend_from_slice(b"accounts\ncpu 0 ticks 999 idle 999\n")
}

/// So many mutexes, and then so many threads.
fn put_objects(out: &mut Vec<u8>, mutexes: u64, threads: u64) -> Result<(), AllocError> {
    out.extend_from_slice(b"limit 1\n")?;
    put_lines(out, "mutex m", mutexes, "\n")?;
    put_lines(out, "thread t", threads, " sys 60\n")
}

/// A script of so many operations.
fn put_script(out: &mut Vec<u8>, thread: u64, count: u64) -> Result<(), AllocError> {
    put_line(out, &[("script t", thread)], "\n")?;
    for _ in 0..count {
        out.extend_from_slice(b"yield\n")?;
    }
    out.extend_from_slice(b"end\n")
}

/// Sixteen scripts as long as can be, and one of one operation.
fn put_scripts(out: &mut Vec<u8>) -> Result<(), AllocError> {
    put_objects(out, 0, 17)?;
    for i in 0..16 {
        put_script(out, i, 256)?;
    }
    put_script(out, 16, 1)
}

fn put_input(out: &mut Vec<u8>, late: Late) -> Result<(), AllocError> {
    match late {
        Late::LastEntry => put_entries(out),
        Late::OneLockMore => put_objects(out, 257, 0),
        Late::Pairs => put_objects(out, 219, 300),
        Late::OneOperationMore => put_scripts(out),
    }
}

/// The input is answered by this status and this line, and nothing is on the output.
fn is_told<R: Threads + Wait + Sync + AllocGlobal>(rt: &R, row: &Row) -> Result<bool, AllocError> {
    let (late, words, status, line) = *row;
    let mut input = Vec::new(rt.alloc());
    put_input(&mut input, late)?;
    let given = Given {
        input: &input,
        chunk: 4096,
        reads: &[],
        room: 4096,
        writes: &[],
        err_room: 200,
    };
    let wanted = Wanted::All {
        status,
        out: b"",
        err: line.as_bytes(),
    };
    answers(rt, Program::Dispsim, words, given, wanted)
}

/// The first input that is answered otherwise.
fn wrong_late<R: Threads + Wait + Sync + AllocGlobal>(rt: &R) -> Result<Option<usize>, AllocError> {
    for (index, row) in LATE.iter().enumerate() {
        if !is_told(rt, row)? {
            return Ok(Some(index));
        }
    }
    Ok(None)
}

#[test]
fn what_is_refused_late_is_told(rt: HostRuntime) {
    judge(&rt, wrong_late(&rt));
}
