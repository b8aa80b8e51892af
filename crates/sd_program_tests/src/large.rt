//! Large worked runs: a priority that passes along a chain of a hundred mutexes, and a wakeup of as many sleepers as a workload can
//! have.

use crate::judging::is_so;
use crate::streams::{Given, Program, Wanted, answers};
use sd_text::put_number;
use std::alloc::AllocError;
use std::marker::Sync;
use std::sync::Wait;
use std::thread::Threads;

/// Each text with its number behind it, and the end of the line.
pub(crate) fn put_line(
    out: &mut Vec<u8>,
    pieces: &[(&str, u64)],
    end: &str,
) -> Result<(), AllocError> {
    for (text, number) in pieces {
        out.extend_from_slice(text.as_bytes())?;
        put_number(out, *number)?;
    }
    out.extend_from_slice(end.as_bytes())
}

/// A hundred mutexes.
fn put_mutexes(text: &mut Vec<u8>) -> Result<(), AllocError> {
    for i in 0..100 {
        put_line(text, &[("mutex m", i)], "\n")?;
    }
    Ok(())
}

/// So many threads of the fixed-priority class.
fn put_threads(text: &mut Vec<u8>, count: u64) -> Result<(), AllocError> {
    for i in 0..count {
        put_line(text, &[("thread t", i)], " fx 60 10 inf\n")?;
    }
    Ok(())
}

/// The scripts of those who own a mutex and ask for the next one.
fn put_chain_scripts(text: &mut Vec<u8>) -> Result<(), AllocError> {
    for i in 0..99 {
        let script = [
            ("script t", i),
            ("\nenter m", i),
            ("\nnap 1\nenter m", i + 1),
            ("\nexit m", i + 1),
            ("\nexit m", i),
        ];
        put_line(text, &script, "\nend\n")?;
    }
    Ok(())
}

/// Threads with the numbers 0 to 98 each own their mutex and ask for the next one; thread 99 owns the last.
fn put_long_chain(text: &mut Vec<u8>) -> Result<(), AllocError> {
    text.extend_from_slice(b"limit 4\n")?;
    put_mutexes(text)?;
    put_threads(text, 100)?;
    text.extend_from_slice(b"thread r rt 10 inf\n")?;
    put_chain_scripts(text)?;
    text.extend_from_slice(b"script t99\nenter m99\nnap 3\nexit m99\nend\n")?;
    text.extend_from_slice(b"script r\nnap 2\nenter m0\nexit m0\nend\n")?;
    Ok(())
}

/// The real-time thread blocks, and its priority goes to all hundred.
fn put_long_walk(text: &mut Vec<u8>) -> Result<(), AllocError> {
    text.extend_from_slice(b" c0 block r m0\n")?;
    for i in 0..100 {
        let line = [("", FIRST_WILL + i), (" c0 will m", i), (" t", i)];
        put_line(text, &line, " 110\n")?;
    }
    Ok(())
}

/// The entry after that in which the real-time thread blocks.
const FIRST_WILL: u64 = 703;

/// How many threads sleep.
const SLEEPERS: u64 = 2_047;

/// The scripts of the sleepers.
fn put_sleeper_scripts(text: &mut Vec<u8>) -> Result<(), AllocError> {
    for i in 0..SLEEPERS {
        put_line(text, &[("script t", i)], "\nsleep k\nend\n")?;
    }
    Ok(())
}

/// Each thread but the last sleeps, and the last wakes them all.
fn put_large_wakeup(text: &mut Vec<u8>) -> Result<(), AllocError> {
    text.extend_from_slice(b"limit 1\nchan k\n")?;
    put_threads(text, SLEEPERS)?;
    text.extend_from_slice(b"thread z fx 60 5 inf\n")?;
    put_sleeper_scripts(text)?;
    text.extend_from_slice(b"script z\nwakeall k\nend\n")?;
    Ok(())
}

/// Each sleeper has been dispatched and has gone to sleep, and the last thread was dispatched, before the wakeup.
fn put_all_woken(text: &mut Vec<u8>) -> Result<(), AllocError> {
    let first = 2 * SLEEPERS + 1;
    put_line(text, &[("\n", first)], " c0 wakeall z k\n")?;
    for i in 0..SLEEPERS {
        let line = [("", first + 1 + i), (" c0 rouse k t", i)];
        put_line(text, &line, " to c0\n")?;
    }
    put_line(text, &[("", first + 1 + SLEEPERS)], " c0 preempt z front\n")?;
    Ok(())
}

/// The run of the workload ends well, and its journal has these lines, one after another.
fn has_lines<R: Threads + Wait + Sync + AllocGlobal>(
    rt: &R,
    workload: &[u8],
    lines: &[u8],
) -> Result<bool, AllocError> {
    let given = Given {
        input: workload,
        chunk: 4096,
        reads: &[],
        room: 1_000_000,
        writes: &[],
        err_room: 200,
    };
    answers(rt, Program::Dispsim, "run", given, Wanted::Within(lines))
}

/// One of the two runs.
#[derive(Clone, Copy)]
enum Large {
    Chain,
    Wakeup,
}

fn put_workload(large: Large, text: &mut Vec<u8>) -> Result<(), AllocError> {
    match large {
        Large::Chain => put_long_chain(text),
        Large::Wakeup => put_large_wakeup(text),
    }
}

fn put_lines(large: Large, text: &mut Vec<u8>) -> Result<(), AllocError> {
    match large {
        Large::Chain => put_long_walk(text),
        Large::Wakeup => put_all_woken(text),
    }
}

/// The run has the lines that it should.
fn is_run<R: Threads + Wait + Sync + AllocGlobal>(
    rt: &R,
    large: Large,
) -> Result<bool, AllocError> {
    let mut workload = Vec::new(rt.alloc());
    put_workload(large, &mut workload)?;
    let mut lines = Vec::new(rt.alloc());
    put_lines(large, &mut lines)?;
    has_lines(rt, &workload, &lines)
}

#[test]
fn a_long_chain(rt: HostRuntime) {
    is_so(&rt, is_run(&rt, Large::Chain));
}

#[test]
fn a_large_wakeup(rt: HostRuntime) {
    is_so(&rt, is_run(&rt, Large::Wakeup));
}
