//! Entries go in and come out: that there is room where there is memory, and a number that was read at the edge of what others read.

use arrayvec::ArrayVec;
use sd_log::EntryLog;
use sd_types::{CpuId, Entry, Event, Hints, ThreadId, Which};
use std::alloc::{AllocError, Global};
use std::process::Abort;

/// These two numbers were read.
fn two(which: Which, first: u8, second: u8) -> Option<Hints> {
    let mut numbers = ArrayVec::new();
    numbers.push(first);
    numbers.push(second);
    Some(Hints { which, numbers })
}

/// This number was read of each processor.
fn all(which: Which, number: u8) -> Option<Hints> {
    let numbers = ArrayVec::from_array_in((), [number; 64]);
    Some(Hints { which, numbers })
}

/// Whether the entry is an idle tick of this processor that read these numbers.
fn is_idle_after(entry: &Entry, cpu: u16, which: Which, numbers: &[u8]) -> bool {
    let Some(hints) = &entry.hints else {
        return false;
    };
    let same = hints.numbers.as_slice() == numbers;
    entry.cpu.0 == cpu && matches!(entry.event, Event::Idle) && hints.which == which && same
}

/// Puts an entry in that read these numbers.
fn put(log: &mut EntryLog, cpu: u16, event: Event, hints: Option<Hints>) -> Result<(), AllocError> {
    log.reserve()?;
    log.push_reserved(CpuId(cpu), event, &hints);
    Ok(())
}

fn put_six(log: &mut EntryLog) -> Result<(), AllocError> {
    put(log, 3, Event::Idle, two(Which::Queued, 7, 8))?;
    put(log, 63, Event::Tick { t: ThreadId(9) }, None)?;
    put(log, 5, Event::Idle, all(Which::Running, 100))?;
    put(log, 0, Event::Idle, two(Which::Running, 255, 0))?;
    log.reserve()?;
    log.push_idle(CpuId(2), 7);
    log.reserve()?;
    log.push_idle(CpuId(1), 0);
    Ok(())
}

/// Whether the entry is the second: a tick of thread 9 that read no numbers.
fn is_tick(entry: &Entry) -> bool {
    entry.number == 1
        && entry.cpu.0 == 63
        && entry.hints.is_none()
        && matches!(entry.event, Event::Tick { t: ThreadId(9) })
}

/// Whether the entry is the last: it read no numbers.
fn is_sixth(entry: &Entry) -> bool {
    entry.number == 5 && entry.cpu.0 == 1 && entry.hints.is_none()
}

/// Whether the log has the six entries.
fn has_six(log: &EntryLog) -> bool {
    if log.len() != 6 {
        return false;
    }
    let early = is_idle_after(&log.entry(0), 3, Which::Queued, &[7, 8]) && is_tick(&log.entry(1));
    let middle = is_idle_after(&log.entry(2), 5, Which::Running, &[100; 64])
        && is_idle_after(&log.entry(3), 0, Which::Running, &[255, 0]);
    let late = is_idle_after(&log.entry(4), 2, Which::Queued, &[0; 7]) && is_sixth(&log.entry(5));
    early && middle && late
}

/// It is so, and memory did not run out.
fn is_so<R: Abort>(rt: &R, is_so: Result<bool, AllocError>) {
    assert!(rt; matches!(is_so, Ok(true)));
}

fn gives_six(alloc: Global) -> Result<bool, AllocError> {
    let mut log = EntryLog::new(alloc);
    let is_empty = log.len() == 0;
    put_six(&mut log)?;
    Ok(is_empty && has_six(&log))
}

#[test]
fn entries_come_out_as_they_went_in(rt: HostRuntime) {
    is_so(&rt, gives_six(rt.alloc()));
}

fn put_many(log: &mut EntryLog) -> Result<(), AllocError> {
    for k in 0..2000u16 {
        put(log, k, Event::Idle, two(Which::Queued, (k % 200) as u8, 1))?;
    }
    Ok(())
}

/// Whether the log has 2000 entries, of which this is the last.
fn has_many(log: &EntryLog) -> bool {
    if log.len() != 2000 {
        return false;
    }
    let last = log.entry(1999);
    last.number == 1999 && is_idle_after(&last, 1999, Which::Queued, &[199, 1])
}

fn gives_many(alloc: Global) -> Result<bool, AllocError> {
    let mut log = EntryLog::new(alloc);
    put_many(&mut log)?;
    Ok(has_many(&log))
}

#[test]
fn many_entries_find_room(rt: HostRuntime) {
    is_so(&rt, gives_many(rt.alloc()));
}
