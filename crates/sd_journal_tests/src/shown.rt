//! The history of a run of three entries that was drawn by hand.

use crate::given::{in_place, is_so, state};
use sd_state::{CpuState, Place, State};
use sd_stretches::{ByThread, Doing, Glimpse, History, Sight, Stretch, levels, stretches};
use sd_types::{Class, CpuId, Duty, Entry, Event, SetId, ThreadId};
use std::alloc::{AllocError, Global};

/// A processor of the default partition that has counted so many ticks.
fn cpu_at(count: u32) -> CpuState {
    CpuState {
        count,
        user: false,
        kernel: false,
        duty: Duty::Nothing,
        set: SetId(0),
        closing: None,
        bound: 0,
    }
}

/// A state of one processor and one thread.
fn at_tick(alloc: Global, place: Place, count: u32) -> Result<State, AllocError> {
    let threads = Vec::from_array(alloc, [in_place(place)])?;
    let cpus = Vec::from_array(alloc, [cpu_at(count)])?;
    Ok(state(alloc, threads, Vec::new(alloc), cpus))
}

pub(crate) fn entry(number: u64, event: Event) -> Entry {
    Entry {
        number,
        cpu: CpuId(0),
        event,
        hints: None,
    }
}

/// The history of no entry yet, where the thread is on a queue.
pub(crate) fn begun(alloc: Global) -> Result<History, AllocError> {
    let s = at_tick(alloc, Place::Queued(CpuId(0), 0), 0)?;
    History::new(alloc, &s)
}

/// The thread is seen to do this, at its own priority, and the processor has counted so many ticks.
fn seen(doing: Doing, tick: u32) -> Glimpse {
    Glimpse {
        tick,
        sight: Some(Sight {
            doing,
            class: Class::Sys,
            priority: 60,
            inherited: false,
        }),
        greatest: None,
        above_base: false,
        waker: None,
        owner: None,
    }
}

/// Takes the next entry in, after which the thread does this and the processor has counted so many ticks. A history of 99 entries
/// stays as it is.
pub(crate) fn take_in(
    history: &mut History,
    entry: &Entry,
    doing: Doing,
    count: u32,
) -> Result<(), AllocError> {
    if history.entries >= 99 {
        return Ok(());
    }
    history.add(&seen(doing, count), entry)
}

fn take_three(history: &mut History) -> Result<(), AllocError> {
    let t = ThreadId(0);
    let running = Doing::Running(CpuId(0));
    let dispatch = entry(0, Event::Dispatch { t, p: 60 });
    take_in(history, &dispatch, running, 0)?;
    take_in(history, &entry(1, Event::Tick { t }), running, 1)?;
    take_in(history, &entry(2, Event::Done { t }), Doing::Ended, 1)
}

/// The first and last state of each stretch, and the ticks from which and to which it lasts.
const ROWS: [(u64, u64, u32, u32); 3] = [(0, 0, 0, 0), (1, 2, 0, 1), (3, 3, 1, 5)];

fn are_rows(found: &[Stretch]) -> bool {
    if found.len() != 3 {
        return false;
    }
    for (x, row) in found.iter().zip(&ROWS) {
        if x.first != row.0 || x.last != row.1 || x.from != row.2 || x.to != row.3 {
            return false;
        }
    }
    true
}

fn has_rows(alloc: Global, history: &ByThread) -> Result<bool, AllocError> {
    let own = stretches(alloc, history, 0, 5)?;
    Ok(are_rows(&own))
}

fn has_one_level(alloc: Global, history: &ByThread) -> Result<bool, AllocError> {
    let own = levels(alloc, history, 0, 5)?;
    Ok(own.len() == 1)
}

fn is_shown(alloc: Global, history: &ByThread) -> Result<bool, AllocError> {
    Ok(has_rows(alloc, history)? && has_one_level(alloc, history)?)
}

fn runs_for_a_tick(alloc: Global) -> Result<bool, AllocError> {
    let mut history = begun(alloc)?;
    take_three(&mut history)?;
    is_shown(alloc, &history.by_thread(alloc)?)
}

/// A thread is dispatched, ticks once and ends: it is runnable, runs for a tick, and has ended.
#[test]
fn a_thread_runs_for_a_tick(rt: HostRuntime) {
    is_so(&rt, runs_for_a_tick(rt.alloc()));
}
