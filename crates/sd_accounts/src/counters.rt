//! The counters of threads, processors and of the whole run, and what an entry adds to them. A counter has 64 bits; no run
//! has so many entries.

ghost use Rattle.std.specs.Prelude.{◌≡◌, ◌<◌, length, slice_index_or, slice_set, true};
ghost use Rattle.sd_accounts.specs.Counters.{cpu_after, cpus_after, more, no_cpu_counts, no_thread_counts, thread_after, threads_after, totals_after};

use crate::events::{
    counted_thread, is_block, is_dispatch, is_dispatch_of, is_idle, is_preempt, is_preempt_of,
    is_steal, is_tick_of, is_wake, is_wake_of, is_will,
};
use sd_types::{CpuId, Event, List, ThreadId};

/// How often a thread ticked, was dispatched, preempted and woken.
#[derive(Clone, Copy)]
pub struct ThreadCounts {
    pub ticks: u64,
    pub dispatches: u64,
    pub preempts: u64,
    pub wakes: u64,
}

/// The ticks of a processor, and how many of them were idle.
#[derive(Clone, Copy)]
pub struct CpuCounts {
    pub ticks: u64,
    pub idle: u64,
}

/// How many entries there were, and how many of each kind: ticks of all processors (idle ones too), idle ticks,
/// dispatches (steals too), steals, preemptions, wakeups, blocks and steps of walks.
#[derive(Clone, Copy)]
pub struct Totals {
    pub entries: u64,
    pub ticks: u64,
    pub idle: u64,
    pub dispatches: u64,
    pub steals: u64,
    pub preempts: u64,
    pub wakes: u64,
    pub blocks: u64,
    pub wills: u64,
}

impl ThreadCounts {
    pub const NONE: ThreadCounts = ThreadCounts {
        ticks: 0,
        dispatches: 0,
        preempts: 0,
        wakes: 0,
    };
}

impl CpuCounts {
    pub const NONE: CpuCounts = CpuCounts { ticks: 0, idle: 0 };
}

impl Totals {
    pub const NONE: Totals = Totals {
        entries: 0,
        ticks: 0,
        idle: 0,
        dispatches: 0,
        steals: 0,
        preempts: 0,
        wakes: 0,
        blocks: 0,
        wills: 0,
    };
}

#[inline(always)]
fn more(counts: bool, n: u64) -> u64
    ensures { result ≡ more counts n }
{
    if counts { n.wrapping_add(1) } else { n }
}

#[tactic(auto, unfolding(crate::specs::Counters::thread_after))]
#[inline(always)]
fn thread_after(t: ThreadId, event: &Event, x: ThreadCounts) -> ThreadCounts
    ensures { result ≡ thread_after t.0 event.now x }
{
    ThreadCounts {
        ticks: more(is_tick_of(t, event), x.ticks),
        dispatches: more(is_dispatch_of(t, event), x.dispatches),
        preempts: more(is_preempt_of(t, event), x.preempts),
        wakes: more(is_wake_of(t, event), x.wakes),
    }
}

#[tactic(auto, unfolding(crate::specs::Counters::cpu_after))]
#[inline(always)]
fn cpu_after(event: &Event, x: CpuCounts) -> CpuCounts
    ensures { result ≡ cpu_after event.now x }
{
    CpuCounts {
        ticks: more(event.ticks(), x.ticks),
        idle: more(is_idle(event), x.idle),
    }
}

/// The totals after the event.
#[tactic(auto, unfolding(crate::specs::Counters::totals_after))]
#[inline(always)]
pub(crate) fn totals_after(event: &Event, x: Totals) -> Totals
    ensures { result ≡ totals_after event.now x }
{
    Totals {
        entries: more(true, x.entries),
        ticks: more(event.ticks(), x.ticks),
        idle: more(is_idle(event), x.idle),
        dispatches: more(is_dispatch(event), x.dispatches),
        steals: more(is_steal(event), x.steals),
        preempts: more(is_preempt(event), x.preempts),
        wakes: more(is_wake(event), x.wakes),
        blocks: more(is_block(event), x.blocks),
        wills: more(is_will(event), x.wills),
    }
}

#[inline(always)]
fn count_at(t: ThreadId, event: &Event, threads: &mut List<ThreadCounts>)
    ensures { threads.new ≡ slice_set threads.old t.0 (thread_after t.0 event.now (slice_index_or threads.old t.0 no_thread_counts)) }
{
    let index = t.0 as usize;
    if index < threads.items().len() {
        let counts = thread_after(t, event, threads.items()[index]);
        threads.items_mut()[index] = counts;
    }
}

/// Counts the event for its thread, where it is of the accounts of any.
#[tactic(auto, unfolding(crate::specs::Counters::threads_after))]
#[inline(always)]
pub(crate) fn count_thread(event: &Event, threads: &mut List<ThreadCounts>)
    ensures { threads.new ≡ threads_after event.now threads.old }
{
    match counted_thread(event) {
        None => {}
        Some(t) => count_at(t, event, threads),
    }
}

/// Counts the event for the processor that made it.
#[tactic(auto, unfolding(crate::specs::Counters::cpus_after))]
#[inline(always)]
pub(crate) fn count_cpu(c: CpuId, event: &Event, cpus: &mut List<CpuCounts>)
    ensures { cpus.new ≡ cpus_after c.0 event.now cpus.old }
{
    let index = c.0 as usize;
    if index < cpus.items().len() {
        let counts = cpu_after(event, cpus.items()[index]);
        cpus.items_mut()[index] = counts;
    }
}
