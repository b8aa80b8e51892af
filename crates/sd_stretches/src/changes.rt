//! What an entry changes of what is seen, and the entries that hand priority on or wake.
//!
//! Source: Solaris Internals (turnstiles, sleep queues); the lists are this project's own.

ghost use Rattle.std.specs.Prelude.{◌≡◌, ◌++◌, OnOk, slice_get};
ghost use Rattle.sd_stretches.specs.Altered.{last_count, load_by_sight, one_moved, with_sight};
ghost use Rattle.sd_stretches.specs.Changes.{is_that_thread, load_if, onset_if, onsets_between, rank_if, ranks_between, wanted_lock, woken_by};

use crate::sights::{Doing, Sight, is_runnable, runnable, same_doing, same_rank};
use sd_types::{Class, CpuId, Event, LockId, ThreadId};
use std::alloc::AllocError;

/// From a state on a thread does this: from the one that `first` entries made, so entry `first` - 1 is the cause, or, for 0,
/// from the start. `tick` is then the count of the processor that made the entry. Class and effective priority are those of
/// that state.
#[derive(Clone, Copy)]
pub struct Onset {
    pub thread: usize,
    pub first: u64,
    pub tick: u32,
    pub doing: Doing,
    pub class: Class,
    pub priority: u8,
}

/// From the state that `first` entries made on, a thread has this effective priority, inherited or its own.
#[derive(Clone, Copy)]
pub struct Rank {
    pub thread: usize,
    pub first: u64,
    pub tick: u32,
    pub priority: u8,
    pub inherited: bool,
}

/// From the state that `first` entries made on, so many threads stand on dispatch queues.
#[derive(Clone, Copy)]
pub struct Load {
    pub first: u64,
    pub tick: u32,
    pub runnable: usize,
}

/// The entry of this number gave the owner of the lock the greatest priority of those who wait for it: `waiter` is the first
/// of them that has it, `priority` the owner's effective priority then. `inherited` says whether the owner has it from them: it is
/// that of the waiter, and above the base priority of the owner's class.
#[derive(Clone, Copy)]
pub struct HandOver {
    pub entry: u64,
    pub tick: u32,
    pub lock: LockId,
    pub waiter: Option<usize>,
    pub owner: ThreadId,
    pub priority: u8,
    pub inherited: bool,
}

/// The entry of this number made a thread runnable that slept, napped or waited for a lock; `waker` is the thread that ran on
/// the processor then, none at the end of a nap.
#[derive(Clone, Copy)]
pub struct Wakeup {
    pub entry: u64,
    pub tick: u32,
    pub waker: Option<usize>,
    pub woken: ThreadId,
}

/// An entry, without the numbers that it read. `tick` is the count of its processor after it, and `owner` the thread that owns
/// then the lock for which the entry says that a thread spins or blocks.
#[derive(Clone, Copy)]
pub struct Happening {
    pub entry: u64,
    pub cpu: CpuId,
    pub tick: u32,
    pub event: Event,
    pub owner: Option<ThreadId>,
}

pub(crate) fn sight_at(sights: &[Sight], t: usize) -> Option<Sight>
    ensures { result ≡ slice_get sights.now t }
{
    match sights.get(t) {
        Some(x) => Some(*x),
        None => None,
    }
}

/// Appends what a thread does from a state on, where it did not do it in the state before.
pub(crate) fn push_onset(
    t: usize,
    first: u64,
    tick: u32,
    old: Option<Sight>,
    new: Option<Sight>,
    out: &mut Vec<Onset>,
) -> Result<(), AllocError>
    ensures { OnOk result (out.new.items ≡ out.old.items ++ onset_if t first tick old new) }
{
    let Some(x) = new else {
        return Ok(());
    };
    if let Some(y) = old {
        if same_doing(y.doing, x.doing) {
            return Ok(());
        }
    }
    out.push(Onset {
        thread: t,
        first,
        tick,
        doing: x.doing,
        class: x.class,
        priority: x.priority,
    })?;
    Ok(())
}

/// Appends what each thread does from a state on, where it did not do it in the state before.
#[tactic(auto, unfolding(crate::specs::Changes::onsets_between))]
pub(crate) fn push_onsets(
    old: &[Sight],
    new: &[Sight],
    first: u64,
    tick: u32,
    out: &mut Vec<Onset>,
) -> Result<(), AllocError>
    ensures { OnOk result (out.new.items ≡ out.old.items ++ onsets_between old.now new.now first tick) }
{
    for t in 0..new.len() {
        push_onset(t, first, tick, sight_at(old, t), sight_at(new, t), out)?;
    }
    Ok(())
}

/// Appends the priority that a thread has from a state on, where it did not have it in the state before.
pub(crate) fn push_rank(
    t: usize,
    first: u64,
    tick: u32,
    old: Option<Sight>,
    new: Option<Sight>,
    out: &mut Vec<Rank>,
) -> Result<(), AllocError>
    ensures { OnOk result (out.new.items ≡ out.old.items ++ rank_if t first tick old new) }
{
    let Some(x) = new else {
        return Ok(());
    };
    if let Some(y) = old {
        if same_rank(&y, &x) {
            return Ok(());
        }
    }
    out.push(Rank {
        thread: t,
        first,
        tick,
        priority: x.priority,
        inherited: x.inherited,
    })?;
    Ok(())
}

/// Appends the priority that each thread has from a state on, where it did not have it in the state before.
#[tactic(auto, unfolding(crate::specs::Changes::ranks_between))]
pub(crate) fn push_ranks(
    old: &[Sight],
    new: &[Sight],
    first: u64,
    tick: u32,
    out: &mut Vec<Rank>,
) -> Result<(), AllocError>
    ensures { OnOk result (out.new.items ≡ out.old.items ++ ranks_between old.now new.now first tick) }
{
    for t in 0..new.len() {
        push_rank(t, first, tick, sight_at(old, t), sight_at(new, t), out)?;
    }
    Ok(())
}

/// Appends how many threads stand on dispatch queues from a state on, where it were not so many in the state before.
pub(crate) fn push_load(
    old: &[Sight],
    new: &[Sight],
    first: u64,
    tick: u32,
    out: &mut Vec<Load>,
) -> Result<(), AllocError>
    ensures { OnOk result (out.new.items ≡ out.old.items ++ load_if old.now new.now first tick) }
{
    let runnable_now = runnable(new);
    if runnable(old) != runnable_now {
        out.push(Load {
            first,
            tick,
            runnable: runnable_now,
        })?;
    }
    Ok(())
}

// How many threads stand on dispatch queues since the last of these.
fn last_count(loads: &[Load]) -> usize
    ensures { result ≡ last_count loads.now }
{
    match loads.last() {
        Some(load) => load.runnable,
        None => 0,
    }
}

// That number after a thread came to a queue, or left one.
fn one_moved(comes: bool, runnable: usize) -> usize
    ensures { result ≡ one_moved comes runnable }
{
    if comes {
        runnable.saturating_add(1)
    } else {
        runnable.saturating_sub(1)
    }
}

/// Appends how many threads stand on dispatch queues from a state on, where one thread came to a queue or left one.
pub(crate) fn push_load_by(
    first: u64,
    tick: u32,
    old: Option<Sight>,
    new: Option<Sight>,
    out: &mut Vec<Load>,
) -> Result<(), AllocError>
    ensures { OnOk result (out.new.items ≡ out.old.items ++ load_by_sight (last_count out.old.items) first tick old new) }
{
    let Some(y) = old else {
        return Ok(());
    };
    let Some(x) = new else {
        return Ok(());
    };
    let comes = is_runnable(&x);
    if is_runnable(&y) == comes {
        return Ok(());
    }
    let runnable = one_moved(comes, last_count(out));
    out.push(Load {
        first,
        tick,
        runnable,
    })?;
    Ok(())
}

/// Writes what is seen of a thread now, if there is one of this number.
pub(crate) fn set_sight(sights: &mut [Sight], t: usize, new: Option<Sight>)
    ensures { sights.new ≡ with_sight sights.old t new }
{
    if let Some(x) = new {
        if t < sights.len() {
            sights[t] = x;
        }
    }
}

/// Whether there is a thread, and it is this one.
pub fn is_that_thread(thread: ThreadId, other: Option<ThreadId>) -> bool
    ensures { result ≡ is_that_thread thread other }
{
    match other {
        Some(other) => other == thread,
        None => false,
    }
}

/// The thread that an event wakes.
pub fn woken_by(event: &Event) -> Option<ThreadId>
    ensures { result ≡ woken_by event.now }
{
    match *event {
        Event::Napend { t, .. } => Some(t),
        Event::Wake {
            woken: Some((u, _)),
            ..
        } => Some(u),
        Event::Rouse {
            woken: Some((u, _)),
            ..
        } => Some(u),
        Event::Unblock { u, .. } => Some(u),
        Event::Grant { u, .. } => Some(u),
        Event::SemaVWake { u, .. } => Some(u),
        _ => None,
    }
}

/// The lock for which an event says that a thread spins or blocks.
pub fn wanted_lock(event: &Event) -> Option<LockId>
    ensures { result ≡ wanted_lock event.now }
{
    match *event {
        Event::Spin { l, .. } => Some(l),
        Event::Block { l, .. } => Some(l),
        _ => None,
    }
}
