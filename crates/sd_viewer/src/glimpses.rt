//! What is seen of the state that an entry made, looked up in the homes of the run, where its threads stand: no look goes over all
//! threads.

ghost use Rattle.std.specs.Prelude.{◌≡◌, ◌<◌, IfSome, Some, slice_get};
ghost use Rattle.sd_state.specs.States.{thread_of};
ghost use Rattle.sd_machine.specs.Threads.{runner};
ghost use Rattle.sd_frames.specs.Altered.{altered as altered_in};
ghost use Rattle.sd_stretches.specs.Altered.{sight_among};
ghost use Rattle.sd_stretches.specs.Changes.{is_above_base, owner_of, waker_of};
ghost use Rattle.sd_stretches.specs.Glimpses.{above_base_by, glimpse_of, greatest_by, waker_by};
ghost use Rattle.sd_stretches.specs.Sights.{sight_of, sights_of};
ghost use Rattle.sd_world.specs.Plain.{Stands, told};
ghost use Rattle.sd_viewer.specs.Glimpses.{doing_at};

use sd_homes_replay::{body_of, count_of, greatest_waiting, lock_of, runner_of, spot_of};
use sd_state::LockState;
use sd_store::Spot;
use sd_stretches::{Doing, Glimpse, Sight, altered, sight_by, wanted_lock, woken_by};
use sd_types::{Class, CpuId, Entry, Event, LockId, ThreadId, Work};
use sd_world::PlainWorld;

fn doing_at(spot: Spot) -> Doing
    ensures { result ≡ doing_at spot }
{
    match spot {
        Spot::Running(c) => Doing::Running(c),
        Spot::Queued(_) => Doing::Runnable,
        Spot::RealTime(_) => Doing::Runnable,
        Spot::Waiting(l, _) => Doing::Waiting(l),
        Spot::Asleep(k) => Doing::Asleep(k),
        Spot::Napping(_) => Doing::Napping,
        Spot::Ended => Doing::Ended,
    }
}

// What is seen of a thread; a number that is out of range is seen as one that has ended.
fn sight_of(work: &Work, world: &PlainWorld, t: ThreadId) -> Sight
    requires stands { Stands work.now world.now }
    ensures { result ≡ sight_of (thread_of (told work.now world.now) t.0) }
{
    let doing = doing_at(spot_of(work, world, t));
    match body_of(work, world, t) {
        Some(body) => sight_by(body, doing),
        None => Sight {
            doing,
            class: Class::Sys,
            priority: 60,
            inherited: false,
        },
    }
}

// What is seen of a thread, if there is one of this number.
fn sight_in(work: &Work, world: &PlainWorld, t: usize) -> Option<Sight>
    requires stands { Stands work.now world.now }
    ensures { result ≡ slice_get (sights_of (told work.now world.now)) t }
{
    if work.threads.items().len() <= t {
        return None;
    }
    Some(sight_of(work, world, ThreadId(t as u16)))
}

// What is seen of the thread that an entry may alter.
fn sight_among(work: &Work, world: &PlainWorld, altered: Option<usize>) -> Option<Sight>
    requires stands { Stands work.now world.now }
    ensures { result ≡ sight_among altered (sights_of (told work.now world.now)) }
{
    match altered {
        Some(t) => sight_in(work, world, t),
        None => None,
    }
}

// The same, where it may have been foreseen.
fn altered_sight(
    work: &Work,
    world: &PlainWorld,
    event: &Event,
    foreseen: Option<Sight>,
) -> Option<Sight>
    requires stands { Stands work.now world.now }
    requires foreseen { IfSome foreseen (λ x. sight_among (altered_in event.now) (sights_of (told work.now world.now)) ≡ Some x) }
    ensures { result ≡ sight_among (altered_in event.now) (sights_of (told work.now world.now)) }
{
    match foreseen {
        Some(sight) => Some(sight),
        None => sight_among(work, world, altered(event)),
    }
}

// Of an entry that hands priority on, the greatest priority of those who wait for its lock.
fn greatest_by(work: &Work, world: &PlainWorld, event: &Event) -> Option<u8>
    requires stands { Stands work.now world.now }
    ensures { result ≡ greatest_by (told work.now world.now) event.now }
{
    match *event {
        Event::Will { l, .. } => greatest_waiting(work, world, l),
        _ => None,
    }
}

// The priority is above the base priority of the thread's class.
fn is_above_base(work: &Work, world: &PlainWorld, t: ThreadId, priority: u8) -> bool
    requires stands { Stands work.now world.now }
    ensures { result ≡ is_above_base (slice_get (told work.now world.now).threads t.0) priority }
{
    if work.threads.items().len() <= t.0 as usize {
        return false;
    }
    match body_of(work, world, t) {
        Some(body) => body.class.base() < priority,
        None => 60 < priority,
    }
}

// Of an entry that hands priority on, whether it is above the owner's own.
fn above_base_by(work: &Work, world: &PlainWorld, event: &Event) -> bool
    requires stands { Stands work.now world.now }
    ensures { result ≡ above_base_by (told work.now world.now) event.now }
{
    match *event {
        Event::Will { o, p, .. } => is_above_base(work, world, o, p),
        _ => false,
    }
}

fn index_of_runner(work: &Work, world: &PlainWorld, c: CpuId) -> Option<usize>
    requires stands { Stands work.now world.now }
    requires cpu { c.0 < work.now.cpus }
    ensures { result ≡ runner (told work.now world.now) c.0 }
{
    match runner_of(work, world, c) {
        Some(t) => Some(t.0 as usize),
        None => None,
    }
}

// The thread that runs on the processor; none at the end of a nap, which is the clock's.
fn waker_of(work: &Work, world: &PlainWorld, c: CpuId, event: &Event) -> Option<usize>
    requires stands { Stands work.now world.now }
    requires cpu { c.0 < work.now.cpus }
    ensures { result ≡ waker_of (told work.now world.now) c event.now }
{
    match event {
        Event::Napend { .. } => None,
        _ => index_of_runner(work, world, c),
    }
}

// The same of an entry that wakes a thread.
fn waker_by(
    work: &Work,
    world: &PlainWorld,
    c: CpuId,
    event: &Event,
    woken: Option<ThreadId>,
) -> Option<usize>
    requires stands { Stands work.now world.now }
    requires cpu { c.0 < work.now.cpus }
    ensures { result ≡ waker_by (told work.now world.now) c event.now woken }
{
    match woken {
        Some(_) => waker_of(work, world, c, event),
        None => None,
    }
}

// The owner of the lock for which an entry says that a thread spins or blocks.
fn owner_of(work: &Work, world: &PlainWorld, wanted: Option<LockId>) -> Option<ThreadId>
    requires stands { Stands work.now world.now }
    ensures { result ≡ owner_of (told work.now world.now) wanted }
{
    match lock_of(work, world, wanted?) {
        LockState::Owned(o) => Some(o),
        _ => None,
    }
}

/// What is seen of the state that the entry made, as far as a history takes it in. What was foreseen of its thread is not looked up again.
pub(crate) fn glimpse_of(
    work: &Work,
    world: &PlainWorld,
    entry: &Entry,
    foreseen: Option<Sight>,
) -> Glimpse
    requires stands { Stands work.now world.now }
    requires foreseen { IfSome foreseen (λ x. sight_among (altered_in entry.now.event) (sights_of (told work.now world.now)) ≡ Some x) }
    requires cpu { entry.now.cpu.0 < work.now.cpus }
    ensures { result ≡ glimpse_of (told work.now world.now) entry.now }
{
    let event = &entry.event;
    Glimpse {
        tick: count_of(work, world, entry.cpu),
        sight: altered_sight(work, world, event, foreseen),
        greatest: greatest_by(work, world, event),
        above_base: above_base_by(work, world, event),
        waker: waker_by(work, world, entry.cpu, event, woken_by(event)),
        owner: owner_of(work, world, wanted_lock(event)),
    }
}
