//! What a history takes in of the state that an entry made, wherever that state is kept: the numbers of a few look-ups. With what is
//! seen of all threads they say what the entry hands on, and whom it wakes.
//!
//! Source: Solaris Internals (turnstiles, sleep queues); the lists are this project's own.

ghost use Rattle.std.specs.Prelude.{◌≡◌, ◌++◌, ◌∷◌, [], OnOk, Some, option_to_list};
ghost use Rattle.sd_stretches.specs.Changes.{is_priority, woken_by};
ghost use Rattle.sd_stretches.specs.Glimpses.{giver_among, hand_over_seen, happening_seen, is_inherited_by, is_seen_giving, waits_for, wakeup_seen};

use crate::changes::{HandOver, Happening, Wakeup, woken_by};
use crate::sights::{Doing, Sight};
use sd_types::{Entry, Event, LockId, ThreadId};
use std::alloc::AllocError;

/// What is seen in the state that an entry made: the count of the entry's processor (`tick`), and the thread that the entry may alter
/// (`sight`). Of an entry that hands priority on, the greatest priority of those who wait for its lock, and whether the priority that it
/// hands on is above the base priority of the owner's class. Of one that wakes a thread, the thread that runs on the processor
/// (`waker`), none at the end of a nap. Of one by which a thread spins or blocks, the owner of the lock. Each is none or false for
/// other entries.
#[derive(Clone, Copy)]
pub struct Glimpse {
    pub tick: u32,
    pub sight: Option<Sight>,
    pub greatest: Option<u8>,
    pub above_base: bool,
    pub waker: Option<usize>,
    pub owner: Option<ThreadId>,
}

fn waits_for(l: LockId, doing: Doing) -> bool
    ensures { result ≡ waits_for l.0 doing }
{
    match doing {
        Doing::Waiting(m) => m.0 == l.0,
        _ => false,
    }
}

// Is seen to wait for the lock with this priority.
fn is_seen_giving(l: LockId, greatest: u8, x: &Sight) -> bool
    ensures { result ≡ is_seen_giving l.0 greatest x.now }
{
    waits_for(l, x.doing) && x.priority == greatest
}

fn first_giver(sights: &[Sight], l: LockId, greatest: u8) -> Option<usize>
    ensures { result ≡ giver_among sights.now l.0 (Some greatest) }
{
    sights.iter().position(|x| is_seen_giving(l, greatest, x))
}

// The first thread that waits for the lock and has the greatest priority of those who do.
fn giver_among(sights: &[Sight], l: LockId, greatest: Option<u8>) -> Option<usize>
    ensures { result ≡ giver_among sights.now l.0 greatest }
{
    match greatest {
        Some(greatest) => first_giver(sights, l, greatest),
        None => None,
    }
}

fn is_priority(greatest: Option<u8>, priority: u8) -> bool
    ensures { result ≡ is_priority greatest priority }
{
    match greatest {
        Some(greatest) => greatest == priority,
        None => false,
    }
}

// The owner has its effective priority from those who wait for the lock.
fn is_inherited_by(glimpse: &Glimpse, priority: u8) -> bool
    ensures { result ≡ is_inherited_by glimpse.now priority }
{
    glimpse.above_base && is_priority(glimpse.greatest, priority)
}

fn hand_over_seen(sights: &[Sight], glimpse: &Glimpse, entry: &Entry) -> Option<HandOver>
    ensures { result ≡ hand_over_seen sights.now glimpse.now entry.now entry.now.event }
{
    match entry.event {
        Event::Will { l, o, p, .. } => Some(HandOver {
            entry: entry.number,
            tick: glimpse.tick,
            lock: l,
            waiter: giver_among(sights, l, glimpse.greatest),
            owner: o,
            priority: p,
            inherited: is_inherited_by(glimpse, p),
        }),
        _ => None,
    }
}

/// Appends what the entry hands on, where the threads are seen so after it.
pub(crate) fn push_hand_over(
    sights: &[Sight],
    glimpse: &Glimpse,
    entry: &Entry,
    out: &mut Vec<HandOver>,
) -> Result<(), AllocError>
    ensures { OnOk result (out.new.items ≡ out.old.items ++ option_to_list (hand_over_seen sights.now glimpse.now entry.now entry.now.event)) }
{
    if let Some(given) = hand_over_seen(sights, glimpse, entry) {
        out.push(given)?;
    }
    Ok(())
}

fn wakeup_seen(glimpse: &Glimpse, entry: &Entry) -> Option<Wakeup>
    ensures { result ≡ wakeup_seen glimpse.now entry.now (woken_by entry.now.event) }
{
    let woken = woken_by(&entry.event)?;
    Some(Wakeup {
        entry: entry.number,
        tick: glimpse.tick,
        waker: glimpse.waker,
        woken,
    })
}

/// Appends whom the entry wakes.
pub(crate) fn push_wakeup(
    glimpse: &Glimpse,
    entry: &Entry,
    out: &mut Vec<Wakeup>,
) -> Result<(), AllocError>
    ensures { OnOk result (out.new.items ≡ out.old.items ++ option_to_list (wakeup_seen glimpse.now entry.now (woken_by entry.now.event))) }
{
    if let Some(wakeup) = wakeup_seen(glimpse, entry) {
        out.push(wakeup)?;
    }
    Ok(())
}

/// Appends the entry.
pub(crate) fn push_happening(
    glimpse: &Glimpse,
    entry: &Entry,
    out: &mut Vec<Happening>,
) -> Result<(), AllocError>
    ensures { OnOk result (out.new.items ≡ out.old.items ++ happening_seen glimpse.now entry.now ∷ []) }
{
    out.push(Happening {
        entry: entry.number,
        cpu: entry.cpu,
        tick: glimpse.tick,
        event: entry.event,
        owner: glimpse.owner,
    })?;
    Ok(())
}
