//! The holds of a run.

ghost use Rattle.std.specs.Prelude.{◌≡◌, ◌++◌, IfOk, OnOk, filter};
ghost use Rattle.sd_stretches.specs.Rows.{next_of};
ghost use Rattle.sd_holds.specs.Holds.{end_of, gives_up, hold_if, hold_to, holds, taken};

use sd_stretches::Happening;
use sd_types::{Event, LockId, ThreadId};
use std::alloc::{AllocError, Global};

/// A thread holds a lock: a mutex, or a readers/writer lock as its writer or as one of its readers. Entry `taken` gave the lock to
/// it, when its processor had counted `from` ticks, and entry `given` took it from the thread, at tick `to`; None where the run
/// ends with the thread as a holder.
#[derive(Clone, Copy)]
pub struct Hold {
    pub thread: ThreadId,
    pub lock: LockId,
    pub taken: u64,
    pub given: Option<u64>,
    pub from: u32,
    pub to: u32,
}

/// The thread that becomes a holder by the event, and the lock.
pub(crate) fn taken(event: Event) -> Option<(ThreadId, LockId)>
    ensures { result ≡ taken event }
{
    match event {
        Event::Enter { t, l } | Event::Read { t, l } | Event::Write { t, l } => Some((t, l)),
        Event::Grant { l, u, .. } => Some((u, l)),
        _ => None,
    }
}

// The thread gives the lock up by the event.
fn gives_up(t: ThreadId, l: LockId, event: Event) -> bool
    ensures { result ≡ gives_up t l event }
{
    match event {
        Event::Exit { t: u, l: m } => u.0 == t.0 && m.0 == l.0,
        Event::CvWait { t: u, l: m, .. } => u.0 == t.0 && m.0 == l.0,
        _ => false,
    }
}

/// The first of these entries by which the thread gives the lock up.
pub(crate) fn end_of(t: ThreadId, l: LockId, happenings: &[Happening]) -> Option<Happening>
    ensures { result ≡ end_of t l happenings.now }
{
    for x in happenings {
        if gives_up(t, l, x.event) {
            return Some(*x);
        }
    }
    None
}

/// The hold from one entry to another, or to the end of the run.
pub(crate) fn hold_to(
    t: ThreadId,
    l: LockId,
    end: u32,
    x: &Happening,
    given: Option<Happening>,
) -> Hold
    ensures { result ≡ hold_to t l end x.now given }
{
    Hold {
        thread: t,
        lock: l,
        taken: x.entry,
        given: match given {
            Some(y) => Some(y.entry),
            None => None,
        },
        from: x.tick,
        to: match given {
            Some(y) => y.tick,
            None => end,
        },
    }
}

// The hold that the entry begins, if it begins one; the rest are the entries that follow.
fn push_hold(
    end: u32,
    x: &Happening,
    rest: &[Happening],
    found: &mut Vec<Hold>,
) -> Result<(), AllocError>
    ensures { OnOk result (found.new.items ≡ found.old.items ++ hold_if end x.now rest.now (taken x.now.event)) }
{
    if let Some((t, l)) = taken(x.event) {
        found.push(hold_to(t, l, end, x, end_of(t, l, rest)))?;
    }
    Ok(())
}

/// The holds of a run that ended at this tick, in the order in which they begin, from its entries.
pub fn holds(alloc: Global, happenings: &[Happening], end: u32) -> Result<Vec<Hold>, AllocError>
    ensures { IfOk result (λ v. v.items ≡ holds end happenings.now) }
{
    let mut found = Vec::new(alloc);
    let mut left = happenings;
    while let Some((x, rest)) = left.split_first() {
        push_hold(end, x, rest, &mut found)?;
        left = rest;
    }
    Ok(found)
}
