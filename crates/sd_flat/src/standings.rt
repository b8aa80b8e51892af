//! Where the threads stand of which a search finds the best.

ghost use Rattle.std.specs.Prelude.{◌≡◌};
ghost use Rattle.sd_flat.specs.Standings.{stands};
ghost use Rattle.sd_machine.specs.Threads.{is_due, is_ts, is_waiting};
ghost use Rattle.sd_state.specs.States.{is_queued, is_running, same_side};

use sd_state::{Place, ThreadState};
use sd_types::{ChanId, ClassState, CpuId, LockId, SetId, Side};

/// Ready for a processor of a partition, on a processor's own queue, there and bound to none, waiting for a lock at a
/// side, or asleep on a channel, with any key or with one below a number.
#[derive(Clone, Copy)]
pub enum Standing {
    Ready(CpuId, SetId),
    Queued(CpuId),
    Unbound(CpuId),
    Waiting(LockId, Side),
    Asleep(ChanId),
    AsleepBelow(ChanId, i64),
}

/// A thread in this place runs on processor `c`.
pub fn is_running(c: CpuId, place: &Place) -> bool
    ensures { result ≡ is_running c.0 place.now }
{
    match place {
        Place::Running(d) => d.0 == c.0,
        _ => false,
    }
}

pub(crate) fn is_queued(c: CpuId, place: &Place) -> bool
    ensures { result ≡ is_queued c.0 place.now }
{
    match place {
        Place::Queued(d, _) => d.0 == c.0,
        _ => false,
    }
}

fn same_side(side: Side, other: Side) -> bool
    ensures { result ≡ same_side side other }
{
    match (side, other) {
        (Side::Writer, Side::Writer) => true,
        (Side::Reader, Side::Reader) => true,
        _ => false,
    }
}

pub(crate) fn is_waiting(l: LockId, place: &Place) -> bool
    ensures { result ≡ is_waiting l.0 place.now }
{
    match place {
        Place::Waiting(m, _, _) => m.0 == l.0,
        _ => false,
    }
}

/// Naps on processor `c`, and the nap is over where the processor has counted `count` ticks.
pub(crate) fn is_due(c: CpuId, count: u32, place: &Place) -> bool
    ensures { result ≡ is_due c.0 count place.now }
{
    match place {
        Place::Napping(d, due) => d.0 == c.0 && *due <= count,
        _ => false,
    }
}

/// Whether the class is the time-sharing class.
#[inline(always)]
pub fn is_ts(class: &ClassState) -> bool
    ensures { result ≡ is_ts class.now }
{
    match class {
        ClassState::Ts(_) => true,
        _ => false,
    }
}

fn is_ready(c: CpuId, p: SetId, place: &Place) -> bool
    ensures { result ≡ Rattle.sd_state.specs.States.is_ready c.0 p.0 place.now }
{
    match place {
        Place::Queued(d, _) => d.0 == c.0,
        Place::RealTime(q, _) => q.0 == p.0,
        _ => false,
    }
}

fn waits_at(l: LockId, side: Side, place: &Place) -> bool
    ensures { result ≡ Rattle.sd_machine.specs.Threads.is_waiting_at l.0 side place.now }
{
    match place {
        Place::Waiting(m, other, _) => m.0 == l.0 && same_side(side, *other),
        _ => false,
    }
}

fn is_asleep(k: ChanId, place: &Place) -> bool
    ensures { result ≡ Rattle.sd_machine.specs.Threads.is_asleep k.0 place.now }
{
    match place {
        Place::Asleep(j, _) => j.0 == k.0,
        _ => false,
    }
}

fn is_asleep_below(k: ChanId, below: i64, place: &Place) -> bool
    ensures { result ≡ Rattle.sd_machine.specs.Threads.is_asleep_below k.0 below place.now }
{
    match place {
        Place::Asleep(j, key) => j.0 == k.0 && *key < below,
        _ => false,
    }
}

/// Whether the thread stands there.
pub(crate) fn stands(standing: Standing, x: &ThreadState) -> bool
    ensures { result ≡ stands standing x.now }
{
    match standing {
        Standing::Ready(c, p) => is_ready(c, p, &x.place),
        Standing::Queued(c) => is_queued(c, &x.place),
        Standing::Unbound(c) => is_queued(c, &x.place) && x.body.bound.is_none(),
        Standing::Waiting(l, side) => waits_at(l, side, &x.place),
        Standing::Asleep(k) => is_asleep(k, &x.place),
        Standing::AsleepBelow(k, below) => is_asleep_below(k, below, &x.place),
    }
}
