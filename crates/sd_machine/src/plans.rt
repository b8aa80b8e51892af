//! What a processor is about to do before it has read anything of other processors.

use sd_types::{ChanId, CpuId, Event, LockId, ThreadId};

/// An event that makes a thread runnable, without the place to which the thread goes. Of each, the thread is the one
/// that `placed_thread` names; `p` is an effective priority after the event.
#[derive(Clone, Copy)]
pub enum Placement {
    Napend { t: ThreadId },
    Wake { t: ThreadId, k: ChanId, u: ThreadId },
    Rouse { k: ChanId, u: ThreadId },
    Will { l: LockId, o: ThreadId, p: u8 },
    Unblock { l: LockId, u: ThreadId },
    Grant { l: LockId, u: ThreadId },
    Prio { t: ThreadId, u: ThreadId, p: u8 },
    SemaVWake { t: ThreadId, k: ChanId, u: ThreadId },
    Move { t: ThreadId },
}

/// What the order of a processor's events gives to it, as far as its own state says: an event; a thread that is made
/// runnable with this effective priority on a processor that is still to be chosen; or, with nothing to dispatch, a
/// search for a thread of another processor's queue.
#[derive(Clone, Copy)]
pub enum Plan {
    Make(Event),
    Place(Placement, u8),
    Search,
}

/// What becomes of a thread on a queue whose effective priority changed: nothing where it is on none; it goes to the
/// back of the queue of the same processor; or it is made runnable anew.
#[derive(Clone, Copy)]
pub enum Requeue {
    Stays,
    Behind(CpuId),
    Anew,
}
