//! Places and duties without keys. A key says which of two threads came first; it is the store's alone, and no event
//! sees one.

use sd_types::{ChanId, CpuId, End, LockId, SetId, Side, ThreadId};

/// Where a thread stands: it runs on a processor or is on its queue, is on the real-time queue of a partition, waits for
/// a lock at a side, sleeps on a channel, naps on a processor, or has ended.
#[derive(Clone, Copy)]
pub enum Spot {
    Running(CpuId),
    Queued(CpuId),
    RealTime(SetId),
    Waiting(LockId, Side),
    Asleep(ChanId),
    Napping(CpuId),
    Ended,
}

/// Where a thread goes that leaves its processor: to an end of the queue of a processor or of the real-time queue of a
/// partition, to the turnstile of a lock at a side, to the sleep queue of a channel, to a nap until the processor has
/// counted so many ticks, or to its end.
#[derive(Clone, Copy)]
pub enum Destination {
    Queue(CpuId, End),
    RealTime(SetId, End),
    Turnstile(LockId, Side),
    SleepQueue(ChanId),
    Nap(u32),
    Nowhere,
}

/// The duty of a processor: nothing, to walk on at a lock seeking a thread, to wake the waiters of a mutex, to hand a
/// rwlock over to a writer or to readers, to wake the sleepers of a channel that slept when the duty began, or to age the
/// time-sharing threads on its queue from a number on.
#[derive(Clone, Copy)]
pub enum Task {
    Nothing,
    Walk { lock: LockId, seek: ThreadId },
    WakeMutex(LockId),
    GrantWriter(LockId),
    GrantReaders(LockId),
    Rouse(ChanId),
    Age(ThreadId),
}

/// A duty that has no key: nothing, to wake the waiters of a mutex, to hand a rwlock over to a writer or to readers, or to
/// age the time-sharing threads from a number on.
#[derive(Clone, Copy)]
pub enum Chore {
    Nothing,
    WakeMutex(LockId),
    GrantWriter(LockId),
    GrantReaders(LockId),
    Age(ThreadId),
}
