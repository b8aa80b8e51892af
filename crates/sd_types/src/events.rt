//! Duties of a processor, events, entries of the journal, and refusals.
//!
//! Source: Solaris Internals; the cut into events is this project's own.

ghost use Rattle.std.specs.Prelude.{◌≡◌};
ghost use Rattle.sd_types.specs.Events.{ticks};

use crate::{ChanId, CpuId, LockId, SetId, ThreadId};
use arrayvec::ArrayVec;

/// An end of a dispatch queue.
#[derive(Clone, Copy, PartialEq, Eq)]
pub enum End {
    Front,
    Back,
}

/// The refusal of a call that needs room in a log: `Full` where the log holds 2^40 entries or more,
/// `Memory` where memory runs out.
#[derive(Clone, Copy, Debug, PartialEq, Eq)]
pub enum Stop {
    Full,
    Memory,
}

/// The refusals of priocntl(2).
#[derive(Clone, Copy, Debug, PartialEq, Eq)]
pub enum Denied {
    ESRCH,
    EINVAL,
    EPERM,
}

/// What a processor has to do before its next operation: walk on at a lock of a chain of blocked owners
/// (seeking the thread with this key), wake the waiters of a mutex, hand a rwlock over, wake the sleepers
/// of a channel whose keys are below a number, or age the time-sharing threads on its queue from a number on.
#[derive(Clone, Copy)]
pub enum Duty {
    Nothing,
    Walk {
        lock: LockId,
        seek: ThreadId,
        key: i64,
    },
    WakeMutex(LockId),
    GrantWriter(LockId),
    GrantReaders(LockId),
    Rouse(ChanId, i64),
    Age(ThreadId),
}

/// Which numbers of the processors an entry read: those of the running threads, or of the queues.
#[derive(Clone, Copy, PartialEq, Eq)]
pub enum Which {
    Running,
    Queued,
}

/// The numbers that an entry read: an effective priority plus 1, or 0 for none, for each processor
/// that was read, in rising order of processors.
#[derive(Drop)]
pub struct Hints {
    pub which: Which,
    pub numbers: ArrayVec<u8, 64>,
}

/// Where a thread that was made runnable was put: on a processor's queue, or on the real-time queue of its
/// partition, with the processor that was chosen.
#[derive(Clone, Copy)]
pub enum Put {
    Cpu(CpuId),
    RealTime(CpuId),
}

/// The answer of priocntl(2): the new effective priority and where the thread was put, or a refusal.
#[derive(Clone, Copy)]
pub enum PrioAnswer {
    Changed { p: u8, at: Option<Put> },
    Refused(Denied),
}

/// The answer of an assignment of a processor to a set.
#[derive(Clone, Copy, PartialEq, Eq)]
pub enum AssignAnswer {
    Changed,
    EPERM,
    EINVAL,
    EBUSY,
}

/// The answer of a binding of a thread to a processor.
#[derive(Clone, Copy)]
pub enum BindAnswer {
    Changed { at: Option<Put> },
    ESRCH,
    EINVAL,
    EPERM,
    EBUSY,
}

/// An event of the machine. `p` is an effective priority after the event, `t` the acting thread,
/// `u` another thread, `o` an owner, `l` a lock and `k` a channel.
#[derive(Clone, Copy)]
pub enum Event {
    Tick {
        t: ThreadId,
    },
    Spin {
        t: ThreadId,
        l: LockId,
    },
    Idle,
    Dispatch {
        t: ThreadId,
        p: u8,
    },
    Steal {
        victim: CpuId,
        t: ThreadId,
        p: u8,
    },
    Preempt {
        t: ThreadId,
        end: End,
    },
    Yield {
        t: ThreadId,
    },
    Done {
        t: ThreadId,
    },
    Nap {
        t: ThreadId,
    },
    Napend {
        t: ThreadId,
        at: Put,
    },
    Sleep {
        t: ThreadId,
        k: ChanId,
    },
    Wake {
        t: ThreadId,
        k: ChanId,
        woken: Option<(ThreadId, Put)>,
    },
    Wakeall {
        t: ThreadId,
        k: ChanId,
    },
    Rouse {
        k: ChanId,
        woken: Option<(ThreadId, Put)>,
    },
    Enter {
        t: ThreadId,
        l: LockId,
    },
    Read {
        t: ThreadId,
        l: LockId,
    },
    Write {
        t: ThreadId,
        l: LockId,
    },
    Block {
        t: ThreadId,
        l: LockId,
    },
    Will {
        l: LockId,
        o: ThreadId,
        p: u8,
        at: Option<Put>,
    },
    End {
        l: LockId,
    },
    Exit {
        t: ThreadId,
        l: LockId,
    },
    Unblock {
        l: LockId,
        u: ThreadId,
        at: Put,
    },
    Grant {
        l: LockId,
        u: ThreadId,
        at: Put,
    },
    Passed {
        l: LockId,
    },
    Age {
        t: ThreadId,
        p: u8,
    },
    Prio {
        t: ThreadId,
        u: ThreadId,
        answer: PrioAnswer,
    },
    CvWait {
        t: ThreadId,
        k: ChanId,
        l: LockId,
    },
    SemaP {
        t: ThreadId,
        k: ChanId,
    },
    SemaWait {
        t: ThreadId,
        k: ChanId,
    },
    SemaVWake {
        t: ThreadId,
        k: ChanId,
        u: ThreadId,
        at: Put,
    },
    SemaVCount {
        t: ThreadId,
        k: ChanId,
        count: u32,
    },
    Assign {
        t: ThreadId,
        cpu: CpuId,
        set: SetId,
        answer: AssignAnswer,
    },
    Move {
        t: ThreadId,
        at: Put,
    },
    Joined {
        set: SetId,
    },
    Bind {
        t: ThreadId,
        u: ThreadId,
        cpu: Option<CpuId>,
        answer: BindAnswer,
    },
    /// A bound thread that leaves another processor than its own.
    Away {
        t: ThreadId,
        cpu: CpuId,
    },
}

impl Event {
    /// Whether the event takes a tick of its processor: a tick, a spin or an idle tick.
    pub fn ticks(&self) -> bool
        ensures { result ≡ ticks self.now }
    {
        matches!(self, Event::Tick { .. } | Event::Spin { .. } | Event::Idle)
    }
}

/// An entry of the journal: the event that a processor made, its number from 0, and the numbers that it read,
/// where it read any.
#[derive(Drop)]
pub struct Entry {
    pub number: u64,
    pub cpu: CpuId,
    pub event: Event,
    pub hints: Option<Hints>,
}
