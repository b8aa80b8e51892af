//! The state of the machine as plain data.
//!
//! Source: Solaris Internals (`kthread_t`, `cpu_t`, dispatch queues, turnstiles, sleep queues).

use arrayvec::ArrayVec;
use sd_types::{ChanId, CpuId, Duty, List, LockId, SetId, Side, ThreadBody, ThreadId};

/// Where a thread is. A number of type `i64` is its key: of two threads of the same effective priority in one
/// queue the one with the smaller key is better. A napper is due when its processor has counted that many ticks.
#[derive(Clone, Copy)]
pub enum Place {
    Running(CpuId),
    Queued(CpuId, i64),
    RealTime(SetId, i64),
    Waiting(LockId, Side, i64),
    Asleep(ChanId, i64),
    Napping(CpuId, u32),
    Ended,
}

/// A lock: free, owned by a holder of a mutex or by a writer, held by readers,
/// or on its way from a processor that released it to the waiters.
#[derive(Clone, Copy)]
pub enum LockState {
    Free,
    Owned(ThreadId),
    ReadHeld(u16),
    Passing { cpu: CpuId, readers: u16 },
}

#[derive(Drop)]
pub struct ThreadState {
    pub body: ThreadBody,
    pub place: Place,
}

/// A processor: its count of ticks, its user and kernel mark, its duty, its set, the set that it is closing to,
/// and the number of threads that are bound to it.
#[derive(Clone, Copy)]
pub struct CpuState {
    pub count: u32,
    pub user: bool,
    pub kernel: bool,
    pub duty: Duty,
    pub set: SetId,
    pub closing: Option<SetId>,
    pub bound: u16,
}

/// A state of the machine: its threads, locks and processors in the order of their numbers, the count of each
/// channel (of a semaphore; 0 for another), and the open processors of each set, in rising order.
#[derive(Drop)]
pub struct State {
    pub threads: List<ThreadState>,
    pub locks: List<LockState>,
    pub cpus: List<CpuState>,
    pub counts: List<u32>,
    pub open_cpus: List<ArrayVec<CpuId, 64>>,
}
