//! What moves with a thread from one queue to the next.

use crate::{ClassState, CpuId, LockId};
use arrayvec::ArrayVec;

/// A thread without its place. `willed` are the priorities (0 to 159) that it inherits from the waiters of
/// the locks that it owns, at most one for each lock; `held` are the locks that it holds, in the order in which it took
/// them; `op` is the number of its operation, from 0; `run_left` are the ticks that a `run` operation has left;
/// `back` says that its quantum has expired; `last` is the processor on which it ran last, and `left_at` that
/// processor's count of ticks when it left it; `looped` says that a walk along a chain of owners ended at it;
/// `bound` is the processor to which it is bound.
///
/// Source: Solaris Internals (`kthread_t`, turnstiles).
#[derive(Drop)]
pub struct ThreadBody {
    pub class: ClassState,
    pub willed: ArrayVec<(LockId, u8), 8>,
    pub held: ArrayVec<LockId, 8>,
    pub op: u16,
    pub run_left: u32,
    pub back: bool,
    pub last: CpuId,
    pub left_at: Option<u32>,
    pub looped: bool,
    pub bound: Option<CpuId>,
}
