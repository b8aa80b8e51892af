//! Scripts: the operations that a thread performs, one after another.

ghost use Rattle.std.specs.Prelude.{◌≡◌, ◌≤◌, length};
ghost use Rattle.sd_types.specs.Limits.{most_operations};
ghost use Rattle.sd_types.specs.Scripts.{EachOpFits, held_by, without_lock};

use crate::{ChanId, Class, CpuId, List, LockId, Quantum, SetId, ThreadId};
use arrayvec::ArrayVec;

/// A request of priocntl(2), before it is judged. `limit` is 0 for RT and SYS, `quantum` is `Def` for TS and SYS.
#[derive(Clone, Copy)]
pub struct Request {
    pub class: Class,
    pub limit: i32,
    pub pri: i32,
    pub quantum: Quantum,
}

/// An operation. `Run` and `Nap` are in ticks, 1 to 100,000. `CvWait` releases the mutex and sleeps in one step,
/// and the operation after it enters the mutex again.
#[derive(Clone, Copy)]
pub enum Op {
    Run(u32),
    Yield,
    Nap(u32),
    Sleep(ChanId),
    Wake(ChanId),
    WakeAll(ChanId),
    Enter(LockId),
    Read(LockId),
    Write(LockId),
    Exit(LockId),
    Prio(ThreadId, Request),
    CvWait(ChanId, LockId),
    SemaP(ChanId),
    SemaV(ChanId),
    Assign(CpuId, SetId),
    Pbind(ThreadId, Option<CpuId>),
}

/// A well-formed script: each lock is released that was taken, none is taken twice, at most eight are held,
/// none is held at the end, and there are at most 256 operations.
#[derive(Drop)]
pub struct Script {
    pub ops: List<Op>,
    ghost each_fits: { EachOpFits ops },
    ghost released: { length (held_by ops) ≡ 0 },
    ghost short: { length ops ≤ most_operations },
}

impl Script {
    pub fn from_ops(ops: List<Op>) -> Script
        requires each_fits { EachOpFits ops }
        requires released { length (held_by ops) ≡ 0 }
        requires short { length ops ≤ most_operations }
        ensures { result.ops ≡ ops }
    {
        Script { ops }
    }

    pub fn ops(&self) -> &[Op]
        ensures { result.now ≡ self.now.ops }
    {
        self.ops.items()
    }
}

/// The locks without this one, in their order.
pub fn without_lock(l: LockId, held: &ArrayVec<LockId, 8>) -> ArrayVec<LockId, 8>
    ensures { result.items ≡ without_lock l held.now.items }
{
    let mut rest = ArrayVec::new();
    for lock in held.as_slice() {
        if l.0 != lock.0 {
            rest.push(*lock);
        }
    }
    rest
}
