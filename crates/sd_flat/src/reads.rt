//! Reading a state and a workload. A number that is out of range reads an idle processor, and no operation.

ghost use Rattle.std.specs.Prelude.{◌≡◌, ◌≤◌, length, nat_lt};
ghost use Rattle.sd_state.specs.Operations.{script_of};
ghost use Rattle.sd_state.specs.States.{cpu_of, thread_of};
ghost use Rattle.sd_types.specs.Limits.{most_operations};

use sd_state::{CpuState, Place, State};
use sd_types::{CpuId, Duty, Op, SetId, ThreadId, Work};

const NO_CPU: CpuState = CpuState {
    count: 0,
    user: false,
    kernel: false,
    duty: Duty::Nothing,
    set: SetId(0),
    closing: None,
    bound: 0,
};

/// A processor.
pub fn cpu_of(s: &State, c: CpuId) -> CpuState
    ensures { result ≡ cpu_of s.now c.0 }
{
    s.cpus.items().get(c.0 as usize).copied().unwrap_or(NO_CPU)
}

pub(crate) fn is_cpu(s: &State, c: CpuId) -> bool
    ensures { result ≡ nat_lt c.0 (length s.now.cpus) }
{
    (c.0 as usize) < s.cpus.items().len()
}

/// There is a thread of this number.
pub fn is_thread(s: &State, t: ThreadId) -> bool
    ensures { result ≡ nat_lt t.0 (length s.now.threads) }
{
    (t.0 as usize) < s.threads.items().len()
}

/// The operations of a thread.
pub fn script_of(work: &Work, t: ThreadId) -> &[Op]
    ensures value { result.now ≡ script_of work.now t.0 }
    ensures short { length result.now ≤ most_operations }
{
    match work.threads.items().get(t.0 as usize) {
        Some(decl) => decl.script.ops(),
        None => &[],
    }
}

/// Where a thread is.
pub fn place_of(s: &State, t: ThreadId) -> Place
    ensures { result ≡ (thread_of s.now t.0).place }
{
    match s.threads.items().get(t.0 as usize) {
        Some(x) => x.place,
        None => Place::Ended,
    }
}

/// A walk along a chain of owners has come back to thread `t`.
pub fn is_looped(s: &State, t: ThreadId) -> bool
    ensures { result ≡ (thread_of s.now t.0).body.looped }
{
    match s.threads.items().get(t.0 as usize) {
        Some(x) => x.body.looped,
        None => false,
    }
}
