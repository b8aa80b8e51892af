//! The names that a workload declares, by their numbers. A number that names nothing has no name.

ghost use Rattle.std.specs.Prelude.{◌≡◌, ◌≤◌, length};
ghost use Rattle.sd_machine.specs.Texts.{set_name};
ghost use Rattle.sd_state.specs.Texts.{chan_name, lock_name, thread_name};
ghost use Rattle.sd_types.specs.Limits.{most_name_bytes};

use arrayvec::ArrayVec;
use sd_types::{ChanId, LockId, SetId, Work};

/// The name of thread `t`.
pub fn thread_name(work: &Work, t: usize) -> &[u8]
    ensures { result.now ≡ thread_name work.now t }
{
    match work.threads.items().get(t) {
        Some(thread) => thread.name.bytes(),
        None => b"",
    }
}

/// The name of a lock.
pub fn lock_name(work: &Work, l: LockId) -> &[u8]
    ensures { result.now ≡ lock_name work.now l.0 }
{
    match work.locks.items().get(l.0 as usize) {
        Some(lock) => lock.0.bytes(),
        None => b"",
    }
}

/// The name of a channel.
pub fn chan_name(work: &Work, k: ChanId) -> &[u8]
    ensures { result.now ≡ chan_name work.now k.0 }
{
    match work.chans.items().get(k.0 as usize) {
        Some(chan) => chan.0.bytes(),
        None => b"",
    }
}

/// The name of a processor set, and `-` for the default partition, which has none.
pub fn set_name(work: &Work, p: SetId) -> &[u8]
    ensures { result.now ≡ set_name work.now p.0 }
{
    if p.0 == 0 {
        return b"-";
    }
    match work.sets.items().get(p.0 as usize - 1) {
        Some(set) => set.0.bytes(),
        None => b"",
    }
}

/// A name that is asked for, where it is no longer than those that a workload declares.
pub fn short_name(name: &[u8]) -> ArrayVec<u8, 16>
    requires { length name.now ≤ most_name_bytes }
    ensures { result.items ≡ name.now }
{
    let mut short = ArrayVec::new();
    let _ = short.try_extend_from_slice(name);
    short
}
