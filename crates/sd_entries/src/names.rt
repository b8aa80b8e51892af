//! The names that a workload declares, as the journal writes them. A number that names nothing has no name.

ghost use Rattle.std.specs.Prelude.{◌≡◌, ◌≤◌, ◌++◌, length, OnOk, OnErr};
ghost use Rattle.sd_state.specs.Texts.{chan_name, lock_name, thread_name};
ghost use Rattle.sd_machine.specs.Texts.{set_name};

use sd_types::{ChanId, LockId, SetId, Work};
use std::alloc::AllocError;

/// The name of thread `t`.
pub(crate) fn thread_name(work: &Work, t: usize) -> &[u8]
    ensures name { result.now ≡ thread_name work.now t }
    ensures short { length result.now ≤ 16 }
{
    match work.threads.items().get(t) {
        Some(thread) => thread.name.text.as_slice(),
        None => &[],
    }
}

/// The name of a lock.
pub(crate) fn lock_name(work: &Work, l: LockId) -> &[u8]
    ensures name { result.now ≡ lock_name work.now l.0 }
    ensures short { length result.now ≤ 16 }
{
    match work.locks.items().get(l.0 as usize) {
        Some(lock) => lock.0.text.as_slice(),
        None => &[],
    }
}

/// The name of a channel.
pub(crate) fn chan_name(work: &Work, k: ChanId) -> &[u8]
    ensures name { result.now ≡ chan_name work.now k.0 }
    ensures short { length result.now ≤ 16 }
{
    match work.chans.items().get(k.0 as usize) {
        Some(chan) => chan.0.text.as_slice(),
        None => &[],
    }
}

/// The name of a set, `-` for the default partition.
#[tactic(auto, using(crate::proofs::TextLemmas::set_name_past))]
pub(crate) fn set_name(work: &Work, p: SetId) -> &[u8]
    ensures name { result.now ≡ set_name work.now p.0 }
    ensures short { length result.now ≤ 16 }
{
    if p.0 == 0 {
        return b"-";
    }
    match work.sets.items().get(p.0 as usize - 1) {
        Some(set) => set.0.text.as_slice(),
        None => &[],
    }
}

/// Appends the name of thread `t`. Where memory runs out, `out` is as it was.
pub fn put_thread_name(work: &Work, t: usize, out: &mut Vec<u8>) -> Result<(), AllocError>
    ensures ok { OnOk result (out.new.items ≡ out.old.items ++ thread_name work.now t) }
    ensures err { OnErr result (out.new.items ≡ out.old.items) }
{
    out.extend_from_slice(thread_name(work, t))
}

/// Appends the name of a lock. Where memory runs out, `out` is as it was.
pub fn put_lock_name(work: &Work, l: LockId, out: &mut Vec<u8>) -> Result<(), AllocError>
    ensures ok { OnOk result (out.new.items ≡ out.old.items ++ lock_name work.now l.0) }
    ensures err { OnErr result (out.new.items ≡ out.old.items) }
{
    out.extend_from_slice(lock_name(work, l))
}

/// Appends the name of a channel. Where memory runs out, `out` is as it was.
pub fn put_chan_name(work: &Work, k: ChanId, out: &mut Vec<u8>) -> Result<(), AllocError>
    ensures ok { OnOk result (out.new.items ≡ out.old.items ++ chan_name work.now k.0) }
    ensures err { OnErr result (out.new.items ≡ out.old.items) }
{
    out.extend_from_slice(chan_name(work, k))
}

/// Appends the name of a set, `-` for the default partition. Where memory runs out, `out` is as it was.
pub fn put_set_name(work: &Work, p: SetId, out: &mut Vec<u8>) -> Result<(), AllocError>
    ensures ok { OnOk result (out.new.items ≡ out.old.items ++ set_name work.now p.0) }
    ensures err { OnErr result (out.new.items ≡ out.old.items) }
{
    out.extend_from_slice(set_name(work, p))
}
