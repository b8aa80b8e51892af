//! Threads that run, spin, are dispatched and leave their processor.
//!
//! Source: Solaris Internals (dispatch queues, preemption, adaptive mutexes).

ghost use Rattle.std.specs.Prelude.{◌≡◌, ◌++◌, OnOk, codes};
ghost use Rattle.sd_state.specs.States.{thread_of};
ghost use Rattle.sd_machine.specs.Threads.{lock_of};
ghost use Rattle.sd_story.specs.Running.{away_sentence, dispatch_sentence, idle_sentence, preempt_sentence, quantum_words, spin_sentence, spin_words, steal_sentence, tick_sentence};
ghost use Rattle.sd_story.specs.Words.{thread_then};

use crate::scene::Scene;
use crate::words::{put_cpu, put_lock, put_priority, put_thread, put_words};
use sd_class::class_expires;
use sd_state::LockState;
use sd_types::{ClassState, CpuId, End, LockId, ThreadId, Work};
use std::alloc::AllocError;

fn quantum_words(class: &ClassState) -> &'static [u8]
    ensures { result.now ≡ quantum_words class.now }
{
    if class_expires(class) {
        b", the last of its quantum"
    } else {
        b""
    }
}

// Whether the next tick of a thread is the last of its quantum.
fn quantum_words_of<S: Scene>(s: &S, t: ThreadId) -> &'static [u8]
    requires good { S.good s.now }
    ensures { result.now ≡ quantum_words (thread_of (S.state s.now) t.0).body.class }
{
    match s.body(t) {
        Some(body) => quantum_words(&body.class),
        None => b"",
    }
}

fn put_quantum_words<S: Scene>(s: &S, t: ThreadId, out: &mut Vec<u8>) -> Result<(), AllocError>
    requires good { S.good s.now }
    ensures { OnOk result (out.new.items ≡ out.old.items ++ quantum_words (thread_of (S.state s.now) t.0).body.class) }
{
    put_words(quantum_words_of(s, t), out)
}

pub(crate) fn put_tick<S: Scene>(
    work: &Work,
    s: &S,
    t: ThreadId,
    out: &mut Vec<u8>,
) -> Result<(), AllocError>
    requires good { S.good s.now }
    ensures { OnOk result (out.new.items ≡ out.old.items ++ tick_sentence work.now (S.state s.now) t) }
{
    put_thread(work, t, b" runs for a tick", out)?;
    put_quantum_words(s, t, out)
}

fn put_owner_runs(work: &Work, o: ThreadId, out: &mut Vec<u8>) -> Result<(), AllocError>
    ensures { OnOk result (out.new.items ≡ out.old.items ++ (codes ": its owner " ++ thread_then work.now o (codes " runs"))) }
{
    put_words(b": its owner ", out)?;
    put_thread(work, o, b" runs", out)
}

fn put_spin_words(work: &Work, lock: LockState, out: &mut Vec<u8>) -> Result<(), AllocError>
    ensures { OnOk result (out.new.items ≡ out.old.items ++ spin_words work.now lock) }
{
    match lock {
        LockState::Owned(o) => put_owner_runs(work, o, out),
        LockState::Passing { .. } => put_words(b", which is being handed over", out),
        _ => Ok(()),
    }
}

// Why a thread spins for a lock.
fn put_reason<S: Scene>(work: &Work, s: &S, l: LockId, out: &mut Vec<u8>) -> Result<(), AllocError>
    requires good { S.good s.now }
    ensures { OnOk result (out.new.items ≡ out.old.items ++ spin_words work.now (lock_of (S.state s.now) l.0)) }
{
    put_spin_words(work, s.lock(l), out)
}

pub(crate) fn put_spin<S: Scene>(
    work: &Work,
    s: &S,
    t: ThreadId,
    l: LockId,
    out: &mut Vec<u8>,
) -> Result<(), AllocError>
    requires good { S.good s.now }
    ensures { OnOk result (out.new.items ≡ out.old.items ++ spin_sentence work.now (S.state s.now) t l) }
{
    put_thread(work, t, b" spins for ", out)?;
    put_lock(work, l, b"", out)?;
    put_reason(work, s, l, out)
}

pub(crate) fn put_idle(c: CpuId, out: &mut Vec<u8>) -> Result<(), AllocError>
    ensures { OnOk result (out.new.items ≡ out.old.items ++ idle_sentence c) }
{
    put_cpu(c, b" has nothing to run", out)
}

pub(crate) fn put_dispatch(
    work: &Work,
    c: CpuId,
    t: ThreadId,
    p: u8,
    out: &mut Vec<u8>,
) -> Result<(), AllocError>
    ensures { OnOk result (out.new.items ≡ out.old.items ++ dispatch_sentence work.now c t p) }
{
    put_cpu(c, b" dispatches ", out)?;
    put_thread(work, t, b" at priority ", out)?;
    put_priority(p, b"", out)
}

pub(crate) fn put_steal(
    work: &Work,
    c: CpuId,
    victim: CpuId,
    t: ThreadId,
    p: u8,
    out: &mut Vec<u8>,
) -> Result<(), AllocError>
    ensures { OnOk result (out.new.items ≡ out.old.items ++ steal_sentence work.now c victim t p) }
{
    put_cpu(c, b" steals ", out)?;
    put_thread(work, t, b" at priority ", out)?;
    put_priority(p, b" from the queue of ", out)?;
    put_cpu(victim, b"", out)
}

pub(crate) fn put_preempt(
    work: &Work,
    t: ThreadId,
    end: End,
    out: &mut Vec<u8>,
) -> Result<(), AllocError>
    ensures { OnOk result (out.new.items ≡ out.old.items ++ preempt_sentence work.now t end) }
{
    match end {
        End::Front => put_thread(
            work,
            t,
            b" is preempted, and goes to the front of its queue",
            out,
        ),
        End::Back => put_thread(
            work,
            t,
            b" is preempted at the end of its quantum, and goes to the back of its queue",
            out,
        ),
    }
}

pub(crate) fn put_away(
    work: &Work,
    t: ThreadId,
    cpu: CpuId,
    out: &mut Vec<u8>,
) -> Result<(), AllocError>
    ensures { OnOk result (out.new.items ≡ out.old.items ++ away_sentence work.now t cpu) }
{
    put_thread(work, t, b" leaves for ", out)?;
    put_cpu(cpu, b", to which it is bound", out)
}
