//! Locks, and the walk by which a waiter's priority passes to the owner.
//!
//! Source: Solaris Internals (adaptive mutexes, rwlocks, turnstiles, priority inheritance).

ghost use Rattle.std.specs.Prelude.{◌≡◌, ◌++◌, [], None, OnOk, codes};
ghost use Rattle.sd_state.specs.States.{eff_of};
ghost use Rattle.sd_machine.specs.Bodies.{eff_as_with};
ghost use Rattle.sd_machine.specs.Threads.{lock_of};
ghost use Rattle.sd_story.specs.Locks.{block_sentence, block_words, end_sentence, end_words, enter_sentence, exit_sentence, fall_words, grant_sentence, left_priority, passed_sentence, read_sentence, unblock_sentence, waiters_words, waiting_with, will_sentence, write_sentence};
ghost use Rattle.sd_story.specs.Words.{change_words, number_then, thread_then};

use crate::scene::Scene;
use crate::words::{
    put_change, put_cpu, put_lock, put_priority, put_requeued, put_runnable, put_thread, put_words,
};
use sd_flat::{greater, greatest_without};
use sd_state::LockState;
use sd_types::{CpuId, LockId, Put, ThreadBody, ThreadId, Work};
use std::alloc::AllocError;

/// The effective priority of a thread; of a number that is out of range that of a thread that has ended.
pub(crate) fn effective<S: Scene>(s: &S, t: ThreadId) -> u8
    requires good { S.good s.now }
    ensures { result ≡ eff_of (S.state s.now) t.0 }
{
    match s.body(t) {
        Some(body) => body.effective(),
        None => 60,
    }
}

pub(crate) fn put_enter(
    work: &Work,
    t: ThreadId,
    l: LockId,
    out: &mut Vec<u8>,
) -> Result<(), AllocError>
    ensures { OnOk result (out.new.items ≡ out.old.items ++ enter_sentence work.now t l) }
{
    put_thread(work, t, b" takes the mutex ", out)?;
    put_lock(work, l, b"", out)
}

pub(crate) fn put_read(
    work: &Work,
    t: ThreadId,
    l: LockId,
    out: &mut Vec<u8>,
) -> Result<(), AllocError>
    ensures { OnOk result (out.new.items ≡ out.old.items ++ read_sentence work.now t l) }
{
    put_thread(work, t, b" takes ", out)?;
    put_lock(work, l, b" to read", out)
}

pub(crate) fn put_write(
    work: &Work,
    t: ThreadId,
    l: LockId,
    out: &mut Vec<u8>,
) -> Result<(), AllocError>
    ensures { OnOk result (out.new.items ≡ out.old.items ++ write_sentence work.now t l) }
{
    put_thread(work, t, b" takes ", out)?;
    put_lock(work, l, b" to write", out)
}

// The greatest priority that will wait for the lock with a thread.
fn waiting_with<S: Scene>(s: &S, t: ThreadId, l: LockId) -> u8
    requires good { S.good s.now }
    ensures { result ≡ waiting_with (S.state s.now) t l }
{
    greater(effective(s, t), s.greatest(l))
}

fn put_owner(work: &Work, o: ThreadId, p: u8, out: &mut Vec<u8>) -> Result<(), AllocError>
    ensures { OnOk result (out.new.items ≡ out.old.items ++ (codes ", which " ++ thread_then work.now o (codes " owns: it is to inherit ") ++ number_then p [])) }
{
    put_words(b", which ", out)?;
    put_thread(work, o, b" owns: it is to inherit ", out)?;
    put_priority(p, b"", out)
}

fn put_block_words(work: &Work, p: u8, lock: LockState, out: &mut Vec<u8>) -> Result<(), AllocError>
    ensures { OnOk result (out.new.items ≡ out.old.items ++ block_words work.now p lock) }
{
    match lock {
        LockState::Owned(o) => put_owner(work, o, p, out),
        LockState::ReadHeld(_) => put_words(b", which readers hold", out),
        _ => Ok(()),
    }
}

// Who holds a lock for which a thread blocks.
fn put_holder<S: Scene>(
    work: &Work,
    s: &S,
    t: ThreadId,
    l: LockId,
    out: &mut Vec<u8>,
) -> Result<(), AllocError>
    requires good { S.good s.now }
    ensures { OnOk result (out.new.items ≡ out.old.items ++ block_words work.now (waiting_with (S.state s.now) t l) (lock_of (S.state s.now) l.0)) }
{
    put_block_words(work, waiting_with(s, t, l), s.lock(l), out)
}

pub(crate) fn put_block<S: Scene>(
    work: &Work,
    s: &S,
    t: ThreadId,
    l: LockId,
    out: &mut Vec<u8>,
) -> Result<(), AllocError>
    requires good { S.good s.now }
    ensures { OnOk result (out.new.items ≡ out.old.items ++ block_sentence work.now (S.state s.now) t l) }
{
    put_thread(work, t, b" blocks on ", out)?;
    put_lock(work, l, b"", out)?;
    put_holder(work, s, t, l, out)
}

/// How the priority of a thread changes to another.
pub(crate) fn put_change_of<S: Scene>(
    s: &S,
    t: ThreadId,
    p: u8,
    out: &mut Vec<u8>,
) -> Result<(), AllocError>
    requires good { S.good s.now }
    ensures { OnOk result (out.new.items ≡ out.old.items ++ change_words (eff_of (S.state s.now) t.0) p) }
{
    put_change(effective(s, t), p, out)
}

pub(crate) fn put_will<S: Scene>(
    work: &Work,
    s: &S,
    l: LockId,
    o: ThreadId,
    p: u8,
    at: Option<Put>,
    out: &mut Vec<u8>,
) -> Result<(), AllocError>
    requires good { S.good s.now }
    ensures { OnOk result (out.new.items ≡ out.old.items ++ will_sentence work.now (S.state s.now) l o p at) }
{
    put_thread(work, o, b" inherits through ", out)?;
    put_lock(work, l, b": its priority ", out)?;
    put_change_of(s, o, p, out)?;
    put_requeued(at, out)
}

fn end_words(lock: LockState) -> &'static [u8]
    ensures { result.now ≡ end_words lock }
{
    match lock {
        LockState::Free => b", which is free",
        LockState::Owned(_) => b"",
        LockState::ReadHeld(_) => b", which readers hold",
        LockState::Passing { .. } => b", which is being handed over",
    }
}

// Why a walk ends at a lock.
fn put_end_words<S: Scene>(s: &S, l: LockId, out: &mut Vec<u8>) -> Result<(), AllocError>
    requires good { S.good s.now }
    ensures { OnOk result (out.new.items ≡ out.old.items ++ end_words (lock_of (S.state s.now) l.0)) }
{
    put_words(end_words(s.lock(l)), out)
}

pub(crate) fn put_end<S: Scene>(
    work: &Work,
    s: &S,
    l: LockId,
    out: &mut Vec<u8>,
) -> Result<(), AllocError>
    requires good { S.good s.now }
    ensures { OnOk result (out.new.items ≡ out.old.items ++ end_sentence work.now (S.state s.now) l) }
{
    put_words(b"the walk ends at ", out)?;
    put_lock(work, l, b"", out)?;
    put_end_words(s, l, out)
}

// The effective priority of a body without what it inherits through a lock.
fn left_of(body: &ThreadBody, l: LockId) -> u8
    ensures { result ≡ eff_as_with body.now.class l None body.now }
{
    greatest_without(body.class.base(), l, body.willed.as_slice())
}

// The same of a thread.
fn left_priority<S: Scene>(s: &S, t: ThreadId, l: LockId) -> u8
    requires good { S.good s.now }
    ensures { result ≡ left_priority (S.state s.now) t l }
{
    match s.body(t) {
        Some(body) => left_of(body, l),
        None => 60,
    }
}

fn put_fall_from(before: u8, after: u8, out: &mut Vec<u8>) -> Result<(), AllocError>
    ensures { OnOk result (out.new.items ≡ out.old.items ++ (codes "; its priority " ++ change_words before after)) }
{
    put_words(b"; its priority ", out)?;
    put_change(before, after, out)
}

#[tactic(auto, unfolding(crate::specs::Locks::fall_words))]
fn put_fall(before: u8, after: u8, out: &mut Vec<u8>) -> Result<(), AllocError>
    ensures { OnOk result (out.new.items ≡ out.old.items ++ fall_words before after) }
{
    if after < before {
        put_fall_from(before, after, out)
    } else {
        Ok(())
    }
}

#[tactic(auto, unfolding(crate::specs::Locks::waiters_words))]
fn waiters_words<S: Scene>(s: &S, l: LockId) -> &'static [u8]
    requires good { S.good s.now }
    ensures { result.now ≡ waiters_words (S.state s.now) l }
{
    if s.waits(l) {
        b", for which others wait"
    } else {
        b", for which nobody waits"
    }
}

fn put_waiters_words<S: Scene>(s: &S, l: LockId, out: &mut Vec<u8>) -> Result<(), AllocError>
    requires good { S.good s.now }
    ensures { OnOk result (out.new.items ≡ out.old.items ++ waiters_words (S.state s.now) l) }
{
    put_words(waiters_words(s, l), out)
}

// What a thread loses that it inherited through a lock.
fn put_fall_of<S: Scene>(s: &S, t: ThreadId, l: LockId, out: &mut Vec<u8>) -> Result<(), AllocError>
    requires good { S.good s.now }
    ensures { OnOk result (out.new.items ≡ out.old.items ++ fall_words (eff_of (S.state s.now) t.0) (left_priority (S.state s.now) t l)) }
{
    put_fall(effective(s, t), left_priority(s, t, l), out)
}

pub(crate) fn put_exit<S: Scene>(
    work: &Work,
    s: &S,
    t: ThreadId,
    l: LockId,
    out: &mut Vec<u8>,
) -> Result<(), AllocError>
    requires good { S.good s.now }
    ensures { OnOk result (out.new.items ≡ out.old.items ++ exit_sentence work.now (S.state s.now) t l) }
{
    put_thread(work, t, b" gives up ", out)?;
    put_lock(work, l, b"", out)?;
    put_waiters_words(s, l, out)?;
    put_fall_of(s, t, l, out)
}

pub(crate) fn put_unblock(
    work: &Work,
    c: CpuId,
    l: LockId,
    u: ThreadId,
    at: Put,
    out: &mut Vec<u8>,
) -> Result<(), AllocError>
    ensures { OnOk result (out.new.items ≡ out.old.items ++ unblock_sentence work.now c l u at) }
{
    put_cpu(c, b" wakes the best that waits for ", out)?;
    put_lock(work, l, b": ", out)?;
    put_runnable(work, u, at, out)
}

pub(crate) fn put_grant(
    work: &Work,
    c: CpuId,
    l: LockId,
    u: ThreadId,
    at: Put,
    out: &mut Vec<u8>,
) -> Result<(), AllocError>
    ensures { OnOk result (out.new.items ≡ out.old.items ++ grant_sentence work.now c l u at) }
{
    put_cpu(c, b" hands ", out)?;
    put_lock(work, l, b" over: ", out)?;
    put_runnable(work, u, at, out)
}

pub(crate) fn put_passed(work: &Work, l: LockId, out: &mut Vec<u8>) -> Result<(), AllocError>
    ensures { OnOk result (out.new.items ≡ out.old.items ++ passed_sentence work.now l) }
{
    put_words(b"no reader is left to whom ", out)?;
    put_lock(work, l, b" is to be handed", out)
}
