//! Naps, sleep and wakeups.
//!
//! Source: Solaris Internals (sleep queues, condition variables, semaphores).

ghost use Rattle.std.specs.Prelude.{◌≡◌, ◌++◌, ◌-◌, [], OnOk, codes};
ghost use Rattle.sd_machine.specs.Sleeping.{nap_ticks};
ghost use Rattle.sd_machine.specs.Threads.{count_of};
ghost use Rattle.sd_state.specs.Operations.{op_of};
ghost use Rattle.sd_state.specs.States.{thread_of};
ghost use Rattle.sd_story.specs.Sleeping.{counted_sentence, cvwait_sentence, handed_sentence, nap_end, nap_sentence, napend_sentence, rouse_sentence, semap_sentence, semawait_sentence, sleep_sentence, wake_sentence, wakeall_sentence};
ghost use Rattle.sd_story.specs.Words.{chan_then, cpu_then, number_then, runnable_words, thread_then};

use crate::scene::Scene;
use crate::words::{put_chan, put_count, put_cpu, put_lock, put_runnable, put_thread, put_words};
use sd_flat::{nap_ticks, script_of};
use sd_types::{ChanId, CpuId, LockId, Put, ThreadId, Work};
use std::alloc::AllocError;

// The number of the operation at which a thread stands.
fn operation_number<S: Scene>(s: &S, t: ThreadId) -> u16
    requires good { S.good s.now }
    ensures { result ≡ (thread_of (S.state s.now) t.0).body.op }
{
    match s.body(t) {
        Some(body) => body.op,
        None => 0,
    }
}

// The ticks of the nap at which a thread stands.
fn own_nap_ticks<S: Scene>(work: &Work, s: &S, t: ThreadId) -> u32
    requires good { S.good s.now }
    ensures { result ≡ nap_ticks (op_of work.now t.0 (thread_of (S.state s.now) t.0).body) }
{
    let op = script_of(work, t).get(operation_number(s, t) as usize);
    nap_ticks(op.copied())
}

fn nap_end<S: Scene>(work: &Work, s: &S, c: CpuId, t: ThreadId) -> u64
    requires good { S.good s.now }
    ensures { result ≡ nap_end work.now (S.state s.now) c t }
{
    u64::from(s.ticks(c)) + u64::from(own_nap_ticks(work, s, t))
}

fn put_nap_end<S: Scene>(
    work: &Work,
    s: &S,
    c: CpuId,
    t: ThreadId,
    out: &mut Vec<u8>,
) -> Result<(), AllocError>
    requires good { S.good s.now }
    ensures { OnOk result (out.new.items ≡ out.old.items ++ number_then (nap_end work.now (S.state s.now) c t) []) }
{
    put_count(nap_end(work, s, c, t), b"", out)
}

pub(crate) fn put_nap<S: Scene>(
    work: &Work,
    s: &S,
    c: CpuId,
    t: ThreadId,
    out: &mut Vec<u8>,
) -> Result<(), AllocError>
    requires good { S.good s.now }
    ensures { OnOk result (out.new.items ≡ out.old.items ++ nap_sentence work.now (S.state s.now) c t) }
{
    put_thread(work, t, b" naps until tick ", out)?;
    put_nap_end(work, s, c, t, out)
}

pub(crate) fn put_napend(
    work: &Work,
    t: ThreadId,
    at: Put,
    out: &mut Vec<u8>,
) -> Result<(), AllocError>
    ensures { OnOk result (out.new.items ≡ out.old.items ++ napend_sentence work.now t at) }
{
    put_words(b"a nap is over: ", out)?;
    put_runnable(work, t, at, out)
}

pub(crate) fn put_sleep(
    work: &Work,
    t: ThreadId,
    k: ChanId,
    out: &mut Vec<u8>,
) -> Result<(), AllocError>
    ensures { OnOk result (out.new.items ≡ out.old.items ++ sleep_sentence work.now t k) }
{
    put_thread(work, t, b" sleeps on ", out)?;
    put_chan(work, k, b"", out)
}

fn put_lost(work: &Work, t: ThreadId, k: ChanId, out: &mut Vec<u8>) -> Result<(), AllocError>
    ensures { OnOk result (out.new.items ≡ out.old.items ++ (thread_then work.now t (codes " finds nobody asleep on ") ++ chan_then work.now k (codes ": the wakeup is lost"))) }
{
    put_thread(work, t, b" finds nobody asleep on ", out)?;
    put_chan(work, k, b": the wakeup is lost", out)
}

fn put_woken(
    work: &Work,
    t: ThreadId,
    k: ChanId,
    u: ThreadId,
    at: Put,
    out: &mut Vec<u8>,
) -> Result<(), AllocError>
    ensures { OnOk result (out.new.items ≡ out.old.items ++ (thread_then work.now t (codes " wakes the best that sleeps on ") ++ chan_then work.now k (codes ": ") ++ runnable_words work.now u at)) }
{
    put_thread(work, t, b" wakes the best that sleeps on ", out)?;
    put_chan(work, k, b": ", out)?;
    put_runnable(work, u, at, out)
}

pub(crate) fn put_wake(
    work: &Work,
    t: ThreadId,
    k: ChanId,
    woken: Option<(ThreadId, Put)>,
    out: &mut Vec<u8>,
) -> Result<(), AllocError>
    ensures { OnOk result (out.new.items ≡ out.old.items ++ wake_sentence work.now t k woken) }
{
    match woken {
        None => put_lost(work, t, k, out),
        Some((u, at)) => put_woken(work, t, k, u, at, out),
    }
}

pub(crate) fn put_wakeall(
    work: &Work,
    c: CpuId,
    t: ThreadId,
    k: ChanId,
    out: &mut Vec<u8>,
) -> Result<(), AllocError>
    ensures { OnOk result (out.new.items ≡ out.old.items ++ wakeall_sentence work.now c t k) }
{
    put_thread(work, t, b" wakes all that sleep on ", out)?;
    put_chan(work, k, b": ", out)?;
    put_cpu(c, b" is to rouse them one by one", out)
}

fn put_none_left(work: &Work, c: CpuId, k: ChanId, out: &mut Vec<u8>) -> Result<(), AllocError>
    ensures { OnOk result (out.new.items ≡ out.old.items ++ (cpu_then c (codes " finds nobody left to rouse on ") ++ chan_then work.now k [])) }
{
    put_cpu(c, b" finds nobody left to rouse on ", out)?;
    put_chan(work, k, b"", out)
}

fn put_roused(
    work: &Work,
    c: CpuId,
    k: ChanId,
    u: ThreadId,
    at: Put,
    out: &mut Vec<u8>,
) -> Result<(), AllocError>
    ensures { OnOk result (out.new.items ≡ out.old.items ++ (cpu_then c (codes " rouses the best that sleeps on ") ++ chan_then work.now k (codes ": ") ++ runnable_words work.now u at)) }
{
    put_cpu(c, b" rouses the best that sleeps on ", out)?;
    put_chan(work, k, b": ", out)?;
    put_runnable(work, u, at, out)
}

pub(crate) fn put_rouse(
    work: &Work,
    c: CpuId,
    k: ChanId,
    woken: Option<(ThreadId, Put)>,
    out: &mut Vec<u8>,
) -> Result<(), AllocError>
    ensures { OnOk result (out.new.items ≡ out.old.items ++ rouse_sentence work.now c k woken) }
{
    match woken {
        None => put_none_left(work, c, k, out),
        Some((u, at)) => put_roused(work, c, k, u, at, out),
    }
}

pub(crate) fn put_cvwait(
    work: &Work,
    t: ThreadId,
    k: ChanId,
    l: LockId,
    out: &mut Vec<u8>,
) -> Result<(), AllocError>
    ensures { OnOk result (out.new.items ≡ out.old.items ++ cvwait_sentence work.now t k l) }
{
    put_thread(work, t, b" gives up ", out)?;
    put_lock(work, l, b" and sleeps on ", out)?;
    put_chan(work, k, b"", out)
}

// The count of a semaphore, and words behind it.
fn put_count_of<S: Scene>(
    s: &S,
    k: ChanId,
    words: &[u8],
    out: &mut Vec<u8>,
) -> Result<(), AllocError>
    requires good { S.good s.now }
    ensures { OnOk result (out.new.items ≡ out.old.items ++ number_then (count_of (S.state s.now) k.0) words.now) }
{
    put_count(u64::from(s.tokens(k)), words, out)
}

// One less than its count.
fn put_one_less<S: Scene>(s: &S, k: ChanId, out: &mut Vec<u8>) -> Result<(), AllocError>
    requires good { S.good s.now }
    ensures { OnOk result (out.new.items ≡ out.old.items ++ number_then (count_of (S.state s.now) k.0 - 1) []) }
{
    put_count(u64::from(s.tokens(k)).saturating_sub(1), b"", out)
}

pub(crate) fn put_semap<S: Scene>(
    work: &Work,
    s: &S,
    t: ThreadId,
    k: ChanId,
    out: &mut Vec<u8>,
) -> Result<(), AllocError>
    requires good { S.good s.now }
    ensures { OnOk result (out.new.items ≡ out.old.items ++ semap_sentence work.now (S.state s.now) t k) }
{
    put_thread(work, t, b" takes one from ", out)?;
    put_chan(work, k, b", whose count falls from ", out)?;
    put_count_of(s, k, b" to ", out)?;
    put_one_less(s, k, out)
}

pub(crate) fn put_semawait(
    work: &Work,
    t: ThreadId,
    k: ChanId,
    out: &mut Vec<u8>,
) -> Result<(), AllocError>
    ensures { OnOk result (out.new.items ≡ out.old.items ++ semawait_sentence work.now t k) }
{
    put_thread(work, t, b" sleeps on ", out)?;
    put_chan(work, k, b", whose count is 0", out)
}

pub(crate) fn put_handed(
    work: &Work,
    t: ThreadId,
    k: ChanId,
    u: ThreadId,
    at: Put,
    out: &mut Vec<u8>,
) -> Result<(), AllocError>
    ensures { OnOk result (out.new.items ≡ out.old.items ++ handed_sentence work.now t k u at) }
{
    put_thread(work, t, b" gives to ", out)?;
    put_chan(work, k, b", and the best that sleeps on it takes it: ", out)?;
    put_runnable(work, u, at, out)
}

fn put_new_count(n: u32, out: &mut Vec<u8>) -> Result<(), AllocError>
    ensures { OnOk result (out.new.items ≡ out.old.items ++ number_then n []) }
{
    put_count(u64::from(n), b"", out)
}

pub(crate) fn put_counted(
    work: &Work,
    t: ThreadId,
    k: ChanId,
    n: u32,
    out: &mut Vec<u8>,
) -> Result<(), AllocError>
    ensures { OnOk result (out.new.items ≡ out.old.items ++ counted_sentence work.now t k n) }
{
    put_thread(work, t, b" gives to ", out)?;
    put_chan(work, k, b", on which nobody sleeps: its count is ", out)?;
    put_new_count(n, out)
}
