//! Classes, processor sets and bindings.
//!
//! Source: priocntl(2), psrset(1M), pbind(1M).

ghost use Rattle.std.specs.Prelude.{◌≡◌, ◌++◌, [], OnOk, codes};
ghost use Rattle.sd_state.specs.States.{eff_of};
ghost use Rattle.sd_story.specs.Requests.{age_sentence, assign_sentence, assign_words, bind_sentence, bind_words, bound_sentence, denied_words, joined_sentence, move_sentence, prio_sentence, prio_words};
ghost use Rattle.sd_story.specs.Words.{change_words, cpu_then, requeued_words, thread_then};

use crate::locks::{effective, put_change_of};
use crate::scene::Scene;
use crate::words::{
    put_change, put_cpu, put_requeued, put_runnable, put_set, put_thread, put_words,
};
use sd_types::{AssignAnswer, BindAnswer, CpuId, Denied, PrioAnswer, Put, SetId, ThreadId, Work};
use std::alloc::AllocError;

pub(crate) fn put_age<S: Scene>(
    work: &Work,
    s: &S,
    t: ThreadId,
    p: u8,
    out: &mut Vec<u8>,
) -> Result<(), AllocError>
    requires good { S.good s.now }
    ensures { OnOk result (out.new.items ≡ out.old.items ++ age_sentence work.now (S.state s.now) t p) }
{
    put_thread(work, t, b" has waited a second more: its priority ", out)?;
    put_change_of(s, t, p, out)
}

fn denied_words(denied: Denied) -> &'static [u8]
    ensures { result.now ≡ denied_words denied }
{
    match denied {
        Denied::ESRCH => b": that thread has ended (ESRCH)",
        Denied::EINVAL => b": that cannot be granted (EINVAL)",
        Denied::EPERM => b": it may not (EPERM)",
    }
}

fn put_changed(before: u8, p: u8, at: Option<Put>, out: &mut Vec<u8>) -> Result<(), AllocError>
    ensures { OnOk result (out.new.items ≡ out.old.items ++ (codes ", whose priority " ++ change_words before p ++ requeued_words at)) }
{
    put_words(b", whose priority ", out)?;
    put_change(before, p, out)?;
    put_requeued(at, out)
}

fn put_prio_words(before: u8, answer: PrioAnswer, out: &mut Vec<u8>) -> Result<(), AllocError>
    ensures { OnOk result (out.new.items ≡ out.old.items ++ prio_words before answer) }
{
    match answer {
        PrioAnswer::Changed { p, at } => put_changed(before, p, at, out),
        PrioAnswer::Refused(denied) => put_words(denied_words(denied), out),
    }
}

// What becomes of the priority of a thread.
fn put_answer<S: Scene>(
    s: &S,
    u: ThreadId,
    answer: PrioAnswer,
    out: &mut Vec<u8>,
) -> Result<(), AllocError>
    requires good { S.good s.now }
    ensures { OnOk result (out.new.items ≡ out.old.items ++ prio_words (eff_of (S.state s.now) u.0) answer) }
{
    put_prio_words(effective(s, u), answer, out)
}

pub(crate) fn put_prio<S: Scene>(
    work: &Work,
    s: &S,
    t: ThreadId,
    u: ThreadId,
    answer: PrioAnswer,
    out: &mut Vec<u8>,
) -> Result<(), AllocError>
    requires good { S.good s.now }
    ensures { OnOk result (out.new.items ≡ out.old.items ++ prio_sentence work.now (S.state s.now) t u answer) }
{
    put_thread(work, t, b" sets the class or priority of ", out)?;
    put_thread(work, u, b"", out)?;
    put_answer(s, u, answer, out)
}

fn assign_words(answer: AssignAnswer) -> &'static [u8]
    ensures { result.now ≡ assign_words answer }
{
    match answer {
        AssignAnswer::Changed => b": it closes",
        AssignAnswer::EPERM => b": the thread may not (EPERM)",
        AssignAnswer::EINVAL => b": it is there already (EINVAL)",
        AssignAnswer::EBUSY => {
            b": it is closing, the last open one of its set, or has a bound thread (EBUSY)"
        }
    }
}

fn put_assign_words(answer: AssignAnswer, out: &mut Vec<u8>) -> Result<(), AllocError>
    ensures { OnOk result (out.new.items ≡ out.old.items ++ assign_words answer) }
{
    put_words(assign_words(answer), out)
}

pub(crate) fn put_assign(
    work: &Work,
    t: ThreadId,
    cpu: CpuId,
    set: SetId,
    answer: AssignAnswer,
    out: &mut Vec<u8>,
) -> Result<(), AllocError>
    ensures { OnOk result (out.new.items ≡ out.old.items ++ assign_sentence work.now t cpu set answer) }
{
    put_thread(work, t, b" assigns ", out)?;
    put_cpu(cpu, b" to ", out)?;
    put_set(work, set, out)?;
    put_assign_words(answer, out)
}

pub(crate) fn put_move(
    work: &Work,
    c: CpuId,
    t: ThreadId,
    at: Put,
    out: &mut Vec<u8>,
) -> Result<(), AllocError>
    ensures { OnOk result (out.new.items ≡ out.old.items ++ move_sentence work.now c t at) }
{
    put_cpu(c, b" is closing, and sends a thread away: ", out)?;
    put_runnable(work, t, at, out)
}

pub(crate) fn put_joined(
    work: &Work,
    c: CpuId,
    set: SetId,
    out: &mut Vec<u8>,
) -> Result<(), AllocError>
    ensures { OnOk result (out.new.items ≡ out.old.items ++ joined_sentence work.now c set) }
{
    put_cpu(c, b" is empty, and joins ", out)?;
    put_set(work, set, out)
}

fn put_bind_words(answer: BindAnswer, out: &mut Vec<u8>) -> Result<(), AllocError>
    ensures { OnOk result (out.new.items ≡ out.old.items ++ bind_words answer) }
{
    match answer {
        BindAnswer::Changed { at } => put_requeued(at, out),
        BindAnswer::ESRCH => put_words(b": that thread has ended (ESRCH)", out),
        BindAnswer::EINVAL => put_words(b": that cannot be granted (EINVAL)", out),
        BindAnswer::EPERM => put_words(b": it may not (EPERM)", out),
        BindAnswer::EBUSY => put_words(b": the processor is closing (EBUSY)", out),
    }
}

fn put_unbound(work: &Work, t: ThreadId, u: ThreadId, out: &mut Vec<u8>) -> Result<(), AllocError>
    ensures { OnOk result (out.new.items ≡ out.old.items ++ (thread_then work.now t (codes " unbinds ") ++ thread_then work.now u [])) }
{
    put_thread(work, t, b" unbinds ", out)?;
    put_thread(work, u, b"", out)
}

fn put_bound(
    work: &Work,
    t: ThreadId,
    u: ThreadId,
    cpu: CpuId,
    out: &mut Vec<u8>,
) -> Result<(), AllocError>
    ensures { OnOk result (out.new.items ≡ out.old.items ++ (thread_then work.now t (codes " binds ") ++ thread_then work.now u (codes " to ") ++ cpu_then cpu [])) }
{
    put_thread(work, t, b" binds ", out)?;
    put_thread(work, u, b" to ", out)?;
    put_cpu(cpu, b"", out)
}

fn put_binding(
    work: &Work,
    t: ThreadId,
    u: ThreadId,
    cpu: Option<CpuId>,
    out: &mut Vec<u8>,
) -> Result<(), AllocError>
    ensures { OnOk result (out.new.items ≡ out.old.items ++ bound_sentence work.now t u cpu) }
{
    match cpu {
        None => put_unbound(work, t, u, out),
        Some(cpu) => put_bound(work, t, u, cpu, out),
    }
}

pub(crate) fn put_bind(
    work: &Work,
    t: ThreadId,
    u: ThreadId,
    cpu: Option<CpuId>,
    answer: BindAnswer,
    out: &mut Vec<u8>,
) -> Result<(), AllocError>
    ensures { OnOk result (out.new.items ≡ out.old.items ++ bind_sentence work.now t u cpu answer) }
{
    put_binding(work, t, u, cpu, out)?;
    put_bind_words(answer, out)
}
