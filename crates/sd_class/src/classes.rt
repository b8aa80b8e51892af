//! What happens to a thread of any class: a tick, a wakeup, a second on a dispatch queue, and a place on one.
//!
//! Source: Solaris Internals (the scheduling classes), ts_dptbl(4), rt_dptbl(4).
ghost use Rattle.std.specs.Prelude.{◌≡◌};
ghost use Rattle.sd_machine.specs.Bodies.{aged_class, ticked_class, woken_class};
ghost use Rattle.sd_rules.specs.ClassRules.{class_expires, class_requeue, quantum_expires};

use crate::fixed_priority::{fx_tick, fx_wake};
use crate::real_time::{rt_tick, rt_wake};
use crate::time_sharing::{ts_requeue, ts_second, ts_tick, ts_wake};
use sd_types::{ClassState, Quantum, Work};

/// Changes the class state of the running thread as a tick does, where it lies.
#[inline(always)]
pub fn tick_class(work: &Work, class: &mut ClassState)
    ensures { class.new ≡ ticked_class work.now class.old }
{
    match class {
        ClassState::Ts(s) => {
            ts_tick(s, &work.ts);
        }
        ClassState::Fx(s) => {
            fx_tick(s, &work.fx);
        }
        ClassState::Sys(_) => {}
        ClassState::Rt(s) => {
            rt_tick(s, &work.rt);
        }
    }
}

/// The class state after a tick of the running thread.
pub fn ticked_class(work: &Work, class: ClassState) -> ClassState
    ensures { result ≡ ticked_class work.now class }
{
    let mut next = class;
    tick_class(work, &mut next);
    next
}

/// The class state after a wakeup, from a nap, a sleep queue or a turnstile.
pub fn woken_class(work: &Work, class: ClassState) -> ClassState
    ensures { result ≡ woken_class work.now class }
{
    match class {
        ClassState::Ts(mut s) => {
            ts_wake(&mut s, &work.ts);
            ClassState::Ts(s)
        }
        ClassState::Fx(mut s) => {
            fx_wake(&mut s, &work.fx);
            ClassState::Fx(s)
        }
        ClassState::Sys(s) => ClassState::Sys(s),
        ClassState::Rt(mut s) => {
            rt_wake(&mut s, &work.rt);
            ClassState::Rt(s)
        }
    }
}

/// The class state after a second on a dispatch queue, which the time-sharing class alone counts.
pub fn aged_class(work: &Work, class: ClassState) -> ClassState
    ensures { result ≡ aged_class work.now class }
{
    match class {
        ClassState::Ts(mut s) => {
            ts_second(&mut s, &work.ts);
            ClassState::Ts(s)
        }
        other => other,
    }
}

/// The class state of a thread that is queued again, at the back where its quantum has `expired`.
pub fn class_requeue(expired: bool, class: ClassState) -> ClassState
    ensures { result ≡ class_requeue expired class }
{
    match class {
        ClassState::Ts(mut s) => {
            ts_requeue(&mut s, expired);
            ClassState::Ts(s)
        }
        other => other,
    }
}

#[inline(always)]
fn quantum_expires(quantum: Quantum, left: u64) -> bool
    ensures { result ≡ quantum_expires quantum left }
{
    match quantum {
        Quantum::Inf => false,
        _ => left <= 1,
    }
}

/// The next tick ends the quantum.
#[inline(always)]
pub fn class_expires(class: &ClassState) -> bool
    ensures { result ≡ class_expires class.now }
{
    match class {
        ClassState::Ts(s) => s.left <= 1,
        ClassState::Fx(s) => quantum_expires(s.quantum, s.left),
        ClassState::Sys(_) => false,
        ClassState::Rt(s) => quantum_expires(s.quantum, s.left),
    }
}
