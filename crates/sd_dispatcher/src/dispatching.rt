//! When a running thread has to leave, and what a processor dispatches on which none runs.
//!
//! Source: Solaris Internals (disp, preempt, disp_getwork); that a thread which holds a lock is in the kernel is this
//! project's own.

ghost use Rattle.std.specs.Prelude.{◌≡◌, ◌==◌, ◌&&◌, not, length, option_copied, option_map, unwrap_or};
ghost use Rattle.sd_machine.specs.Dispatching.{dispatch_plan, leave_event, leave_plan, must_leave, search_event, steal_event};
ghost use Rattle.sd_machine.specs.Threads.{is_sys};
ghost use Rattle.sd_state.specs.declared.states.CpuState.{CpuState};
ghost use Rattle.sd_state.specs.States.{no_body};
ghost use Rattle.sd_dispatcher.specs.Touched.{victim_parts};
ghost use Rattle.sd_types.specs.declared.bodies.ThreadBody.{ThreadBody as ThreadBodyOf};
ghost use Rattle.sd_rules.specs.ClassRules.{end_of};
ghost use Rattle.sd_store.specs.Parts.{found_parts, number, view_of};
ghost use Rattle.sd_store.specs.Words.{Lacks, Tells};

use crate::bodies::eff_of;
use sd_machine::Plan;
use sd_store::{CpuView, Look};
use sd_types::{ClassState, CpuId, End, Event, ThreadBody, ThreadId};

fn is_sys(class: &ClassState) -> bool
    ensures { result ≡ is_sys class.now }
{
    matches!(class, ClassState::Sys(_))
}

/// The thread is in the kernel: it is a system thread, or holds a lock.
fn is_in_kernel(body: Option<&ThreadBody>) -> bool
    ensures { not result ≡ (not (is_sys (unwrap_or (option_copied body.entry) no_body).class) && (length (unwrap_or (option_copied body.entry) no_body).held.items == 0)) }
{
    match body {
        Some(body) => is_sys(&body.class) || body.held.as_slice().len() > 0,
        None => true,
    }
}

/// The running thread has to leave: the kernel's mark is set, or the user's where the thread is not in the kernel.
fn must_leave(view: &CpuView, body: Option<&ThreadBody>) -> bool
    ensures { (x : CpuState) → view.now ≡ view_of x → result ≡ must_leave x (unwrap_or (option_copied body.entry) no_body) }
{
    view.kernel || view.user && !is_in_kernel(body)
}

fn end_of(back: bool) -> End
    ensures { result ≡ end_of back }
{
    if back { End::Back } else { End::Front }
}

/// How thread `t` leaves processor `c`: for the processor to which it is bound, or for an end of its queue.
fn leave_event_of(c: CpuId, t: ThreadId, back: bool, bound: Option<CpuId>) -> Event
    ensures { (b : ThreadBodyOf) → b.back ≡ back → result ≡ leave_event c.0 t.0 b bound }
{
    let end = end_of(back);
    match bound {
        None => Event::Preempt { t, end },
        Some(d) => {
            if d.0 == c.0 {
                Event::Preempt { t, end }
            } else {
                Event::Away { t, cpu: d }
            }
        }
    }
}

fn leave_event(c: CpuId, t: ThreadId, body: Option<&ThreadBody>) -> Event
    ensures { result ≡ leave_event c.0 t.0 (unwrap_or (option_copied body.entry) no_body) (unwrap_or (option_copied body.entry) no_body).bound }
{
    match body {
        Some(body) => leave_event_of(c, t, body.back, body.bound),
        None => leave_event_of(c, t, false, None),
    }
}

/// The running thread `t` of a body leaves processor `c` where it has to.
#[inline(always)]
pub fn leave_in(view: &CpuView, c: CpuId, t: ThreadId, body: Option<&ThreadBody>) -> Option<Plan>
    ensures { (x : CpuState) → view.now ≡ view_of x → result ≡ leave_plan c.0 x t.0 (unwrap_or (option_copied body.entry) no_body) }
{
    if must_leave(view, body) {
        Some(Plan::Make(leave_event(c, t, body)))
    } else {
        None
    }
}

/// The best that is ready is dispatched; where nothing is, a search begins.
pub fn dispatch_plan<L: Look>(x: &L, best: Option<ThreadId>) -> Result<Plan, L::Lack>
    ensures value { Tells (L.shows x.now) result (λ s. dispatch_plan s (option_map number best)) }
    ensures lack { Lacks L.part (L.shows x.now) (L.has x.now) result (λ s. found_parts best) }
{
    match best {
        None => Ok(Plan::Search),
        Some(t) => {
            let p = eff_of(x, t)?;
            Ok(Plan::Make(Event::Dispatch { t, p }))
        }
    }
}

/// The best thread that may be stolen from the victim, where there is one, is stolen.
fn steal_event<L: Look>(x: &L, victim: CpuId, best: Option<ThreadId>) -> Result<Event, L::Lack>
    ensures value { Tells (L.shows x.now) result (λ s. steal_event s victim (option_map number best)) }
    ensures lack { Lacks L.part (L.shows x.now) (L.has x.now) result (λ s. found_parts best) }
{
    match best {
        None => Ok(Event::Idle),
        Some(t) => {
            let p = eff_of(x, t)?;
            Ok(Event::Steal { victim, t, p })
        }
    }
}

/// What a search comes to that has found a victim, or none.
pub fn search_event<L: Look>(x: &L, victim: Option<CpuId>) -> Result<Event, L::Lack>
    ensures value { Tells (L.shows x.now) result (λ s. search_event s victim) }
    ensures lack { Lacks L.part (L.shows x.now) (L.has x.now) result (λ s. victim_parts victim) }
{
    match victim {
        None => Ok(Event::Idle),
        Some(v) => {
            let best = x.best_unbound(v)?;
            steal_event(x, v, best)
        }
    }
}
