//! Reading the body of a thread, and what the workload says of it. A number that is out of range reads what the
//! definitions say of it.

ghost use Rattle.std.specs.Prelude.{◌≡◌, [], ◌∷◌, IfOk, option_copied, option_map, unwrap_or};
ghost use Rattle.sd_machine.specs.Prioritising.{is_privileged, uid_of};
ghost use Rattle.sd_machine.specs.Threads.{has_ended, priority_of};
ghost use Rattle.sd_rules.specs.ClassRules.{class_expires};
ghost use Rattle.sd_state.specs.Operations.{op_of};
ghost use Rattle.sd_state.specs.declared.states.Place.{Place};
ghost use Rattle.sd_state.specs.States.{no_body, thread_of, eff_of};
ghost use Rattle.sd_store.specs.Keyless.{spot_of};
ghost use Rattle.sd_store.specs.Parts.{found_parts, number, thread_part};
ghost use Rattle.sd_store.specs.Words.{Lacks, Tells};
ghost use Rattle.sd_types.specs.declared.bodies.ThreadBody.{ThreadBody as ThreadBodyOf};
ghost use Rattle.sd_types.specs.Priorities.{eff, eff_as};

use sd_class::class_expires;
use sd_store::{Look, Spot};
use sd_types::{
    ClassState, CpuId, LockId, Op, SysState, ThreadBody, ThreadId, Work, greatest_willed,
};

/// The class state of a body.
#[inline(always)]
pub fn class_in(body: Option<&ThreadBody>) -> ClassState
    ensures { result ≡ (unwrap_or (option_copied body.entry) no_body).class }
{
    match body {
        Some(body) => body.class,
        None => ClassState::Sys(SysState { pri: 60 }),
    }
}

/// The next tick ends the quantum of the thread of a body.
#[inline(always)]
fn expires_in(body: Option<&ThreadBody>) -> bool
    ensures { result ≡ class_expires (unwrap_or (option_copied body.entry) no_body).class }
{
    match body {
        Some(body) => class_expires(&body.class),
        None => false,
    }
}

/// The processor to which the thread of a body is bound.
#[inline(always)]
pub fn bound_in(body: Option<&ThreadBody>) -> Option<CpuId>
    ensures { result ≡ (unwrap_or (option_copied body.entry) no_body).bound }
{
    match body {
        Some(body) => body.bound,
        None => None,
    }
}

/// The class state of thread `t`.
#[inline(always)]
pub fn class_of<L: Look>(x: &L, t: ThreadId) -> Result<ClassState, L::Lack>
    ensures value { Tells (L.shows x.now) result (λ s. (thread_of s t.0).body.class) }
    ensures lack { Lacks L.part (L.shows x.now) (L.has x.now) result (λ s. thread_part t ∷ []) }
{
    Ok(class_in(x.body(t)?))
}

/// The next tick ends the quantum of thread `t`.
#[inline(always)]
pub(crate) fn expires_of<L: Look>(x: &L, t: ThreadId) -> Result<bool, L::Lack>
    ensures value { Tells (L.shows x.now) result (λ s. class_expires (thread_of s t.0).body.class) }
    ensures lack { Lacks L.part (L.shows x.now) (L.has x.now) result (λ s. thread_part t ∷ []) }
{
    Ok(expires_in(x.body(t)?))
}

/// The processor to which thread `t` is bound.
#[inline(always)]
pub fn bound_of<L: Look>(x: &L, t: ThreadId) -> Result<Option<CpuId>, L::Lack>
    ensures value { Tells (L.shows x.now) result (λ s. (thread_of s t.0).body.bound) }
    ensures lack { Lacks L.part (L.shows x.now) (L.has x.now) result (λ s. thread_part t ∷ []) }
{
    Ok(bound_in(x.body(t)?))
}

/// The priorities that a thread inherits, one for each lock.
pub fn willed_numbers(body: Option<&ThreadBody>) -> &[(LockId, u8)]
    ensures { result.now ≡ (unwrap_or (option_copied body.entry) no_body).willed.items }
{
    match body {
        Some(body) => body.willed.as_slice(),
        None => &[],
    }
}

/// The effective priority of a body.
#[inline(always)]
pub fn effective_in(body: Option<&ThreadBody>) -> u8
    ensures { result ≡ eff (unwrap_or (option_copied body.entry) no_body) }
{
    match body {
        Some(body) => body.effective(),
        None => 60,
    }
}

/// The effective priority that a body would have in a class state.
pub fn eff_in(class: &ClassState, body: Option<&ThreadBody>) -> u8
    ensures { result ≡ eff_as class.now (unwrap_or (option_copied body.entry) no_body) }
{
    greatest_willed(class.base(), willed_numbers(body))
}

/// The effective priority that thread `t` would have in a class state.
pub fn eff_as<L: Look>(class: &ClassState, x: &L, t: ThreadId) -> Result<u8, L::Lack>
    ensures value { Tells (L.shows x.now) result (λ s. eff_as class.now (thread_of s t.0).body) }
    ensures lack { Lacks L.part (L.shows x.now) (L.has x.now) result (λ s. thread_part t ∷ []) }
{
    Ok(eff_in(class, x.body(t)?))
}

/// The effective priority of thread `t`.
#[inline(always)]
pub fn eff_of<L: Look>(x: &L, t: ThreadId) -> Result<u8, L::Lack>
    ensures value { Tells (L.shows x.now) result (λ s. eff_of s t.0) }
    ensures lack { Lacks L.part (L.shows x.now) (L.has x.now) result (λ s. thread_part t ∷ []) }
{
    Ok(effective_in(x.body(t)?))
}

/// The effective priority of the thread that a look-up found.
#[inline(always)]
pub fn priority_of<L: Look>(x: &L, t: Option<ThreadId>) -> Result<Option<u8>, L::Lack>
    ensures value { Tells (L.shows x.now) result (λ s. priority_of s (option_map number t)) }
    ensures lack { Lacks L.part (L.shows x.now) (L.has x.now) result (λ s. found_parts t) }
{
    match t {
        None => Ok(None),
        Some(t) => Ok(Some(eff_of(x, t)?)),
    }
}

/// A thread that stands at a spot has ended.
pub fn has_ended(spot: Spot) -> bool
    ensures { (place : Place) → spot ≡ spot_of place → result ≡ has_ended place }
{
    matches!(spot, Spot::Ended)
}

/// The user of a thread.
pub fn uid_of(work: &Work, t: ThreadId) -> u16
    ensures { result ≡ uid_of work.now t.0 }
{
    match work.threads.items().get(t.0 as usize) {
        Some(decl) => decl.uid,
        None => 0,
    }
}

/// A thread may change what others may not.
pub fn is_privileged(work: &Work, t: ThreadId) -> bool
    ensures { result ≡ is_privileged work.now t.0 }
{
    match work.threads.items().get(t.0 as usize) {
        Some(decl) => decl.privileged,
        None => false,
    }
}

/// The operation at which thread `t` of a body stands, None after the last. It is one of its script, whatever the store shows.
#[inline(always)]
pub fn op_in(work: &Work, t: ThreadId, body: Option<&ThreadBody>) -> Option<Op>
    ensures { result ≡ op_of work.now t.0 (unwrap_or (option_copied body.entry) no_body) }
{
    let op = match body {
        Some(body) => body.op,
        None => 0,
    };
    match work.threads.items().get(t.0 as usize) {
        Some(decl) => decl.script.ops().get(op as usize).copied(),
        None => None,
    }
}

/// The operation at which thread `t` stands, None after the last. It is one of its script, whatever the store shows.
#[inline(always)]
pub fn op_of<L: Look>(work: &Work, x: &L, t: ThreadId) -> Result<Option<Op>, L::Lack>
    ensures value { Tells (L.shows x.now) result (λ s. op_of work.now t.0 (thread_of s t.0).body) }
    ensures lack { Lacks L.part (L.shows x.now) (L.has x.now) result (λ s. thread_part t ∷ []) }
    ensures own { IfOk result (λ op. (b : ThreadBodyOf) × (op ≡ op_of work.now t.0 b)) }
{
    let body = x.body(t)?;
    Ok(op_in(work, t, body))
}
