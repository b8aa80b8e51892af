//! The walk: at each lock the owner is to inherit the greatest priority of the waiters (will), and where it waits itself the
//! walk goes on at the lock that it waits for; at a lock that nobody owns the walk is over (end). It is over too at an owner that does
//! not wait, at the thread that it seeks, where the chain is closed, and at one where another walk found that before.
//!
//! Source: Solaris Internals (turnstiles: priority inheritance, turnstile_pi_inherit).

ghost use Rattle.std.specs.Prelude.{◌≡◌, ◌<◌, ◌^◌, [], ◌∷◌, None, ⊤, true};
ghost use Rattle.sd_machine.specs.Changes.{set_number};
ghost use Rattle.sd_machine.specs.Needs.{CanInherit};
ghost use Rattle.sd_machine.specs.Requeueing.{reordered};
ghost use Rattle.sd_machine.specs.Threads.{greatest_waiting};
ghost use Rattle.sd_machine.specs.Walking.{inherited_priority, walk_ended, walk_plan, walked, will_plan, willed};
ghost use Rattle.sd_dispatcher.specs.Touched.{reordered_parts};
ghost use Rattle.sd_locks.specs.Passed.{walk_parts, walked_parts, willed_parts};
ghost use Rattle.sd_store.specs.Parts.{actor_part, chain_part, thread_part};
ghost use Rattle.sd_state.specs.States.{eff_of, thread_of};
ghost use Rattle.sd_store.specs.Words.{Does, DoesBy, Lacks, LacksBy, LacksIf, Tells, TellsIf};
ghost use Rattle.sd_types.specs.Willed.{number_for};

use crate::inheriting::{eff_in_with, number_in};
use sd_dispatcher::{bound_in, class_in, effective_in, reordered, requeue};
use sd_machine::{Placement, Plan, Requeue};
use sd_state::LockState;
use sd_store::{Chore, Look, Store, inherit, set_looped};
use sd_types::{CpuId, Event, LockId, Put, ThreadId, Work};

/// The owner `o` of lock `l`, which has the effective priority `old`, inherits the priority `p`, and goes where that one belongs. Where it stands
/// is looked up where its priority changes.
fn will_plan<L: Look>(
    x: &L,
    l: LockId,
    o: ThreadId,
    old: u8,
    p: u8,
    bound: Option<CpuId>,
) -> Result<Plan, L::Lack>
    ensures value { TellsIf (L.shows x.now) result (λ s. (old ≡ eff_of s o.0) × (bound ≡ (thread_of s o.0).body.bound)) (λ s. will_plan s l o p) }
    ensures lack { Lacks L.part (L.shows x.now) (L.has x.now) result (λ s. thread_part o ∷ []) }
{
    if old == p {
        return Ok(Plan::Make(Event::Will { l, o, p, at: None }));
    }
    let spot = x.spot(o)?;
    Ok(match requeue(spot, old, p, bound) {
        Requeue::Stays => Plan::Make(Event::Will { l, o, p, at: None }),
        Requeue::Behind(d) => Plan::Make(Event::Will {
            l,
            o,
            p,
            at: Some(Put::Cpu(d)),
        }),
        Requeue::Anew => Plan::Place(Placement::Will { l, o, p }, p),
    })
}

/// The owner `o` of lock `l`, which is looked up once, inherits the greatest priority of the waiters.
fn owner_plan<L: Look>(x: &L, l: LockId, o: ThreadId) -> Result<Plan, L::Lack>
    ensures value { Tells (L.shows x.now) result (λ s. will_plan s l o (inherited_priority s l o.0)) }
    ensures lack { Lacks L.part (L.shows x.now) (L.has x.now) result (λ s. chain_part l ∷ thread_part o ∷ []) }
{
    let number = x.greatest_waiting(l)?;
    let body = x.body(o)?;
    let p = eff_in_with(&class_in(body), l, number, body);
    will_plan(x, l, o, effective_in(body), p, bound_in(body))
}

/// What a walk does at lock `l`, which is in a state: its owner inherits, and where nobody owns it the walk ends.
pub fn walk_plan<L: Look>(x: &L, l: LockId, lock: LockState) -> Result<Plan, L::Lack>
    ensures value { Tells (L.shows x.now) result (λ s. walk_plan s l lock) }
    ensures lack { Lacks L.part (L.shows x.now) (L.has x.now) result (λ s. walk_parts l lock) }
{
    match lock {
        LockState::Owned(o) => owner_plan(x, l, o),
        _ => Ok(Plan::Make(Event::End { l })),
    }
}

fn same_number(number: Option<u8>, other: Option<u8>) -> bool
    ensures { result ≡ true → number ≡ other }
{
    match (number, other) {
        (None, None) => true,
        (Some(number), Some(other)) => number == other,
        _ => false,
    }
}

/// The owner `o` of lock `l`, which inherits `had` through it, inherits `number`. Where that is the same, it stays as it is.
fn inherit_anew<S: Store>(
    work: &Work,
    x: &mut S,
    o: ThreadId,
    l: LockId,
    had: Option<u8>,
    number: Option<u8>,
) -> Result<(), S::Lack>
    ensures value { Does (S.shows x.old) (S.shows x.new) result (λ s. CanInherit s o l number × (had ≡ number_for l (thread_of s o.0).body.willed.items)) (λ s. set_number s o.0 l number) }
    ensures lack { Lacks S.part (S.shows x.old) (S.has x.old) result (λ s. thread_part o ∷ []) }
    ensures has { S.has x.new ≡ S.has x.old }
{
    if same_number(had, number) {
        return Ok(());
    }
    inherit(x, work, o, l, number)
}

/// The walk of processor `c` goes on from the owner `o` of lock `l`, or ends there, and the owner gets its number for the
/// lock, which was `had` and is `greatest` then. What is read of the duty and of the owner is read before they change. That the walk has come
/// back to the owner stays so once it is.
fn walked<S: Store>(
    work: &Work,
    x: &mut S,
    c: CpuId,
    l: LockId,
    o: ThreadId,
    had: Option<u8>,
    greatest: Option<u8>,
) -> Result<(), S::Lack>
    ensures value { Does (S.shows x.old) (S.shows x.new) result (λ s. CanInherit s o l (greatest_waiting l.0 s.threads) × (had ≡ number_for l (thread_of s o.0).body.willed.items) × (greatest ≡ greatest_waiting l.0 s.threads)) (λ s. walked s c l o) }
    ensures lack { LacksIf S.part (S.shows x.old) (S.has x.old) result (λ s. CanInherit s o l (greatest_waiting l.0 s.threads) × (had ≡ number_for l (thread_of s o.0).body.willed.items) × (greatest ≡ greatest_waiting l.0 s.threads)) (λ s. walked_parts c l o) }
    ensures has { S.has x.new ≡ S.has x.old }
{
    let back = x.is_back(c, o)?;
    x.walk_on(c, o)?;
    if !back {
        return inherit_anew(work, x, o, l, had, greatest);
    }
    inherit_anew(work, x, o, l, had, greatest)?;
    set_looped(x, work, o, true)
}

/// A thread whose priority is the same, and that the event sends nowhere, stays where it stands.
fn stays(same: bool, at: Option<Put>) -> bool
    ensures { result ≡ true → (same ≡ true) × (at ≡ None) }
{
    same && at.is_none()
}

/// By entry `number` the owner `o`, which had the effective priority `old`, moves where the event says. Where it is known to have the same
/// priority, and is to go nowhere, it is not looked up.
fn moved<S: Store>(
    work: &Work,
    x: &mut S,
    number: u64,
    o: ThreadId,
    old: u8,
    same: bool,
    at: Option<Put>,
) -> Result<(), S::Lack>
    requires { number < 2 ^ 62 }
    ensures value { DoesBy number (S.shows x.old) (S.shows x.new) result (λ s. same ≡ true → old ≡ eff_of s o.0) (λ s. reordered work.now s number o.0 old at) }
    ensures lack { LacksBy number S.part (S.shows x.old) (S.has x.old) result (λ s. ⊤) (λ s. reordered_parts work.now s o at (thread_of s o.0).place) }
    ensures has { S.has x.new ≡ S.has x.old }
{
    if stays(same, at) {
        return Ok(());
    }
    reordered(work, x, number, o, old, at)
}

/// By entry `number` the owner `o` of lock `l` inherits the greatest priority of the waiters, and moves where the event
/// says; the walk of processor `c` goes on or ends. The owner is looked up once before it changes.
#[tactic(auto, using(crate::proofs::Walked::parts_kept), unfolding(sd_machine::specs::Walking::willed))]
pub fn willed<S: Store>(
    work: &Work,
    x: &mut S,
    number: u64,
    c: CpuId,
    l: LockId,
    o: ThreadId,
    at: Option<Put>,
) -> Result<(), S::Lack>
    requires { number < 2 ^ 62 }
    ensures value { DoesBy number (S.shows x.old) (S.shows x.new) result (λ s. CanInherit s o l (greatest_waiting l.0 s.threads)) (λ s. willed work.now s number c l o at) }
    ensures lack { LacksBy number S.part (S.shows x.old) (S.has x.old) result (λ s. CanInherit s o l (greatest_waiting l.0 s.threads)) (λ s. willed_parts work.now s c l o at) }
    ensures has { S.has x.new ≡ S.has x.old }
{
    let body = x.body(o)?;
    let old = effective_in(body);
    let had = number_in(l, body);
    let greatest = x.greatest_waiting(l)?;
    walked(work, x, c, l, o, had, greatest)?;
    moved(work, x, number, o, old, same_number(had, greatest), at)
}

/// The walk of processor `c` has come to a lock that nobody owns, and is over.
#[tactic(auto, unfolding(sd_machine::specs::Walking::walk_ended))]
pub fn walk_ended<S: Store>(x: &mut S, c: CpuId) -> Result<(), S::Lack>
    ensures value { Does (S.shows x.old) (S.shows x.new) result (λ s. ⊤) (λ s. walk_ended s c) }
    ensures lack { Lacks S.part (S.shows x.old) (S.has x.old) result (λ s. actor_part c ∷ []) }
    ensures has { S.has x.new ≡ S.has x.old }
{
    x.set_duty(c, Chore::Nothing)
}
