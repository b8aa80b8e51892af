//! Semaphores: a thread takes one from the count, or sleeps where it is 0; one that gives hands it to the best sleeper, and
//! counts up where nobody sleeps. To sleep there is to sleep on the channel (`sd_sleep`'s `fallen_asleep`).
//!
//! Source: Solaris Internals (sema_p, sema_v); that a semaphore is handed over directly is this project's own.

ghost use Rattle.std.specs.Prelude.{◌≡◌, ◌<◌, ◌^◌, [], ◌∷◌, option_map};
ghost use Rattle.sd_machine.specs.Conditions.{sema_counted, sema_handed, sema_p_event, sema_taken, sema_v_plan};
ghost use Rattle.sd_machine.specs.Needs.{CanCount, CanFinish, IsChan};
ghost use Rattle.sd_store.specs.Parts.{found_parts, number, put_parts, sleepers_part, thread_part};
ghost use Rattle.sd_store.specs.Words.{Does, DoesBy, Lacks, LacksBy, LacksIf, Tells, TellsIf};

use crate::woke;
use sd_dispatcher::woken_priority;
use sd_machine::{Placement, Plan};
use sd_store::{Look, Sets, Store, finish_op};
use sd_types::{ChanId, Event, Put, ThreadId, Work};

/// Thread `t` takes one from semaphore `k`, or waits where the count is 0.
pub fn sema_p_event<L: Look>(x: &L, t: ThreadId, k: ChanId) -> Result<Event, L::Lack>
    ensures value { Tells (L.shows x.now) result (λ s. sema_p_event s t.0 k) }
    ensures lack { Lacks L.part (L.shows x.now) (L.has x.now) result (λ s. sleepers_part k ∷ []) }
{
    if x.tokens(k)? >= 1 {
        Ok(Event::SemaP { t, k })
    } else {
        Ok(Event::SemaWait { t, k })
    }
}

/// Thread `t` takes one from semaphore `k`.
#[tactic(auto, unfolding(sd_machine::specs::Conditions::sema_taken))]
pub fn sema_taken<S: Sets>(work: &Work, x: &mut S, t: ThreadId, k: ChanId) -> Result<(), S::Lack>
    ensures value { Does (S.shows x.old) (S.shows x.new) result (λ s. CanFinish work.now s t × IsChan s k) (λ s. sema_taken work.now s t.0 k) }
    ensures lack { LacksIf S.part (S.shows x.old) (S.has x.old) result (λ s. CanFinish work.now s t × IsChan s k) (λ s. sleepers_part k ∷ thread_part t ∷ []) }
    ensures has { S.has x.new ≡ S.has x.old }
{
    let count = x.tokens(k)?.saturating_sub(1);
    x.set_tokens(k, count)?;
    finish_op(x, work, t)
}

/// Thread `t` hands semaphore `k` to its best sleeper, or counts it up where nobody sleeps.
pub fn sema_v_plan<L: Look>(
    work: &Work,
    x: &L,
    t: ThreadId,
    k: ChanId,
    sleeper: Option<ThreadId>,
) -> Result<Plan, L::Lack>
    ensures value { TellsIf (L.shows x.now) result (λ s. CanCount s k) (λ s. sema_v_plan work.now s t.0 k (option_map number sleeper)) }
    ensures lack { Lacks L.part (L.shows x.now) (L.has x.now) result (λ s. sleepers_part k ∷ found_parts sleeper) }
{
    match sleeper {
        None => {
            let count = x.tokens(k)?.saturating_add(1);
            Ok(Plan::Make(Event::SemaVCount { t, k, count }))
        }
        Some(u) => {
            let p = woken_priority(work, x, u)?;
            Ok(Plan::Place(Placement::SemaVWake { t, k, u }, p))
        }
    }
}

/// Thread `t` counts semaphore `k` up.
#[tactic(auto, unfolding(sd_machine::specs::Conditions::sema_counted))]
pub fn sema_counted<S: Sets>(work: &Work, x: &mut S, t: ThreadId, k: ChanId) -> Result<(), S::Lack>
    ensures value { Does (S.shows x.old) (S.shows x.new) result (λ s. CanFinish work.now s t × IsChan s k × CanCount s k) (λ s. sema_counted work.now s t.0 k) }
    ensures lack { LacksIf S.part (S.shows x.old) (S.has x.old) result (λ s. CanFinish work.now s t × IsChan s k × CanCount s k) (λ s. sleepers_part k ∷ thread_part t ∷ []) }
    ensures has { S.has x.new ≡ S.has x.old }
{
    let count = x.tokens(k)?.saturating_add(1);
    x.set_tokens(k, count)?;
    finish_op(x, work, t)
}

/// By entry `number` thread `t` hands a semaphore to thread `u`, which slept on it and is made runnable.
#[tactic(auto, unfolding(sd_machine::specs::Conditions::sema_handed, sd_machine::specs::Sleeping::woke))]
pub fn sema_handed<S: Store>(
    work: &Work,
    x: &mut S,
    number: u64,
    t: ThreadId,
    u: ThreadId,
    at: Put,
) -> Result<(), S::Lack>
    requires { number < 2 ^ 62 }
    ensures value { DoesBy number (S.shows x.old) (S.shows x.new) result (λ s. CanFinish work.now s t) (λ s. sema_handed work.now s number t.0 u.0 at) }
    ensures lack { LacksBy number S.part (S.shows x.old) (S.has x.old) result (λ s. CanFinish work.now s t) (λ s. thread_part t ∷ put_parts work.now u at) }
    ensures has { S.has x.new ≡ S.has x.old }
{
    woke(work, x, number, t, Some((u, at)))
}
