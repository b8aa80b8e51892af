//! Threads that sleep on a channel until others wake them, one or all.

ghost use Rattle.std.specs.Prelude.{◌≡◌, ◌<◌, ◌^◌, [], ◌∷◌, ⊤, option_map};
ghost use Rattle.sd_machine.specs.Needs.{CanAct, CanFinish, IsChan};
ghost use Rattle.sd_machine.specs.Sleeping.{fallen_asleep, rouse_plan, roused, wake_plan, woke, woke_all};
ghost use Rattle.sd_state.specs.States.{cpu_of};
ghost use Rattle.sd_sleep.specs.Touched.{woken_parts};
ghost use Rattle.sd_store.specs.Parts.{actor_part, cpu_part, found_parts, number, sleepers_part, thread_part};
ghost use Rattle.sd_store.specs.Words.{DoesBy, Lacks, LacksBy, Tells};

use sd_dispatcher::{woken, woken_priority};
use sd_machine::{Placement, Plan};
use sd_store::{Chore, Destination, Look, Store, finish_op};
use sd_types::{ChanId, CpuId, Event, Put, ThreadId, Work};

/// By entry `number` thread `t`, which runs on processor `c`, sleeps on channel `k`. Its operation is over before it leaves, since a running
/// thread changes where it stands.
#[tactic(auto, using(sd_dispatcher::proofs::Finished::runs_finished, crate::proofs::Leaving::finished_chan))]
pub fn fallen_asleep<S: Store>(
    work: &Work,
    x: &mut S,
    number: u64,
    c: CpuId,
    t: ThreadId,
    k: ChanId,
) -> Result<(), S::Lack>
    requires { number < 2 ^ 62 }
    ensures value { DoesBy number (S.shows x.old) (S.shows x.new) result (λ s. CanAct work.now s t c × IsChan s k) (λ s. fallen_asleep work.now s number c t.0 k) }
    ensures lack { LacksBy number S.part (S.shows x.old) (S.has x.old) result (λ s. CanAct work.now s t c × IsChan s k) (λ s. actor_part c ∷ cpu_part c ∷ sleepers_part k ∷ thread_part t ∷ []) }
    ensures has { S.has x.new ≡ S.has x.old }
{
    finish_op(x, work, t)?;
    x.leave(number, c, t, Destination::SleepQueue(k))
}

/// Thread `t` wakes the best that sleeps on channel `k`.
pub fn wake_plan<L: Look>(
    work: &Work,
    x: &L,
    t: ThreadId,
    k: ChanId,
    sleeper: Option<ThreadId>,
) -> Result<Plan, L::Lack>
    ensures value { Tells (L.shows x.now) result (λ s. wake_plan work.now s t.0 k (option_map number sleeper)) }
    ensures lack { Lacks L.part (L.shows x.now) (L.has x.now) result (λ s. found_parts sleeper) }
{
    match sleeper {
        None => Ok(Plan::Make(Event::Wake { t, k, woken: None })),
        Some(u) => {
            let p = woken_priority(work, x, u)?;
            Ok(Plan::Place(Placement::Wake { t, k, u }, p))
        }
    }
}

/// By entry `number` thread `t` has woken another thread, or none.
#[tactic(auto, using(crate::proofs::Woken::woken_inside), unfolding(sd_machine::specs::Sleeping::woke))]
pub fn woke<S: Store>(
    work: &Work,
    x: &mut S,
    number: u64,
    t: ThreadId,
    sleeper: Option<(ThreadId, Put)>,
) -> Result<(), S::Lack>
    requires { number < 2 ^ 62 }
    ensures value { DoesBy number (S.shows x.old) (S.shows x.new) result (λ s. CanFinish work.now s t) (λ s. woke work.now s number t.0 sleeper) }
    ensures lack { LacksBy number S.part (S.shows x.old) (S.has x.old) result (λ s. CanFinish work.now s t) (λ s. thread_part t ∷ woken_parts work.now sleeper) }
    ensures has { S.has x.new ≡ S.has x.old }
{
    match sleeper {
        None => finish_op(x, work, t),
        Some((u, at)) => {
            woken(work, x, number, u, at)?;
            finish_op(x, work, t)
        }
    }
}

/// By entry `number` processor `c` is to wake all that sleep on channel `k` now, where any do; thread `t` goes on.
#[tactic(auto, unfolding(sd_machine::specs::Sleeping::woke_all, sd_machine::specs::Changes::set_duty))]
pub fn woke_all<S: Store>(
    work: &Work,
    x: &mut S,
    number: u64,
    c: CpuId,
    t: ThreadId,
    k: ChanId,
) -> Result<(), S::Lack>
    requires { number < 2 ^ 62 }
    ensures value { DoesBy number (S.shows x.old) (S.shows x.new) result (λ s. CanFinish work.now s t) (λ s. woke_all work.now s number c t.0 k) }
    ensures lack { LacksBy number S.part (S.shows x.old) (S.has x.old) result (λ s. CanFinish work.now s t) (λ s. actor_part c ∷ sleepers_part k ∷ thread_part t ∷ []) }
    ensures has { S.has x.new ≡ S.has x.old }
{
    if x.best_sleeper(k)?.is_some() {
        x.begin_rouse(number, c, k)?;
    }
    finish_op(x, work, t)
}

/// A processor that is to wake all that sleep on channel `k` wakes the best that is left.
pub fn rouse_plan<L: Look>(
    work: &Work,
    x: &L,
    k: ChanId,
    sleeper: Option<ThreadId>,
) -> Result<Plan, L::Lack>
    ensures value { Tells (L.shows x.now) result (λ s. rouse_plan work.now s k (option_map number sleeper)) }
    ensures lack { Lacks L.part (L.shows x.now) (L.has x.now) result (λ s. found_parts sleeper) }
{
    match sleeper {
        None => Ok(Plan::Make(Event::Rouse { k, woken: None })),
        Some(u) => {
            let p = woken_priority(work, x, u)?;
            Ok(Plan::Place(Placement::Rouse { k, u }, p))
        }
    }
}

/// By entry `number` processor `c` has woken a sleeper of channel `k`, or there was none. Its duty is over with the last.
#[tactic(auto, using(sd_store::proofs::WokenDuties::next_after_woken), unfolding(sd_machine::specs::Sleeping::roused))]
pub fn roused<S: Store>(
    work: &Work,
    x: &mut S,
    number: u64,
    c: CpuId,
    k: ChanId,
    sleeper: Option<(ThreadId, Put)>,
) -> Result<(), S::Lack>
    requires { number < 2 ^ 62 }
    ensures value { DoesBy number (S.shows x.old) (S.shows x.new) result (λ s. ⊤) (λ s. roused work.now s number c k sleeper (cpu_of s c.0).duty) }
    ensures lack { LacksBy number S.part (S.shows x.old) (S.has x.old) result (λ s. ⊤) (λ s. actor_part c ∷ sleepers_part k ∷ woken_parts work.now sleeper) }
    ensures has { S.has x.new ≡ S.has x.old }
{
    match sleeper {
        None => x.set_duty(c, Chore::Nothing),
        Some((u, at)) => {
            woken(work, x, number, u, at)?;
            if x.next_to_rouse(c, k)?.is_none() {
                x.set_duty(c, Chore::Nothing)?;
            }
            Ok(())
        }
    }
}
