//! The state after an event.

ghost use Rattle.std.specs.Prelude.{◌≡◌, ◌<◌, ◌^◌, [], ◌∷◌, ⊤};
ghost use Rattle.sd_machine.specs.Events.{after, drop_ageing, effect, keeps_ageing};
ghost use Rattle.sd_machine.specs.Needs.{Needs};
ghost use Rattle.sd_step.specs.Touched.{after_parts, touched};
ghost use Rattle.sd_store.specs.Parts.{actor_part};
ghost use Rattle.sd_store.specs.Words.{Does, DoesBy, Lacks, LacksBy};

use sd_dispatcher::{
    dispatched, done, idled, preempted, sent_away, spun, stolen, ticked, woken, yielded,
};
use sd_locks::{blocked, exited, granted, owned, passed, read, unblocked, walk_ended, willed};
use sd_priocntl::{aged, assigned, joined, moved, pbound, reprioritised};
use sd_sleep::{
    cv_waited, fallen_asleep, napped, roused, sema_counted, sema_handed, sema_taken, woke, woke_all,
};
use sd_store::{Chore, Sets, Store, Task};
use sd_types::{CpuId, Event, Work};

/// The event does not end the ageing of a queue.
fn keeps_ageing(event: &Event) -> bool
    ensures { result ≡ keeps_ageing event.now }
{
    matches!(event, Event::Age { .. } | Event::Napend { .. })
}

/// Processor `c` has no queue to age any more, but where the event goes on with that.
#[tactic(auto, using(crate::proofs::Dropped::dropped_by_task))]
fn drop_ageing<S: Store>(x: &mut S, c: CpuId, event: &Event) -> Result<(), S::Lack>
    ensures value { Does (S.shows x.old) (S.shows x.new) result (λ s. ⊤) (λ s. drop_ageing s c.0 event.now) }
    ensures lack { Lacks S.part (S.shows x.old) (S.has x.old) result (λ s. actor_part c ∷ []) }
    ensures has { S.has x.new ≡ S.has x.old }
{
    match x.duty(c)? {
        Task::Age(_) => {
            if keeps_ageing(event) {
                Ok(())
            } else {
                x.set_duty(c, Chore::Nothing)
            }
        }
        _ => Ok(()),
    }
}

/// What entry `number` of processor `c` does to a state in which no ageing is left over.
#[tactic(auto, unfolding(sd_machine::specs::Events::effect))]
fn effect<S: Sets>(
    work: &Work,
    x: &mut S,
    number: u64,
    c: CpuId,
    event: Event,
) -> Result<(), S::Lack>
    requires { number < 2 ^ 62 }
    ensures value { DoesBy number (S.shows x.old) (S.shows x.new) result (λ s. Needs work.now s c event) (λ s. effect work.now s number c event) }
    ensures lack { LacksBy number S.part (S.shows x.old) (S.has x.old) result (λ s. Needs work.now s c event) (λ s. touched work.now s c event) }
    ensures has { S.has x.new ≡ S.has x.old }
{
    match event {
        Event::Tick { t } => ticked(work, x, c, t),
        Event::Spin { t, .. } => spun(work, x, c, t),
        Event::Idle => idled(work, x, c),
        Event::Dispatch { t, .. } => dispatched(x, c, t),
        Event::Steal { t, .. } => stolen(x, c, t),
        Event::Preempt { t, end } => preempted(work, x, number, c, t, end),
        Event::Away { t, cpu } => sent_away(x, number, c, t, cpu),
        Event::Yield { t } => yielded(work, x, number, c, t),
        Event::Done { t } => done(x, number, c, t),
        Event::Nap { t } => napped(work, x, number, c, t),
        Event::Napend { t, at } => woken(work, x, number, t, at),
        Event::Sleep { t, k } => fallen_asleep(work, x, number, c, t, k),
        Event::Wake { t, woken, .. } => woke(work, x, number, t, woken),
        Event::Wakeall { t, k } => woke_all(work, x, number, c, t, k),
        Event::Rouse { k, woken } => roused(work, x, number, c, k, woken),
        Event::Enter { t, l } => owned(work, x, t, l),
        Event::Read { t, l } => read(work, x, t, l),
        Event::Write { t, l } => owned(work, x, t, l),
        Event::Block { t, l } => blocked(work, x, number, c, t, l),
        Event::Will { l, o, at, .. } => willed(work, x, number, c, l, o, at),
        Event::End { .. } => walk_ended(x, c),
        Event::Exit { t, l } => exited(work, x, c, t, l),
        Event::Unblock { l, u, at } => unblocked(work, x, number, c, l, u, at),
        Event::Grant { l, u, at } => granted(work, x, number, c, l, u, at),
        Event::Passed { l } => passed(x, c, l),
        Event::Age { t, .. } => aged(work, x, number, c, t),
        Event::Prio { t, u, answer } => reprioritised(work, x, number, c, t, u, answer),
        Event::CvWait { t, k, l } => cv_waited(work, x, number, c, t, k, l),
        Event::SemaP { t, k } => sema_taken(work, x, t, k),
        Event::SemaWait { t, k } => fallen_asleep(work, x, number, c, t, k),
        Event::SemaVWake { t, u, at, .. } => sema_handed(work, x, number, t, u, at),
        Event::SemaVCount { t, k, .. } => sema_counted(work, x, t, k),
        Event::Assign {
            t,
            cpu,
            set,
            answer,
        } => assigned(work, x, t, cpu, set, answer),
        Event::Move { t, at } => moved(work, x, number, t, at),
        Event::Joined { set } => joined(x, c, set),
        Event::Bind { t, u, cpu, answer } => pbound(work, x, number, t, u, cpu, answer),
    }
}

/// Makes of each state that the store shows, and in which the event has what it needs, the one that follows after entry
/// `number` of processor `c`, with this event. It takes no memory, and lacks nothing but what the event touches.
#[tactic(auto, using(crate::proofs::Dropped::needs_dropped, crate::proofs::Dropped::touched_dropped), unfolding(sd_machine::specs::Events::after))]
pub fn after<S: Sets>(
    work: &Work,
    x: &mut S,
    number: u64,
    c: CpuId,
    event: Event,
) -> Result<(), S::Lack>
    requires { number < 2 ^ 62 }
    ensures value { DoesBy number (S.shows x.old) (S.shows x.new) result (λ s. Needs work.now s c event) (λ s. after work.now s number c event) }
    ensures lack { LacksBy number S.part (S.shows x.old) (S.has x.old) result (λ s. Needs work.now s c event) (λ s. after_parts work.now s c event) }
    ensures has { S.has x.new ≡ S.has x.old }
{
    drop_ageing(x, c, &event)?;
    effect(work, x, number, c, event)
}
