//! Threads that run on a processor and leave it: tick, spin, idle, dispatch, steal, preempt, away, yield, done.
//!
//! Source: Solaris Internals (clock_tick, disp, preempt, yield), ts_dptbl(4).

ghost use Rattle.std.specs.Prelude.{◌≡◌, ◌<◌, ◌^◌, [], ◌∷◌, ⊤, option_copied, true, unwrap_or};
ghost use Rattle.sd_machine.specs.Changes.{key_at, leave, set_class};
ghost use Rattle.sd_rules.specs.ClassRules.{class_expires};
ghost use Rattle.sd_machine.specs.Dispatching.{charge, class_counts, dispatched, done, idled, preempted, sent_away, spun, stolen, ticked, yielded};
ghost use Rattle.sd_machine.specs.Needs.{CanFinish, CanTick, RunsNobody, RunsOn};
ghost use Rattle.sd_state.specs.States.{no_body, thread_of, set_of};
ghost use Rattle.sd_dispatcher.specs.Touched.{leaving_parts, queue_for};
ghost use Rattle.sd_store.specs.Parts.{actor_part, cpu_part, ready_parts, real_time_part, thread_part};
ghost use Rattle.sd_store.specs.Words.{Does, DoesBy, Lacks, LacksBy, LacksIf};

use crate::bodies::{bound_in, class_in, class_of, eff_of, effective_in, expires_of};
use crate::marks::mark_over;
use sd_class::{class_expires, class_requeue, ticked_class};
use sd_store::{Destination, Store, finish_op, send_back, set_class, set_of, tick};
use sd_types::{CpuId, End, REAL_TIME_PRIORITY, ThreadBody, ThreadId, Work};

/// The quantum of thread `t` has expired: where something that is ready has at least its priority, the thread is to go to the back, and
/// processor `c` is marked.
#[tactic(auto, unfolding(sd_machine::specs::Dispatching::charge))]
#[inline(never)]
fn expired<S: Store>(work: &Work, x: &mut S, c: CpuId, t: ThreadId) -> Result<(), S::Lack>
    ensures value { Does (S.shows x.old) (S.shows x.new) result (λ s. ⊤) (λ s. charge s c.0 t.0 true) }
    ensures lack { Lacks S.part (S.shows x.old) (S.has x.old) result (λ s. thread_part t ∷ ready_parts s c) }
    ensures has { S.has x.new ≡ S.has x.old }
{
    if let Some(m) = x.ready_priority(c)? {
        if eff_of(x, t)? <= m {
            send_back(x, work, t)?;
            x.set_mark(c, m)?;
        }
    }
    Ok(())
}

/// The same where the quantum has expired. Most ticks end none, and go on at once.
#[tactic(auto, unfolding(sd_machine::specs::Dispatching::charge))]
#[inline(always)]
fn charge<S: Store>(
    work: &Work,
    x: &mut S,
    c: CpuId,
    t: ThreadId,
    expires: bool,
) -> Result<(), S::Lack>
    ensures value { Does (S.shows x.old) (S.shows x.new) result (λ s. ⊤) (λ s. charge s c.0 t.0 expires) }
    ensures lack { Lacks S.part (S.shows x.old) (S.has x.old) result (λ s. thread_part t ∷ ready_parts s c) }
    ensures has { S.has x.new ≡ S.has x.old }
{
    if expires {
        // Told anew, so that a tick that ends no quantum makes no place for the answer of the call.
        return match expired(work, x, c, t) {
            Err(lack) => Err(lack),
            Ok(()) => Ok(()),
        };
    }
    Ok(())
}

/// The class of thread `t` counts a tick.
#[tactic(auto, using(crate::proofs::RunningLemmas::ready_classed))]
#[inline(always)]
fn class_counts<S: Store>(work: &Work, x: &mut S, c: CpuId, t: ThreadId) -> Result<(), S::Lack>
    ensures value { Does (S.shows x.old) (S.shows x.new) result (λ s. ⊤) (λ s. class_counts work.now s c.0 t.0) }
    ensures lack { Lacks S.part (S.shows x.old) (S.has x.old) result (λ s. thread_part t ∷ ready_parts s c) }
    ensures has { S.has x.new ≡ S.has x.old }
{
    let class = class_of(x, t)?;
    set_class(x, work, t, ticked_class(work, class))?;
    charge(work, x, c, t, class_expires(&class))
}

/// Thread `t` runs for a tick on processor `c`, of which it was seen before whether that ends its quantum.
#[tactic(auto, using(crate::proofs::RunningLemmas::counted_finish, crate::proofs::RunningLemmas::ready_ticked))]
#[inline(always)]
pub fn ticked_as<S: Store>(
    work: &Work,
    x: &mut S,
    c: CpuId,
    t: ThreadId,
    expires: bool,
) -> Result<(), S::Lack>
    ensures value { Does (S.shows x.old) (S.shows x.new) result (λ s. CanTick work.now s c × CanFinish work.now s t × (expires ≡ class_expires (thread_of s t.0).body.class)) (λ s. ticked work.now s c.0 t.0) }
    ensures lack { LacksIf S.part (S.shows x.old) (S.has x.old) result (λ s. CanTick work.now s c × CanFinish work.now s t × (expires ≡ class_expires (thread_of s t.0).body.class)) (λ s. actor_part c ∷ thread_part t ∷ ready_parts s c) }
    ensures has { S.has x.new ≡ S.has x.old }
{
    x.count_tick(work, c)?;
    tick(x, work, t)?;
    charge(work, x, c, t, expires)
}

/// Thread `t` runs for a tick on processor `c`. Whether that ends its quantum is read first.
#[inline(always)]
pub fn ticked<S: Store>(work: &Work, x: &mut S, c: CpuId, t: ThreadId) -> Result<(), S::Lack>
    ensures value { Does (S.shows x.old) (S.shows x.new) result (λ s. CanTick work.now s c × CanFinish work.now s t) (λ s. ticked work.now s c.0 t.0) }
    ensures lack { LacksIf S.part (S.shows x.old) (S.has x.old) result (λ s. CanTick work.now s c × CanFinish work.now s t) (λ s. actor_part c ∷ thread_part t ∷ ready_parts s c) }
    ensures has { S.has x.new ≡ S.has x.old }
{
    let expires = expires_of(x, t)?;
    ticked_as(work, x, c, t, expires)
}

/// Thread `t` spins for a tick on processor `c`.
#[tactic(auto, using(crate::proofs::RunningLemmas::ready_counted), unfolding(sd_machine::specs::Dispatching::spun))]
pub fn spun<S: Store>(work: &Work, x: &mut S, c: CpuId, t: ThreadId) -> Result<(), S::Lack>
    ensures value { Does (S.shows x.old) (S.shows x.new) result (λ s. CanTick work.now s c) (λ s. spun work.now s c.0 t.0) }
    ensures lack { LacksIf S.part (S.shows x.old) (S.has x.old) result (λ s. CanTick work.now s c) (λ s. actor_part c ∷ thread_part t ∷ ready_parts s c) }
    ensures has { S.has x.new ≡ S.has x.old }
{
    x.count_tick(work, c)?;
    class_counts(work, x, c, t)
}

/// Processor `c` is idle for a tick.
#[tactic(auto, unfolding(sd_machine::specs::Dispatching::idled))]
pub fn idled<S: Store>(work: &Work, x: &mut S, c: CpuId) -> Result<(), S::Lack>
    ensures value { Does (S.shows x.old) (S.shows x.new) result (λ s. CanTick work.now s c) (λ s. idled work.now s c.0) }
    ensures lack { Lacks S.part (S.shows x.old) (S.has x.old) result (λ s. actor_part c ∷ []) }
    ensures has { S.has x.new ≡ S.has x.old }
{
    x.count_tick(work, c)
}

/// Processor `c` takes thread `t` from its queue, and runs it.
#[tactic(auto, using(crate::proofs::RunningLemmas::free_unmarked), unfolding(sd_machine::specs::Dispatching::dispatched))]
pub fn dispatched<S: Store>(x: &mut S, c: CpuId, t: ThreadId) -> Result<(), S::Lack>
    ensures value { Does (S.shows x.old) (S.shows x.new) result (λ s. RunsNobody s c) (λ s. dispatched s c t.0) }
    ensures lack { Lacks S.part (S.shows x.old) (S.has x.old) result (λ s. thread_part t ∷ cpu_part c ∷ []) }
    ensures has { S.has x.new ≡ S.has x.old }
{
    x.clear_marks(c)?;
    x.run_on(t, c)
}

/// Processor `c` runs thread `t`, which it took from the queue of another one.
#[tactic(auto, unfolding(sd_machine::specs::Dispatching::stolen))]
pub fn stolen<S: Store>(x: &mut S, c: CpuId, t: ThreadId) -> Result<(), S::Lack>
    ensures value { Does (S.shows x.old) (S.shows x.new) result (λ s. RunsNobody s c) (λ s. stolen s c t.0) }
    ensures lack { Lacks S.part (S.shows x.old) (S.has x.old) result (λ s. thread_part t ∷ cpu_part c ∷ []) }
    ensures has { S.has x.new ≡ S.has x.old }
{
    x.run_on(t, c)
}

/// By entry `number` thread `t` of priority `p`, which runs on processor `c`, leaves it for an end of its queue: of the
/// real-time queue of its partition from priority 100 on, unless it is bound, and else of that processor's own.
fn left_for_queue<S: Store>(
    work: &Work,
    x: &mut S,
    number: u64,
    c: CpuId,
    t: ThreadId,
    end: End,
    p: u8,
    bound: Option<CpuId>,
) -> Result<(), S::Lack>
    requires { number < 2 ^ 62 }
    ensures value { DoesBy number (S.shows x.old) (S.shows x.new) result (λ s. RunsOn s t c) (λ s. leave s c.0 t.0 (queue_for work.now t.0 c (key_at number end) p bound)) }
    ensures lack { LacksBy number S.part (S.shows x.old) (S.has x.old) result (λ s. RunsOn s t c) (λ s. actor_part c ∷ cpu_part c ∷ real_time_part (set_of work.now t.0) ∷ []) }
    ensures has { S.has x.new ≡ S.has x.old }
{
    if p >= REAL_TIME_PRIORITY && bound.is_none() {
        x.leave(number, c, t, Destination::RealTime(set_of(work, t), end))
    } else {
        x.leave(number, c, t, Destination::Queue(c, end))
    }
}

/// The quantum of the thread of a body has expired.
#[inline(always)]
fn back(body: Option<&ThreadBody>) -> bool
    ensures { result ≡ (unwrap_or (option_copied body.entry) no_body).back }
{
    match body {
        Some(body) => body.back,
        None => false,
    }
}

/// By entry `number` thread `t` leaves processor `c` for an end of the queue of its priority. Its class is queued again, at the back where its
/// quantum has expired. All that goes by the thread as it was is told by its body before, which is looked up once.
#[tactic(auto, using(crate::proofs::RunningLemmas::runs_classed), unfolding(sd_machine::specs::Dispatching::preempted))]
pub fn preempted<S: Store>(
    work: &Work,
    x: &mut S,
    number: u64,
    c: CpuId,
    t: ThreadId,
    end: End,
) -> Result<(), S::Lack>
    requires { number < 2 ^ 62 }
    ensures value { DoesBy number (S.shows x.old) (S.shows x.new) result (λ s. RunsOn s t c) (λ s. preempted work.now s number c t.0 end) }
    ensures lack { LacksBy number S.part (S.shows x.old) (S.has x.old) result (λ s. RunsOn s t c) (λ s. leaving_parts work.now t c) }
    ensures has { S.has x.new ≡ S.has x.old }
{
    let body = x.body(t)?;
    let p = effective_in(body);
    let bound = bound_in(body);
    let class = class_requeue(back(body), class_in(body));
    set_class(x, work, t, class)?;
    left_for_queue(work, x, number, c, t, end, p, bound)
}

/// By entry `number` thread `t` leaves processor `c` for the back of the queue of the processor to which it is bound.
#[tactic(auto, unfolding(sd_machine::specs::Dispatching::sent_away))]
pub fn sent_away<S: Store>(
    x: &mut S,
    number: u64,
    c: CpuId,
    t: ThreadId,
    d: CpuId,
) -> Result<(), S::Lack>
    requires { number < 2 ^ 62 }
    ensures value { DoesBy number (S.shows x.old) (S.shows x.new) result (λ s. RunsOn s t c) (λ s. sent_away s number c t.0 d) }
    ensures lack { LacksBy number S.part (S.shows x.old) (S.has x.old) result (λ s. RunsOn s t c) (λ s. actor_part c ∷ thread_part t ∷ cpu_part c ∷ cpu_part d ∷ []) }
    ensures has { S.has x.new ≡ S.has x.old }
{
    let m = eff_of(x, t)?;
    x.leave(number, c, t, Destination::Queue(d, End::Back))?;
    mark_over(x, d, m)
}

/// By entry `number` thread `t` leaves processor `c` for the back of the queue of its priority, its operation over. It is over before the thread
/// leaves, since a running thread changes where it stands.
#[tactic(auto, using(crate::proofs::Finished::runs_finished))]
pub fn yielded<S: Store>(
    work: &Work,
    x: &mut S,
    number: u64,
    c: CpuId,
    t: ThreadId,
) -> Result<(), S::Lack>
    requires { number < 2 ^ 62 }
    ensures value { DoesBy number (S.shows x.old) (S.shows x.new) result (λ s. RunsOn s t c × CanFinish work.now s t) (λ s. yielded work.now s number c t.0) }
    ensures lack { LacksBy number S.part (S.shows x.old) (S.has x.old) result (λ s. RunsOn s t c × CanFinish work.now s t) (λ s. leaving_parts work.now t c) }
    ensures has { S.has x.new ≡ S.has x.old }
{
    let body = x.body(t)?;
    let p = effective_in(body);
    let bound = bound_in(body);
    finish_op(x, work, t)?;
    left_for_queue(work, x, number, c, t, End::Back, p, bound)
}

/// By entry `number` thread `t` has ended, and leaves processor `c`.
#[tactic(auto, unfolding(sd_machine::specs::Dispatching::done))]
pub fn done<S: Store>(x: &mut S, number: u64, c: CpuId, t: ThreadId) -> Result<(), S::Lack>
    requires { number < 2 ^ 62 }
    ensures value { DoesBy number (S.shows x.old) (S.shows x.new) result (λ s. RunsOn s t c) (λ s. done s c t.0) }
    ensures lack { LacksBy number S.part (S.shows x.old) (S.has x.old) result (λ s. RunsOn s t c) (λ s. actor_part c ∷ cpu_part c ∷ []) }
    ensures has { S.has x.new ≡ S.has x.old }
{
    x.leave(number, c, t, Destination::Nowhere)
}
