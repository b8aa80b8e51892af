//! Changing a state: the steps of which the events are composed.

ghost use Rattle.std.specs.Prelude.{◌≡◌, [], ◌∷◌, ⊤};
ghost use Rattle.sd_state.specs.States.{thread_of};
ghost use Rattle.sd_machine.specs.Bodies.{ticked_class};
ghost use Rattle.sd_machine.specs.Changes.{finish_op, hold, let_go, run_tick, send_back, set_class, set_looped, set_number};
ghost use Rattle.sd_machine.specs.Needs.{CanFinish, CanHold, CanInherit};
ghost use Rattle.sd_store.specs.Parts.{thread_part};
ghost use Rattle.sd_store.specs.Words.{Does, Keeps, Lacks};

use crate::{BodyChange, Chore, Destination, Look};
use sd_state::LockState;
use sd_types::{ChanId, ClassState, CpuId, LockId, Put, Side, ThreadId, Work};

/// A store of which the state changes. A change that is made is made in every state that is shown, and what it asks of a
/// state is asked of the states alone: no change has a condition on the store. A change that lacks a part is not made: what
/// was shown before still is. What the store has stays.
pub trait Store: Look {
    ghost use Rattle.std.specs.Prelude.{◌≡◌, ◌<◌, ◌^◌, [], ◌∷◌, ⊤};
    ghost use Rattle.sd_types.specs.declared.events.Duty.TheVariants.{Rouse, Walk};
    ghost use Rattle.sd_state.specs.declared.states.Place.TheVariants.{Waiting};
    ghost use Rattle.sd_state.specs.States.{thread_of};
    ghost use Rattle.sd_machine.specs.Changes.{back_key, clear_marks, count_tick, leave, place_put, run_on, set_class, set_duty, set_mark, with_body, with_place};
    ghost use Rattle.sd_machine.specs.Needs.{CanTick, IsThread, RunsNobody, IsLock, RunsOn};
    ghost use Rattle.sd_machine.specs.Threads.{with_lock};
    ghost use Rattle.sd_store.specs.Bodies.{CanChange, changed};
    ghost use Rattle.sd_store.specs.Keyless.{IsDestination, duty_of, place_by};
    ghost use Rattle.sd_store.specs.Parts.{actor_part, chain_part, cpu_part, destination_parts, put_parts, thread_part};
    ghost use Rattle.sd_store.specs.Walks.{walk_begun, walk_gone_on};
    ghost use Rattle.sd_store.specs.Words.{Does, DoesBy, Keeps, Lacks};

    /// Processor `c` has a duty without a key.
    fn set_duty(&mut self, c: CpuId, chore: Chore) -> Result<(), Self::Lack>
        ensures value { Does (Self.shows self.old) (Self.shows self.new) result (λ s. ⊤) (λ s. set_duty s c.0 (duty_of chore)) }
        ensures lack { Lacks Self.part (Self.shows self.old) (Self.has self.old) result (λ s. actor_part c ∷ []) }
        ensures kept { Keeps (Self.shows self.old) (Self.shows self.new) result }
        ensures has { Self.has self.new ≡ Self.has self.old };

    /// By entry `number` processor `c` has the duty to wake all that sleep on channel `k` now.
    fn begin_rouse(&mut self, number: u64, c: CpuId, k: ChanId) -> Result<(), Self::Lack>
        requires { number < 2 ^ 62 }
        ensures value { DoesBy number (Self.shows self.old) (Self.shows self.new) result (λ s. ⊤) (λ s. set_duty s c.0 (Rouse k (back_key number))) }
        ensures lack { Lacks Self.part (Self.shows self.old) (Self.has self.old) result (λ s. actor_part c ∷ []) }
        ensures kept { Keeps (Self.shows self.old) (Self.shows self.new) result }
        ensures has { Self.has self.new ≡ Self.has self.old };

    /// Where thread `t` waits for a lock, processor `c` has the duty to walk on there, seeking it.
    fn begin_walk(&mut self, c: CpuId, t: ThreadId) -> Result<(), Self::Lack>
        ensures value { Does (Self.shows self.old) (Self.shows self.new) result (λ s. ⊤) (λ s. walk_begun s c t) }
        ensures lack { Lacks Self.part (Self.shows self.old) (Self.has self.old) result (λ s. actor_part c ∷ thread_part t ∷ []) }
        ensures kept { Keeps (Self.shows self.old) (Self.shows self.new) result }
        ensures has { Self.has self.new ≡ Self.has self.old };

    /// The walk of processor `c` goes on from the owner `o`, or ends there.
    fn walk_on(&mut self, c: CpuId, o: ThreadId) -> Result<(), Self::Lack>
        ensures value { Does (Self.shows self.old) (Self.shows self.new) result (λ s. ⊤) (λ s. walk_gone_on s c o) }
        ensures lack { Lacks Self.part (Self.shows self.old) (Self.has self.old) result (λ s. actor_part c ∷ thread_part o ∷ []) }
        ensures kept { Keeps (Self.shows self.old) (Self.shows self.new) result }
        ensures has { Self.has self.new ≡ Self.has self.old };

    /// Processor `c` counts a tick. Each second it has the duty to age its queue.
    fn count_tick(&mut self, work: &Work, c: CpuId) -> Result<(), Self::Lack>
        ensures value { Does (Self.shows self.old) (Self.shows self.new) result (λ s. CanTick work.now s c) (λ s. count_tick work.now s c.0) }
        ensures lack { Lacks Self.part (Self.shows self.old) (Self.has self.old) result (λ s. actor_part c ∷ []) }
        ensures kept { Keeps (Self.shows self.old) (Self.shows self.new) result }
        ensures has { Self.has self.new ≡ Self.has self.old };

    /// Clears both marks of processor `c`.
    fn clear_marks(&mut self, c: CpuId) -> Result<(), Self::Lack>
        ensures value { Does (Self.shows self.old) (Self.shows self.new) result (λ s. ⊤) (λ s. clear_marks s c.0) }
        ensures lack { Lacks Self.part (Self.shows self.old) (Self.has self.old) result (λ s. cpu_part c ∷ []) }
        ensures kept { Keeps (Self.shows self.old) (Self.shows self.new) result }
        ensures has { Self.has self.new ≡ Self.has self.old };

    /// Marks processor `c` for the sake of a thread of priority `m`.
    fn set_mark(&mut self, c: CpuId, m: u8) -> Result<(), Self::Lack>
        ensures value { Does (Self.shows self.old) (Self.shows self.new) result (λ s. ⊤) (λ s. set_mark s c.0 m) }
        ensures lack { Lacks Self.part (Self.shows self.old) (Self.has self.old) result (λ s. cpu_part c ∷ []) }
        ensures kept { Keeps (Self.shows self.old) (Self.shows self.new) result }
        ensures has { Self.has self.new ≡ Self.has self.old };

    /// Changes the body of thread `t`, which stays where it is.
    fn change_body(
        &mut self,
        work: &Work,
        t: ThreadId,
        change: BodyChange,
    ) -> Result<(), Self::Lack>
        ensures value { Does (Self.shows self.old) (Self.shows self.new) result (λ s. CanChange work.now t change s) (λ s. with_body s t.0 (changed work.now t.0 change (thread_of s t.0).body)) }
        ensures lack { Lacks Self.part (Self.shows self.old) (Self.has self.old) result (λ s. thread_part t ∷ []) }
        ensures kept { Keeps (Self.shows self.old) (Self.shows self.new) result }
        ensures has { Self.has self.new ≡ Self.has self.old };

    /// Thread `t` runs on processor `c`, on which none runs.
    fn run_on(&mut self, t: ThreadId, c: CpuId) -> Result<(), Self::Lack>
        ensures value { Does (Self.shows self.old) (Self.shows self.new) result (λ s. RunsNobody s c) (λ s. run_on s t.0 c) }
        ensures lack { Lacks Self.part (Self.shows self.old) (Self.has self.old) result (λ s. thread_part t ∷ cpu_part c ∷ []) }
        ensures kept { Keeps (Self.shows self.old) (Self.shows self.new) result }
        ensures has { Self.has self.new ≡ Self.has self.old };

    /// By entry `number` thread `t`, which runs on processor `c`, leaves it.
    fn leave(
        &mut self,
        number: u64,
        c: CpuId,
        t: ThreadId,
        to: Destination,
    ) -> Result<(), Self::Lack>
        requires { number < 2 ^ 62 }
        ensures value { DoesBy number (Self.shows self.old) (Self.shows self.new) result (λ s. RunsOn s t c × IsDestination s to) (λ s. leave s c.0 t.0 (place_by number c to)) }
        ensures lack { Lacks Self.part (Self.shows self.old) (Self.has self.old) result (λ s. actor_part c ∷ cpu_part c ∷ destination_parts to) }
        ensures kept { Keeps (Self.shows self.old) (Self.shows self.new) result }
        ensures has { Self.has self.new ≡ Self.has self.old };

    /// By entry `number` thread `t`, which runs on processor `c`, leaves it to wait for lock `l` at a side, and the processor has the duty to
    /// walk on there, seeking it.
    fn block(
        &mut self,
        number: u64,
        c: CpuId,
        t: ThreadId,
        l: LockId,
        side: Side,
    ) -> Result<(), Self::Lack>
        requires { number < 2 ^ 62 }
        ensures value { DoesBy number (Self.shows self.old) (Self.shows self.new) result (λ s. IsThread s t × RunsOn s t c × IsLock s l) (λ s. set_duty (leave s c.0 t.0 (Waiting l side (back_key number))) c.0 (Walk l t (back_key number))) }
        ensures lack { Lacks Self.part (Self.shows self.old) (Self.has self.old) result (λ s. actor_part c ∷ cpu_part c ∷ chain_part l ∷ []) }
        ensures kept { Keeps (Self.shows self.old) (Self.shows self.new) result }
        ensures has { Self.has self.new ≡ Self.has self.old };

    /// By entry `number` thread `t` goes to the back of a dispatch queue.
    fn enqueue(&mut self, work: &Work, number: u64, t: ThreadId, at: Put) -> Result<(), Self::Lack>
        requires { number < 2 ^ 62 }
        ensures value { DoesBy number (Self.shows self.old) (Self.shows self.new) result (λ s. ⊤) (λ s. with_place s t.0 (place_put work.now number t.0 at)) }
        ensures lack { Lacks Self.part (Self.shows self.old) (Self.has self.old) result (λ s. put_parts work.now t at) }
        ensures kept { Keeps (Self.shows self.old) (Self.shows self.new) result }
        ensures has { Self.has self.new ≡ Self.has self.old };

    /// By entry `number` thread `t` has this class state, and goes to the back of a dispatch queue.
    fn enqueue_as(
        &mut self,
        work: &Work,
        number: u64,
        t: ThreadId,
        class: ClassState,
        at: Put,
    ) -> Result<(), Self::Lack>
        requires { number < 2 ^ 62 }
        ensures value { DoesBy number (Self.shows self.old) (Self.shows self.new) result (λ s. ⊤) (λ s. with_place (set_class s t.0 class) t.0 (place_put work.now number t.0 at)) }
        ensures lack { Lacks Self.part (Self.shows self.old) (Self.has self.old) result (λ s. put_parts work.now t at) }
        ensures kept { Keeps (Self.shows self.old) (Self.shows self.new) result }
        ensures has { Self.has self.new ≡ Self.has self.old };

    /// Changes the state of lock `l`.
    fn set_lock(&mut self, l: LockId, lock: LockState) -> Result<(), Self::Lack>
        ensures value { Does (Self.shows self.old) (Self.shows self.new) result (λ s. IsLock s l) (λ s. with_lock s l.0 lock) }
        ensures lack { Lacks Self.part (Self.shows self.old) (Self.has self.old) result (λ s. chain_part l ∷ []) }
        ensures kept { Keeps (Self.shows self.old) (Self.shows self.new) result }
        ensures has { Self.has self.new ≡ Self.has self.old };
}

/// Thread `t` runs for a tick of its operation, which its class counts.
#[inline(always)]
pub fn tick<S: Store>(x: &mut S, work: &Work, t: ThreadId) -> Result<(), S::Lack>
    ensures value { Does (S.shows x.old) (S.shows x.new) result (λ s. CanFinish work.now s t) (λ s. set_class (run_tick work.now s t.0) t.0 (ticked_class work.now (thread_of s t.0).body.class)) }
    ensures lack { Lacks S.part (S.shows x.old) (S.has x.old) result (λ s. thread_part t ∷ []) }
    ensures kept { Keeps (S.shows x.old) (S.shows x.new) result }
    ensures has { S.has x.new ≡ S.has x.old }
{
    x.change_body(work, t, BodyChange::Tick)
}

/// The operation at which thread `t` stands is over.
#[inline(always)]
#[tactic(auto, unfolding(sd_machine::specs::Changes::finish_op))]
pub fn finish_op<S: Store>(x: &mut S, work: &Work, t: ThreadId) -> Result<(), S::Lack>
    ensures value { Does (S.shows x.old) (S.shows x.new) result (λ s. CanFinish work.now s t) (λ s. finish_op work.now s t.0) }
    ensures lack { Lacks S.part (S.shows x.old) (S.has x.old) result (λ s. thread_part t ∷ []) }
    ensures kept { Keeps (S.shows x.old) (S.shows x.new) result }
    ensures has { S.has x.new ≡ S.has x.old }
{
    x.change_body(work, t, BodyChange::FinishOp)
}

/// Gives thread `t` a class state.
#[inline(always)]
#[tactic(auto, unfolding(sd_machine::specs::Changes::set_class))]
pub fn set_class<S: Store>(
    x: &mut S,
    work: &Work,
    t: ThreadId,
    class: ClassState,
) -> Result<(), S::Lack>
    ensures value { Does (S.shows x.old) (S.shows x.new) result (λ s. ⊤) (λ s. set_class s t.0 class) }
    ensures lack { Lacks S.part (S.shows x.old) (S.has x.old) result (λ s. thread_part t ∷ []) }
    ensures kept { Keeps (S.shows x.old) (S.shows x.new) result }
    ensures has { S.has x.new ≡ S.has x.old }
{
    x.change_body(work, t, BodyChange::Class(class))
}

/// Thread `t` is to go to the back of its queue.
#[inline(always)]
#[tactic(auto, unfolding(sd_machine::specs::Changes::send_back))]
pub fn send_back<S: Store>(x: &mut S, work: &Work, t: ThreadId) -> Result<(), S::Lack>
    ensures value { Does (S.shows x.old) (S.shows x.new) result (λ s. ⊤) (λ s. send_back s t.0) }
    ensures lack { Lacks S.part (S.shows x.old) (S.has x.old) result (λ s. thread_part t ∷ []) }
    ensures kept { Keeps (S.shows x.old) (S.shows x.new) result }
    ensures has { S.has x.new ≡ S.has x.old }
{
    x.change_body(work, t, BodyChange::SendBack)
}

/// Thread `t` holds lock `l`.
#[inline(always)]
#[tactic(auto, unfolding(sd_machine::specs::Changes::hold))]
pub fn hold<S: Store>(x: &mut S, work: &Work, t: ThreadId, l: LockId) -> Result<(), S::Lack>
    ensures value { Does (S.shows x.old) (S.shows x.new) result (λ s. CanHold s t l) (λ s. hold s t.0 l) }
    ensures lack { Lacks S.part (S.shows x.old) (S.has x.old) result (λ s. thread_part t ∷ []) }
    ensures kept { Keeps (S.shows x.old) (S.shows x.new) result }
    ensures has { S.has x.new ≡ S.has x.old }
{
    x.change_body(work, t, BodyChange::Hold(l))
}

/// Thread `t` holds lock `l` no more.
#[inline(always)]
#[tactic(auto, unfolding(sd_machine::specs::Changes::let_go))]
pub fn let_go<S: Store>(x: &mut S, work: &Work, t: ThreadId, l: LockId) -> Result<(), S::Lack>
    ensures value { Does (S.shows x.old) (S.shows x.new) result (λ s. ⊤) (λ s. let_go s t.0 l) }
    ensures lack { Lacks S.part (S.shows x.old) (S.has x.old) result (λ s. thread_part t ∷ []) }
    ensures kept { Keeps (S.shows x.old) (S.shows x.new) result }
    ensures has { S.has x.new ≡ S.has x.old }
{
    x.change_body(work, t, BodyChange::LetGo(l))
}

/// Thread `t` inherits this priority, or none, through lock `l`, which it holds.
#[inline(always)]
#[tactic(auto, unfolding(sd_machine::specs::Changes::set_number))]
pub fn inherit<S: Store>(
    x: &mut S,
    work: &Work,
    t: ThreadId,
    l: LockId,
    number: Option<u8>,
) -> Result<(), S::Lack>
    ensures value { Does (S.shows x.old) (S.shows x.new) result (λ s. CanInherit s t l number) (λ s. set_number s t.0 l number) }
    ensures lack { Lacks S.part (S.shows x.old) (S.has x.old) result (λ s. thread_part t ∷ []) }
    ensures kept { Keeps (S.shows x.old) (S.shows x.new) result }
    ensures has { S.has x.new ≡ S.has x.old }
{
    x.change_body(work, t, BodyChange::Inherit(l, number))
}

/// A walk has come back to thread `t`, or has not.
#[inline(always)]
#[tactic(auto, unfolding(sd_machine::specs::Changes::set_looped))]
pub fn set_looped<S: Store>(
    x: &mut S,
    work: &Work,
    t: ThreadId,
    looped: bool,
) -> Result<(), S::Lack>
    ensures value { Does (S.shows x.old) (S.shows x.new) result (λ s. ⊤) (λ s. set_looped s t.0 looped) }
    ensures lack { Lacks S.part (S.shows x.old) (S.has x.old) result (λ s. thread_part t ∷ []) }
    ensures kept { Keeps (S.shows x.old) (S.shows x.new) result }
    ensures has { S.has x.new ≡ S.has x.old }
{
    x.change_body(work, t, BodyChange::Looped(looped))
}
