//! Locks that are passed on: the waiters of a mutex are woken, one after another, and a rwlock goes to a writer, or to one
//! reader after another.
//!
//! Source: Solaris Internals (mutex_vector_exit, rw_exit_wakeup, turnstile_wakeup). That the lock is held by the waiter
//! before it runs is as there; that the waiters are taken one by one is this project's own.

ghost use Rattle.std.specs.Prelude.{◌≡◌, ◌<◌, ◌^◌, [], ◌∷◌, Some, ⊤, option_map, true};
ghost use Rattle.sd_machine.specs.Locking.{grant_reader_plan, grant_writer_plan, granted, granted_to_reader, granted_to_writer, is_eligible, one_reader_more, passed, unblock_plan, unblocked, writer_priority};
ghost use Rattle.sd_machine.specs.Needs.{CanReceive, IsLock, more_fits};
ghost use Rattle.sd_machine.specs.Threads.{best_waiter, priority_of};
ghost use Rattle.sd_state.specs.States.{cpu_of};
ghost use Rattle.sd_locks.specs.Released.{handed_parts, received_parts};
ghost use Rattle.sd_store.specs.Parts.{actor_part, chain_part, found_parts, number, thread_part};
ghost use Rattle.sd_store.specs.Words.{Does, DoesBy, Lacks, LacksBy, LacksIf, Tells};
ghost use Rattle.sd_types.specs.declared.numbers.Side.TheVariants.{Writer};

use crate::eff_as_with;
use crate::entering::owned;
use sd_class::woken_class;
use sd_dispatcher::{class_of, eff_of, priority_of, woken, woken_priority};
use sd_machine::{Placement, Plan};
use sd_state::LockState;
use sd_store::{Chore, Look, Store, Task, finish_op, hold, inherit};
use sd_types::{CpuId, Event, LockId, Put, Side, ThreadId, Work};

/// The best waiter of mutex `l`, where one waits, is woken.
pub fn unblock_plan<L: Look>(
    work: &Work,
    x: &L,
    l: LockId,
    waiter: Option<ThreadId>,
) -> Result<Option<Plan>, L::Lack>
    ensures value { Tells (L.shows x.now) result (λ s. unblock_plan work.now s l (option_map number waiter)) }
    ensures lack { Lacks L.part (L.shows x.now) (L.has x.now) result (λ s. found_parts waiter) }
{
    match waiter {
        None => Ok(None),
        Some(u) => {
            let p = woken_priority(work, x, u)?;
            Ok(Some(Plan::Place(Placement::Unblock { l, u }, p)))
        }
    }
}

/// By entry `number` processor `c` wakes thread `u`, which waited for mutex `l`. With the last one the mutex is free.
#[tactic(auto, using(crate::proofs::Handed::woken_locks), unfolding(sd_machine::specs::Locking::unblocked))]
pub fn unblocked<S: Store>(
    work: &Work,
    x: &mut S,
    number: u64,
    c: CpuId,
    l: LockId,
    u: ThreadId,
    at: Put,
) -> Result<(), S::Lack>
    requires { number < 2 ^ 62 }
    ensures value { DoesBy number (S.shows x.old) (S.shows x.new) result (λ s. IsLock s l) (λ s. unblocked work.now s number c l u.0 at) }
    ensures lack { LacksBy number S.part (S.shows x.old) (S.has x.old) result (λ s. IsLock s l) (λ s. handed_parts work.now c l u at) }
    ensures has { S.has x.new ≡ S.has x.old }
{
    woken(work, x, number, u, at)?;
    if !x.has_waiters(l)? {
        x.set_lock(l, LockState::Free)?;
        x.set_duty(c, Chore::Nothing)?;
    }
    Ok(())
}

/// The effective priority of writer `u` once it owns lock `l`: it inherits the greatest of the waiters that are left.
fn writer_priority<L: Look>(work: &Work, x: &L, l: LockId, u: ThreadId) -> Result<u8, L::Lack>
    ensures value { Tells (L.shows x.now) result (λ s. writer_priority work.now s l u.0) }
    ensures lack { Lacks L.part (L.shows x.now) (L.has x.now) result (λ s. chain_part l ∷ thread_part u ∷ []) }
{
    let class = woken_class(work, class_of(x, u)?);
    eff_as_with(&class, l, x.others_waiting(l, u)?, x, u)
}

/// The rwlock `l` goes to its best writer, where one waits.
pub fn grant_writer_plan<L: Look>(
    work: &Work,
    x: &L,
    l: LockId,
    writer: Option<ThreadId>,
) -> Result<Option<Plan>, L::Lack>
    ensures value { Tells (L.shows x.now) result (λ s. grant_writer_plan work.now s l (option_map number writer)) }
    ensures lack { Lacks L.part (L.shows x.now) (L.has x.now) result (λ s. chain_part l ∷ found_parts writer) }
{
    match writer {
        None => Ok(None),
        Some(u) => {
            let p = writer_priority(work, x, l, u)?;
            Ok(Some(Plan::Place(Placement::Grant { l, u }, p)))
        }
    }
}

/// A reader may have the lock while it is passed on: no writer waits, or its priority is not below the best writer's.
fn is_eligible(reader: Option<u8>, writer: Option<u8>) -> bool
    ensures { result ≡ is_eligible reader writer }
{
    match (reader, writer) {
        (None, _) => false,
        (Some(_), None) => true,
        (Some(r), Some(p)) => p <= r,
    }
}

/// The reader `u` may have lock `l` now.
fn may_read<L: Look>(x: &L, l: LockId, u: ThreadId) -> Result<bool, L::Lack>
    ensures value { Tells (L.shows x.now) result (λ s. is_eligible (priority_of s (Some u.0)) (priority_of s (best_waiter s l.0 Writer))) }
    ensures lack { Lacks L.part (L.shows x.now) (L.has x.now) result (λ s. chain_part l ∷ thread_part u ∷ []) }
{
    let reader = eff_of(x, u)?;
    let writer = priority_of(x, x.best_waiter(l, Side::Writer)?)?;
    Ok(is_eligible(Some(reader), writer))
}

/// The rwlock `l` goes to its best reader where that one may have it, else the passing of readers is over.
pub fn grant_reader_plan<L: Look>(
    work: &Work,
    x: &L,
    l: LockId,
    reader: Option<ThreadId>,
) -> Result<Plan, L::Lack>
    ensures value { Tells (L.shows x.now) result (λ s. grant_reader_plan work.now s l (option_map number reader)) }
    ensures lack { Lacks L.part (L.shows x.now) (L.has x.now) result (λ s. chain_part l ∷ found_parts reader) }
{
    match reader {
        None => Ok(Plan::Make(Event::Passed { l })),
        Some(u) => {
            if may_read(x, l, u)? {
                let p = woken_priority(work, x, u)?;
                Ok(Plan::Place(Placement::Grant { l, u }, p))
            } else {
                Ok(Plan::Make(Event::Passed { l }))
            }
        }
    }
}

/// A lock that is handed over, with one reader more.
fn one_reader_more(lock: LockState) -> LockState
    ensures { more_fits lock ≡ true → result ≡ one_reader_more lock }
{
    match lock {
        LockState::Passing { cpu, readers } => LockState::Passing {
            cpu,
            readers: readers.saturating_add(1),
        },
        other => other,
    }
}

/// By entry `number` thread `u` becomes the owner of rwlock `l`, inherits the greatest priority of the waiters that are
/// left, and wakes up; the duty of processor `c` is over.
#[tactic(auto, using(crate::proofs::Taken::taken_sound, crate::proofs::Taken::taken_held), unfolding(sd_machine::specs::Locking::granted_to_writer, sd_machine::specs::Locking::owned))]
fn granted_to_writer<S: Store>(
    work: &Work,
    x: &mut S,
    number: u64,
    c: CpuId,
    l: LockId,
    u: ThreadId,
    at: Put,
) -> Result<(), S::Lack>
    requires { number < 2 ^ 62 }
    ensures value { DoesBy number (S.shows x.old) (S.shows x.new) result (λ s. IsLock s l × CanReceive work.now s u l) (λ s. granted_to_writer work.now s number c l u.0 at) }
    ensures lack { LacksBy number S.part (S.shows x.old) (S.has x.old) result (λ s. IsLock s l × CanReceive work.now s u l) (λ s. handed_parts work.now c l u at) }
    ensures has { S.has x.new ≡ S.has x.old }
{
    let inherited = x.others_waiting(l, u)?;
    owned(work, x, u, l)?;
    inherit(x, work, u, l, inherited)?;
    woken(work, x, number, u, at)?;
    x.set_duty(c, Chore::Nothing)
}

/// By entry `number` thread `u` holds rwlock `l` as a reader, and wakes up.
#[tactic(auto, using(crate::proofs::Taken::held_inside), unfolding(sd_machine::specs::Locking::granted_to_reader))]
fn granted_to_reader<S: Store>(
    work: &Work,
    x: &mut S,
    number: u64,
    l: LockId,
    u: ThreadId,
    at: Put,
) -> Result<(), S::Lack>
    requires { number < 2 ^ 62 }
    ensures value { DoesBy number (S.shows x.old) (S.shows x.new) result (λ s. IsLock s l × CanReceive work.now s u l) (λ s. granted_to_reader work.now s number l u.0 at) }
    ensures lack { LacksBy number S.part (S.shows x.old) (S.has x.old) result (λ s. IsLock s l × CanReceive work.now s u l) (λ s. received_parts work.now l u at) }
    ensures has { S.has x.new ≡ S.has x.old }
{
    let lock = one_reader_more(x.lock(l)?);
    x.set_lock(l, lock)?;
    hold(x, work, u, l)?;
    finish_op(x, work, u)?;
    woken(work, x, number, u, at)
}

/// By entry `number` processor `c` hands rwlock `l` to thread `u`, as a writer or as a reader by its duty.
pub fn granted<S: Store>(
    work: &Work,
    x: &mut S,
    number: u64,
    c: CpuId,
    l: LockId,
    u: ThreadId,
    at: Put,
) -> Result<(), S::Lack>
    requires { number < 2 ^ 62 }
    ensures value { DoesBy number (S.shows x.old) (S.shows x.new) result (λ s. IsLock s l × CanReceive work.now s u l) (λ s. granted work.now s number c l u.0 at (cpu_of s c.0).duty) }
    ensures lack { LacksBy number S.part (S.shows x.old) (S.has x.old) result (λ s. IsLock s l × CanReceive work.now s u l) (λ s. handed_parts work.now c l u at) }
    ensures has { S.has x.new ≡ S.has x.old }
{
    match x.duty(c)? {
        Task::GrantWriter(_) => granted_to_writer(work, x, number, c, l, u, at),
        _ => granted_to_reader(work, x, number, l, u, at),
    }
}

/// No reader is left to whom processor `c` may give lock `l`: it is the readers' that have it, else the waiting
/// writer's, else free.
#[tactic(auto, unfolding(sd_machine::specs::Locking::passed))]
pub fn passed<S: Store>(x: &mut S, c: CpuId, l: LockId) -> Result<(), S::Lack>
    ensures value { Does (S.shows x.old) (S.shows x.new) result (λ s. IsLock s l) (λ s. passed s c l) }
    ensures lack { LacksIf S.part (S.shows x.old) (S.has x.old) result (λ s. IsLock s l) (λ s. actor_part c ∷ chain_part l ∷ []) }
    ensures has { S.has x.new ≡ S.has x.old }
{
    match x.lock(l)? {
        LockState::Passing { readers, .. } if readers > 0 => {
            x.set_lock(l, LockState::ReadHeld(readers))?;
            x.set_duty(c, Chore::Nothing)
        }
        LockState::Passing { .. } => {
            if x.best_waiter(l, Side::Writer)?.is_some() {
                x.set_duty(c, Chore::GrantWriter(l))
            } else {
                x.set_lock(l, LockState::Free)?;
                x.set_duty(c, Chore::Nothing)
            }
        }
        _ => x.set_duty(c, Chore::Nothing),
    }
}
