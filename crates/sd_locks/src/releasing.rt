//! Locks that are given up: a lock for which nobody waits is free, or has one reader less; else the processor passes it on,
//! and its duty says to whom.
//!
//! Source: Solaris Internals (mutex_exit, rw_exit, turnstile_wakeup).

ghost use Rattle.std.specs.Prelude.{◌≡◌, ℕ, [], ◌∷◌, IfOk};
ghost use Rattle.sd_machine.specs.Locking.{after_owner, after_reader, after_writer, exited, free_or_passed, kind_of, release_from, released, writer_first};
ghost use Rattle.sd_machine.specs.Needs.{CanFinish, IsLock};
ghost use Rattle.sd_machine.specs.Threads.{best_waiter, lock_of, priority_of};
ghost use Rattle.sd_state.specs.declared.states.State.{State};
ghost use Rattle.sd_locks.specs.Released.{Hands, exited_parts, released_parts};
ghost use Rattle.sd_store.specs.Keyless.{duty_of};
ghost use Rattle.sd_store.specs.Parts.{actor_part, chain_part};
ghost use Rattle.sd_store.specs.Words.{Does, Lacks, LacksIf, Tells};
ghost use Rattle.sd_types.specs.Works.{is_mutex};

use sd_dispatcher::{priority_of, remark};
use sd_state::LockState;
use sd_store::{Chore, Look, Store, finish_op, let_go};
use sd_types::{CpuId, LockId, LockKind, Side, ThreadId, Work};

fn is_mutex(work: &Work, l: LockId) -> bool
    ensures { result ≡ is_mutex (kind_of work.now l) }
{
    match work.locks.items().get(l.0 as usize) {
        Some((_, LockKind::Mutex)) => true,
        _ => false,
    }
}

/// The effective priority of the best waiter of lock `l` at a side.
fn best_priority<L: Look>(x: &L, l: LockId, side: Side) -> Result<Option<u8>, L::Lack>
    ensures value { Tells (L.shows x.now) result (λ s. priority_of s (best_waiter s l.0 side)) }
    ensures lack { Lacks L.part (L.shows x.now) (L.has x.now) result (λ s. chain_part l ∷ []) }
{
    let best = x.best_waiter(l, side)?;
    priority_of(x, best)
}

/// The best writer goes before the best reader: no reader waits, or its priority is greater.
fn writer_first(writer: Option<u8>, reader: Option<u8>) -> bool
    ensures { result ≡ writer_first writer reader }
{
    match (writer, reader) {
        (None, reader) => reader.is_none(),
        (Some(_), None) => true,
        (Some(p), Some(r)) => r < p,
    }
}

/// To whom a rwlock goes that its writer gives up.
fn after_writer<L: Look>(x: &L, l: LockId) -> Result<Chore, L::Lack>
    ensures value { Hands (L.shows x.now) result (λ s. after_writer s l) }
    ensures lack { Lacks L.part (L.shows x.now) (L.has x.now) result (λ s. chain_part l ∷ []) }
{
    let writer = best_priority(x, l, Side::Writer)?;
    let reader = best_priority(x, l, Side::Reader)?;
    if writer_first(writer, reader) {
        Ok(Chore::GrantWriter(l))
    } else {
        Ok(Chore::GrantReaders(l))
    }
}

/// To whom a rwlock goes that its last reader gives up.
fn after_reader<L: Look>(x: &L, l: LockId) -> Result<Chore, L::Lack>
    ensures value { Hands (L.shows x.now) result (λ s. after_reader s l) }
    ensures lack { Lacks L.part (L.shows x.now) (L.has x.now) result (λ s. chain_part l ∷ []) }
{
    if x.best_waiter(l, Side::Writer)?.is_some() {
        Ok(Chore::GrantWriter(l))
    } else {
        Ok(Chore::GrantReaders(l))
    }
}

/// To whom a lock goes that its owner gives up.
fn after_owner<L: Look>(work: &Work, x: &L, l: LockId) -> Result<Chore, L::Lack>
    ensures value { Hands (L.shows x.now) result (λ s. after_owner work.now s l) }
    ensures lack { Lacks L.part (L.shows x.now) (L.has x.now) result (λ s. chain_part l ∷ []) }
{
    if is_mutex(work, l) {
        Ok(Chore::WakeMutex(l))
    } else {
        after_writer(x, l)
    }
}

/// The lock is free where nobody waits; else processor `c` passes it on.
fn free_or_passed<S: Store>(x: &mut S, c: CpuId, l: LockId, chore: Chore) -> Result<(), S::Lack>
    ensures value { Does (S.shows x.old) (S.shows x.new) result (λ s. IsLock s l) (λ s. free_or_passed s c l (duty_of chore)) }
    ensures lack { LacksIf S.part (S.shows x.old) (S.has x.old) result (λ s. IsLock s l) (λ s. actor_part c ∷ chain_part l ∷ []) }
    ensures has { S.has x.new ≡ S.has x.old }
{
    if x.has_waiters(l)? {
        x.set_lock(l, LockState::Passing { cpu: c, readers: 0 })?;
        x.set_duty(c, chore)
    } else {
        x.set_lock(l, LockState::Free)
    }
}

/// A hold of lock `l` is given up: that of its owner, or one of its readers'.
fn release_from<S: Store>(work: &Work, x: &mut S, c: CpuId, l: LockId) -> Result<(), S::Lack>
    ensures value { Does (S.shows x.old) (S.shows x.new) result (λ s. IsLock s l) (λ s. release_from work.now s c l (lock_of s l.0)) }
    ensures lack { LacksIf S.part (S.shows x.old) (S.has x.old) result (λ s. IsLock s l) (λ s. actor_part c ∷ chain_part l ∷ []) }
    ensures has { S.has x.new ≡ S.has x.old }
{
    match x.lock(l)? {
        LockState::Free => Ok(()),
        LockState::Owned(_) => {
            let chore = after_owner(work, x, l)?;
            free_or_passed(x, c, l, chore)
        }
        LockState::ReadHeld(n) if n <= 1 => {
            let chore = after_reader(x, l)?;
            free_or_passed(x, c, l, chore)
        }
        LockState::ReadHeld(n) => x.set_lock(l, LockState::ReadHeld(n - 1)),
        LockState::Passing { cpu, readers } => x.set_lock(
            l,
            LockState::Passing {
                cpu,
                readers: readers.saturating_sub(1),
            },
        ),
    }
}

/// Thread `t` gives up lock `l`, and with it what it inherits from the waiters. Where somebody waits, processor `c` has the
/// duty to pass the lock on.
#[tactic(auto, unfolding(sd_machine::specs::Locking::released))]
pub fn released<S: Store>(
    work: &Work,
    x: &mut S,
    c: CpuId,
    t: ThreadId,
    l: LockId,
) -> Result<(), S::Lack>
    ensures value { Does (S.shows x.old) (S.shows x.new) result (λ s. IsLock s l) (λ s. released work.now s c t.0 l) }
    ensures lack { LacksIf S.part (S.shows x.old) (S.has x.old) result (λ s. IsLock s l) (λ s. released_parts c t l) }
    ensures has { S.has x.new ≡ S.has x.old }
{
    release_from(work, x, c, l)?;
    let_go(x, work, t, l)
}

/// Thread `t`, which runs on processor `c`, gives up lock `l`, and its operation is over. Its priority may have fallen below
/// that of a thread that is ready there.
#[tactic(auto, using(crate::proofs::GivenUp::released_inside, crate::proofs::GivenUp::exited_set), unfolding(sd_machine::specs::Locking::exited))]
pub fn exited<S: Store>(
    work: &Work,
    x: &mut S,
    c: CpuId,
    t: ThreadId,
    l: LockId,
) -> Result<(), S::Lack>
    ensures value { Does (S.shows x.old) (S.shows x.new) result (λ s. IsLock s l × CanFinish work.now s t) (λ s. exited work.now s c t.0 l) }
    ensures lack { LacksIf S.part (S.shows x.old) (S.has x.old) result (λ s. IsLock s l × CanFinish work.now s t) (λ s. exited_parts s c t l) }
    ensures has { S.has x.new ≡ S.has x.old }
{
    released(work, x, c, t, l)?;
    finish_op(x, work, t)?;
    remark(x, c)
}
