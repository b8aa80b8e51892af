//! Locks that are wanted: when a thread takes a lock, when it spins and when it blocks, and what then happens.
//!
//! A thread spins where it may hope for the lock soon: at a mutex while the owner runs on some processor, and at any lock
//! while a processor passes it on. It keeps its operation and its processor, uses its quantum up as if it ran, and after
//! each tick asks again. Else it blocks: it leaves its processor for the turnstile of the lock, and the processor walks along
//! the chain of owners, so that they inherit its priority.
//!
//! Source: Solaris Internals (mutex_enter, mutex_vector_enter, rw_enter, turnstile_block).

ghost use Rattle.std.specs.Prelude.{◌≡◌, ◌<◌, ◌^◌, [], ◌∷◌, true};
ghost use Rattle.sd_machine.specs.Locking.{blocked, enter_event, one_more, owned, owner_runs, read, read_event, side_of, write_event};
ghost use Rattle.sd_machine.specs.Needs.{CanFinish, CanHold, IsLock, IsThread, RunsOn, more_fits};
ghost use Rattle.sd_machine.specs.Threads.{lock_of};
ghost use Rattle.sd_store.specs.Parts.{actor_part, chain_part, cpu_part, owner_parts, thread_part};
ghost use Rattle.sd_store.specs.Words.{Does, DoesBy, Lacks, LacksBy, LacksIf, Tells};

use sd_dispatcher::op_of;
use sd_state::LockState;
use sd_store::{Look, Spot, Store, finish_op, hold};
use sd_types::{CpuId, Event, LockId, Op, Side, ThreadId, Work};

/// The owner of a mutex runs on some processor.
fn owner_runs<L: Look>(x: &L, o: ThreadId) -> Result<bool, L::Lack>
    ensures value { Tells (L.shows x.now) result (λ s. owner_runs s o) }
    ensures lack { Lacks L.part (L.shows x.now) (L.has x.now) result (λ s. thread_part o ∷ []) }
{
    Ok(matches!(x.spot(o)?, Spot::Running(_)))
}

/// Thread `t` takes the mutex `l`, which is in a state, where it is free; it spins while the owner runs or the waiters are
/// woken, and else blocks.
pub fn enter_event<L: Look>(
    x: &L,
    t: ThreadId,
    l: LockId,
    lock: LockState,
) -> Result<Event, L::Lack>
    ensures value { Tells (L.shows x.now) result (λ s. enter_event s t.0 l lock) }
    ensures lack { Lacks L.part (L.shows x.now) (L.has x.now) result (λ s. owner_parts lock) }
{
    Ok(match lock {
        LockState::Free => Event::Enter { t, l },
        LockState::Owned(o) => {
            if owner_runs(x, o)? {
                Event::Spin { t, l }
            } else {
                Event::Block { t, l }
            }
        }
        LockState::ReadHeld(_) => Event::Block { t, l },
        LockState::Passing { .. } => Event::Spin { t, l },
    })
}

/// Thread `t` reads the rwlock `l`, which is in a state, where it is free, or held by readers and no writer waits; it spins
/// while the lock is handed over, and else blocks.
pub fn read_event<L: Look>(x: &L, t: ThreadId, l: LockId, lock: LockState) -> Result<Event, L::Lack>
    ensures value { Tells (L.shows x.now) result (λ s. read_event s t.0 l lock) }
    ensures lack { Lacks L.part (L.shows x.now) (L.has x.now) result (λ s. chain_part l ∷ []) }
{
    Ok(match lock {
        LockState::Free => Event::Read { t, l },
        LockState::Owned(_) => Event::Block { t, l },
        LockState::ReadHeld(_) => {
            if x.best_waiter(l, Side::Writer)?.is_none() {
                Event::Read { t, l }
            } else {
                Event::Block { t, l }
            }
        }
        LockState::Passing { .. } => Event::Spin { t, l },
    })
}

/// Thread `t` writes the rwlock `l`, which is in a state, where it is free; it spins while the lock is handed over, and
/// else blocks.
pub fn write_event(t: ThreadId, l: LockId, lock: LockState) -> Event
    ensures { result ≡ write_event t.0 l lock }
{
    match lock {
        LockState::Free => Event::Write { t, l },
        LockState::Passing { .. } => Event::Spin { t, l },
        _ => Event::Block { t, l },
    }
}

/// Thread `t` owns the free lock `l`, as a mutex or for writing, and its operation is over.
#[tactic(auto, using(crate::proofs::Taken::held_inside), unfolding(sd_machine::specs::Locking::owned))]
pub fn owned<S: Store>(work: &Work, x: &mut S, t: ThreadId, l: LockId) -> Result<(), S::Lack>
    ensures value { Does (S.shows x.old) (S.shows x.new) result (λ s. IsLock s l × CanHold s t l × CanFinish work.now s t) (λ s. owned work.now s t.0 l) }
    ensures lack { LacksIf S.part (S.shows x.old) (S.has x.old) result (λ s. IsLock s l × CanHold s t l × CanFinish work.now s t) (λ s. chain_part l ∷ thread_part t ∷ []) }
    ensures has { S.has x.new ≡ S.has x.old }
{
    x.set_lock(l, LockState::Owned(t))?;
    hold(x, work, t, l)?;
    finish_op(x, work, t)
}

/// A lock that is free or held by readers, with one reader more.
fn one_more(lock: LockState) -> LockState
    ensures { more_fits lock ≡ true → result ≡ one_more lock }
{
    match lock {
        LockState::ReadHeld(n) => LockState::ReadHeld(n.saturating_add(1)),
        _ => LockState::ReadHeld(1),
    }
}

/// Thread `t` holds lock `l` as one of its readers, and its operation is over.
#[tactic(auto, using(crate::proofs::Taken::held_inside), unfolding(sd_machine::specs::Locking::read))]
pub fn read<S: Store>(work: &Work, x: &mut S, t: ThreadId, l: LockId) -> Result<(), S::Lack>
    ensures value { Does (S.shows x.old) (S.shows x.new) result (λ s. IsLock s l × CanHold s t l × CanFinish work.now s t × (more_fits (lock_of s l.0) ≡ true)) (λ s. read work.now s t.0 l) }
    ensures lack { LacksIf S.part (S.shows x.old) (S.has x.old) result (λ s. IsLock s l × CanHold s t l × CanFinish work.now s t × (more_fits (lock_of s l.0) ≡ true)) (λ s. chain_part l ∷ thread_part t ∷ []) }
    ensures has { S.has x.new ≡ S.has x.old }
{
    let lock = one_more(x.lock(l)?);
    x.set_lock(l, lock)?;
    hold(x, work, t, l)?;
    finish_op(x, work, t)
}

/// The side at which an operation waits; for a mutex it is the writers'.
fn side_of(op: Option<Op>) -> Side
    ensures { result ≡ side_of op }
{
    match op {
        Some(Op::Read(_)) => Side::Reader,
        _ => Side::Writer,
    }
}

/// By entry `number` thread `t`, which runs on processor `c`, waits for lock `l`, and the processor begins a walk there.
#[tactic(auto, unfolding(sd_machine::specs::Locking::blocked))]
pub fn blocked<S: Store>(
    work: &Work,
    x: &mut S,
    number: u64,
    c: CpuId,
    t: ThreadId,
    l: LockId,
) -> Result<(), S::Lack>
    requires { number < 2 ^ 62 }
    ensures value { DoesBy number (S.shows x.old) (S.shows x.new) result (λ s. IsThread s t × RunsOn s t c × IsLock s l) (λ s. blocked work.now s number c t.0 l) }
    ensures lack { LacksBy number S.part (S.shows x.old) (S.has x.old) result (λ s. IsThread s t × RunsOn s t c × IsLock s l) (λ s. actor_part c ∷ cpu_part c ∷ chain_part l ∷ thread_part t ∷ []) }
    ensures has { S.has x.new ≡ S.has x.old }
{
    let side = side_of(op_of(work, x, t)?);
    x.block(number, c, t, l, side)
}
