//! Looking at a state: what a processor has to know to decide what it does.

use crate::{CpuView, Part, Spot, Task};
use sd_state::LockState;
use sd_types::{ChanId, CpuId, LockId, SetId, Side, ThreadBody, ThreadId};

/// What holds a state, or a part of one. `shows x n s` says that x may stand for the state s after n entries; x may show
/// many states. `has x p` says that it has a part. A look-up says what is so in every state that is shown, or names, by an
/// error, a part that is lacking: one that the store has not, and that the look-up needs in every state that it shows.
///
/// No look-up tells a key. A number that is out of range reads what the definitions of the state say of it.
pub trait Look {
    ghost use Rattle.std.specs.Prelude.{◌≡◌, ℕ, ◌+◌, ◌≤◌, Bool, true, [], ◌∷◌, length, IfOk, option_copied, unwrap_or};
    ghost use Rattle.sd_types.specs.Limits.{most_processors};
    ghost use Rattle.sd_state.specs.declared.states.State.{State};
    ghost use Rattle.sd_state.specs.States.{cpu_of, no_body, thread_of};
    ghost use Rattle.sd_machine.specs.Threads.{best_queued, best_ready, best_sleeper, best_unbound, best_waiter, count_of, first_due, greatest_waiting, has_waiters, lock_of, next_to_age, open_of, priority_of, runner};
    ghost use Rattle.sd_machine.specs.Locking.{others_waiting};
    ghost use Rattle.sd_machine.specs.Walking.{is_back};
    ghost use Rattle.sd_store.specs.declared.parts.Part.{Part as PartOf};
    ghost use Rattle.sd_store.specs.Keyless.{spot_of, task_of};
    ghost use Rattle.sd_store.specs.Parts.{actor_part, chain_part, cpu_part, ready_parts, real_time_part, sleepers_part, thread_part, view_of};
    ghost use Rattle.sd_store.specs.Walks.{next_to_rouse};
    ghost use Rattle.sd_store.specs.Words.{Finds, Lacks, Names, Tells};

    /// What is lacking. A store that lacks nothing has a type without a value here.
    type Lack: Copy;

    /// The part that is lacking.
    ghost part: { Self.Lack → PartOf };

    /// The store may stand for the state after so many entries.
    ghost shows: { Self → ℕ → State → Type 0 };

    /// The store has the part.
    ghost has: { Self → PartOf → Bool };

    /// What stands for a state after n entries stands for it after more, which may be none of it.
    ghost later: { (x : Self) (n : ℕ) (s : State) → shows x n s → shows x (n + 1) s };

    /// The thread that runs on processor `c`.
    fn runner(&self, c: CpuId) -> Result<Option<ThreadId>, Self::Lack>
        ensures value { Names (shows self.now) result (λ s. runner s c.0) }
        ensures lack { Lacks part (shows self.now) (has self.now) result (λ s. cpu_part c ∷ []) }
        ensures found { Finds (has self.now) result };

    /// The effective priority of the thread that runs on processor `c`; None where none runs.
    fn running_priority(&self, c: CpuId) -> Result<Option<u8>, Self::Lack>
        ensures value { Tells (shows self.now) result (λ s. priority_of s (runner s c.0)) }
        ensures lack { Lacks part (shows self.now) (has self.now) result (λ s. cpu_part c ∷ []) };

    /// The best on the queue of processor `c` or on the real-time queue of its partition.
    fn best_ready(&self, c: CpuId) -> Result<Option<ThreadId>, Self::Lack>
        ensures value { Names (shows self.now) result (λ s. best_ready s c.0) }
        ensures lack { Lacks part (shows self.now) (has self.now) result (λ s. ready_parts s c) }
        ensures found { Finds (has self.now) result };

    /// The effective priority of the best on the queue of processor `c` or on the real-time queue of its partition; None where none is ready.
    fn ready_priority(&self, c: CpuId) -> Result<Option<u8>, Self::Lack>
        ensures value { Tells (shows self.now) result (λ s. priority_of s (best_ready s c.0)) }
        ensures lack { Lacks part (shows self.now) (has self.now) result (λ s. ready_parts s c) };

    /// The best on the queue of processor `c` alone.
    fn best_queued(&self, c: CpuId) -> Result<Option<ThreadId>, Self::Lack>
        ensures value { Names (shows self.now) result (λ s. best_queued s c.0) }
        ensures lack { Lacks part (shows self.now) (has self.now) result (λ s. cpu_part c ∷ []) }
        ensures found { Finds (has self.now) result };

    /// The best on the queue of processor `c` that is bound to no processor.
    fn best_unbound(&self, c: CpuId) -> Result<Option<ThreadId>, Self::Lack>
        ensures value { Names (shows self.now) result (λ s. best_unbound s c.0) }
        ensures lack { Lacks part (shows self.now) (has self.now) result (λ s. cpu_part c ∷ []) }
        ensures found { Finds (has self.now) result };

    /// The thread whose nap on processor `c` is over first, where one is over.
    fn first_due(&self, c: CpuId) -> Result<Option<ThreadId>, Self::Lack>
        ensures value { Names (shows self.now) result (λ s. first_due s c.0) }
        ensures lack { Lacks part (shows self.now) (has self.now) result (λ s. actor_part c ∷ cpu_part c ∷ []) }
        ensures found { Finds (has self.now) result };

    /// The least of the time-sharing threads with number `u` or more on the queue of processor `c`.
    fn next_to_age(&self, c: CpuId, u: ThreadId) -> Result<Option<ThreadId>, Self::Lack>
        ensures value { Names (shows self.now) result (λ s. next_to_age s c.0 u.0) }
        ensures lack { Lacks part (shows self.now) (has self.now) result (λ s. cpu_part c ∷ []) }
        ensures found { Finds (has self.now) result };

    /// The best that waits for lock `l` at a side.
    fn best_waiter(&self, l: LockId, side: Side) -> Result<Option<ThreadId>, Self::Lack>
        ensures value { Names (shows self.now) result (λ s. best_waiter s l.0 side) }
        ensures lack { Lacks part (shows self.now) (has self.now) result (λ s. chain_part l ∷ []) }
        ensures found { Finds (has self.now) result };

    /// The best that sleeps on channel `k`.
    fn best_sleeper(&self, k: ChanId) -> Result<Option<ThreadId>, Self::Lack>
        ensures value { Names (shows self.now) result (λ s. best_sleeper s k.0) }
        ensures lack { Lacks part (shows self.now) (has self.now) result (λ s. sleepers_part k ∷ []) }
        ensures found { Finds (has self.now) result };

    /// The best on channel `k` of those that the duty of processor `c` is to wake.
    fn next_to_rouse(&self, c: CpuId, k: ChanId) -> Result<Option<ThreadId>, Self::Lack>
        ensures value { Names (shows self.now) result (λ s. next_to_rouse s c k) }
        ensures lack { Lacks part (shows self.now) (has self.now) result (λ s. actor_part c ∷ sleepers_part k ∷ []) }
        ensures found { Finds (has self.now) result };

    /// Somebody waits for lock `l`, on either side.
    fn has_waiters(&self, l: LockId) -> Result<bool, Self::Lack>
        ensures value { Tells (shows self.now) result (λ s. has_waiters s l.0) }
        ensures lack { Lacks part (shows self.now) (has self.now) result (λ s. chain_part l ∷ []) };

    /// The greatest effective priority of those who wait for lock `l`; None where nobody waits.
    fn greatest_waiting(&self, l: LockId) -> Result<Option<u8>, Self::Lack>
        ensures value { Tells (shows self.now) result (λ s. greatest_waiting l.0 s.threads) }
        ensures lack { Lacks part (shows self.now) (has self.now) result (λ s. chain_part l ∷ []) };

    /// The same of all but thread `u`.
    fn others_waiting(&self, l: LockId, u: ThreadId) -> Result<Option<u8>, Self::Lack>
        ensures value { Tells (shows self.now) result (λ s. others_waiting s l u.0) }
        ensures lack { Lacks part (shows self.now) (has self.now) result (λ s. chain_part l ∷ []) };

    /// The duty of processor `c`.
    fn duty(&self, c: CpuId) -> Result<Task, Self::Lack>
        ensures value { Tells (shows self.now) result (λ s. task_of (cpu_of s c.0).duty) }
        ensures lack { Lacks part (shows self.now) (has self.now) result (λ s. actor_part c ∷ []) };

    /// The count of ticks of processor `c`.
    fn ticks(&self, c: CpuId) -> Result<u32, Self::Lack>
        ensures value { Tells (shows self.now) result (λ s. (cpu_of s c.0).count) }
        ensures lack { Lacks part (shows self.now) (has self.now) result (λ s. actor_part c ∷ []) };

    /// The marks, the set and the bindings of processor `c`.
    fn cpu(&self, c: CpuId) -> Result<CpuView, Self::Lack>
        ensures value { Tells (shows self.now) result (λ s. view_of (cpu_of s c.0)) }
        ensures lack { Lacks part (shows self.now) (has self.now) result (λ s. cpu_part c ∷ []) };

    /// The state of lock `l`.
    fn lock(&self, l: LockId) -> Result<LockState, Self::Lack>
        ensures value { Tells (shows self.now) result (λ s. lock_of s l.0) }
        ensures lack { Lacks part (shows self.now) (has self.now) result (λ s. chain_part l ∷ []) };

    /// The count of semaphore `k`.
    fn tokens(&self, k: ChanId) -> Result<u32, Self::Lack>
        ensures value { Tells (shows self.now) result (λ s. count_of s k.0) }
        ensures lack { Lacks part (shows self.now) (has self.now) result (λ s. sleepers_part k ∷ []) };

    /// Where thread `t` stands.
    fn spot(&self, t: ThreadId) -> Result<Spot, Self::Lack>
        ensures value { Tells (shows self.now) result (λ s. spot_of (thread_of s t.0).place) }
        ensures lack { Lacks part (shows self.now) (has self.now) result (λ s. thread_part t ∷ []) };

    /// The walk of processor `c` has come back, at owner `o`, to the thread that it seeks.
    fn is_back(&self, c: CpuId, o: ThreadId) -> Result<bool, Self::Lack>
        ensures value { Tells (shows self.now) result (λ s. is_back (cpu_of s c.0).duty o (thread_of s o.0).place) }
        ensures lack { Lacks part (shows self.now) (has self.now) result (λ s. actor_part c ∷ thread_part o ∷ []) };

    /// The open processors of set `p`, in rising order: at most 64.
    fn open_cpus(&self, p: SetId) -> Result<&[CpuId], Self::Lack>
        ensures value { IfOk result (λ r. (n : ℕ) (s : State) → shows self.now n s → r.now ≡ open_of s p.0) }
        ensures fits { IfOk result (λ r. length r.now ≤ most_processors) }
        ensures lack { Lacks part (shows self.now) (has self.now) result (λ s. real_time_part p ∷ []) };

    /// The body of thread `t`, None where there is no such thread.
    fn body(&self, t: ThreadId) -> Result<Option<&ThreadBody>, Self::Lack>
        ensures value { IfOk result (λ r. (n : ℕ) (s : State) → shows self.now n s → unwrap_or (option_copied r) no_body ≡ (thread_of s t.0).body) }
        ensures lack { Lacks part (shows self.now) (has self.now) result (λ s. thread_part t ∷ []) };
}
