//! What sentences ask of the state before their entry, whoever keeps it: homes to which entries led, or the state as one value.

ghost use Rattle.std.specs.Prelude.{◌≡◌, ⊤};
ghost use Rattle.sd_world.specs.Plain.{Stands, told};

use sd_flat::cpu_of;
use sd_homes_replay::{body_of, count_of, greatest_waiting, has_waiters, lock_of, tokens_of};
use sd_state::{LockState, State};
use sd_types::{ChanId, CpuId, LockId, ThreadBody, ThreadId};
use sd_world::PlainWorld;

/// What can be asked of a state. A number that is out of range reads what the definitions of the state say of it.
pub trait Scene {
    ghost use Rattle.std.specs.Prelude.{◌≡◌, option_copied, unwrap_or};
    ghost use Rattle.sd_state.specs.declared.states.State.{State as StateValue};
    ghost use Rattle.sd_state.specs.States.{cpu_of, no_body, thread_of};
    ghost use Rattle.sd_machine.specs.Threads.{count_of, greatest_waiting, has_waiters, lock_of};

    /// The state.
    ghost state: { Self → StateValue };

    /// It stands for that state.
    ghost good: { Self → Type 0 };

    /// The state of lock `l`.
    fn lock(&self, l: LockId) -> LockState
        requires good { good self.now }
        ensures { result ≡ lock_of (state self.now) l.0 };

    /// Somebody waits for lock `l`.
    fn waits(&self, l: LockId) -> bool
        requires good { good self.now }
        ensures { result ≡ has_waiters (state self.now) l.0 };

    /// The greatest effective priority of those who wait for lock `l`; None where nobody waits.
    fn greatest(&self, l: LockId) -> Option<u8>
        requires good { good self.now }
        ensures { result ≡ greatest_waiting l.0 (state self.now).threads };

    /// The count of semaphore `k`.
    fn tokens(&self, k: ChanId) -> u32
        requires good { good self.now }
        ensures { result ≡ count_of (state self.now) k.0 };

    /// The body of thread `t`; None where there is no such thread.
    fn body(&self, t: ThreadId) -> Option<&ThreadBody>
        requires good { good self.now }
        ensures { unwrap_or (option_copied result) no_body ≡ (thread_of (state self.now) t.0).body };

    /// The ticks that processor `c` has counted.
    fn ticks(&self, c: CpuId) -> u32
        requires good { good self.now }
        ensures { result ≡ (cpu_of (state self.now) c.0).count };
}

impl Scene for State {
    ghost state = { λ s. s };

    ghost good = { λ s. ⊤ };

    fn lock(&self, l: LockId) -> LockState {
        self.locks
            .items()
            .get(l.0 as usize)
            .copied()
            .unwrap_or(LockState::Free)
    }

    fn waits(&self, l: LockId) -> bool {
        sd_flat::has_waiters(self, l)
    }

    fn greatest(&self, l: LockId) -> Option<u8> {
        sd_flat::greatest_waiting(self, l)
    }

    fn tokens(&self, k: ChanId) -> u32 {
        self.counts.items().get(k.0 as usize).copied().unwrap_or(0)
    }

    fn body(&self, t: ThreadId) -> Option<&ThreadBody> {
        match self.threads.items().get(t.0 as usize) {
            Some(x) => Some(&x.body),
            None => None,
        }
    }

    fn ticks(&self, c: CpuId) -> u32 {
        cpu_of(self, c).count
    }
}

impl Scene for PlainWorld<'_> {
    ghost state = { λ x. told x.work.now x };

    ghost good = { λ x. Stands x.work.now x };

    fn lock(&self, l: LockId) -> LockState {
        lock_of(self.work, self, l)
    }

    fn waits(&self, l: LockId) -> bool {
        has_waiters(self.work, self, l)
    }

    fn greatest(&self, l: LockId) -> Option<u8> {
        greatest_waiting(self.work, self, l)
    }

    fn tokens(&self, k: ChanId) -> u32 {
        tokens_of(self.work, self, k)
    }

    fn body(&self, t: ThreadId) -> Option<&ThreadBody> {
        body_of(self.work, self, t)
    }

    fn ticks(&self, c: CpuId) -> u32 {
        count_of(self.work, self, c)
    }
}
