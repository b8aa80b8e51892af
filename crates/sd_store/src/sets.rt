//! The changes that few events make: counts of semaphores, sets of processors, and bindings.

use crate::Store;
use sd_types::{ChanId, CpuId, SetId, ThreadId};

/// A store of which the counts of semaphores, the sets and the bindings change.
pub trait Sets: Store {
    ghost use Rattle.std.specs.Prelude.{◌≡◌, ◌<◌, ◌+◌, ◌^◌, [], ◌∷◌, ⊤};
    ghost use Rattle.sd_state.specs.States.{cpu_of};
    ghost use Rattle.sd_machine.specs.Needs.{CanJoin, IsChan};
    ghost use Rattle.sd_machine.specs.Threads.{with_count};
    ghost use Rattle.sd_machine.specs.Changes.{bind, close, join, set_kernel_mark, unbind};
    ghost use Rattle.sd_store.specs.Parts.{cpu_part, real_time_part, sleepers_part, thread_part};
    ghost use Rattle.sd_store.specs.Words.{Does, Keeps, Lacks};

    /// The count of semaphore `k` becomes `n`.
    fn set_tokens(&mut self, k: ChanId, n: u32) -> Result<(), Self::Lack>
        ensures value { Does (Self.shows self.old) (Self.shows self.new) result (λ s. IsChan s k) (λ s. with_count s k.0 n) }
        ensures lack { Lacks Self.part (Self.shows self.old) (Self.has self.old) result (λ s. sleepers_part k ∷ []) }
        ensures kept { Keeps (Self.shows self.old) (Self.shows self.new) result }
        ensures has { Self.has self.new ≡ Self.has self.old };

    /// Sets the kernel's mark of processor `c`.
    fn set_kernel_mark(&mut self, c: CpuId) -> Result<(), Self::Lack>
        ensures value { Does (Self.shows self.old) (Self.shows self.new) result (λ s. ⊤) (λ s. set_kernel_mark s c.0) }
        ensures lack { Lacks Self.part (Self.shows self.old) (Self.has self.old) result (λ s. cpu_part c ∷ []) }
        ensures kept { Keeps (Self.shows self.old) (Self.shows self.new) result }
        ensures has { Self.has self.new ≡ Self.has self.old };

    /// Processor `d` leaves the open ones of its set, and is closing to another.
    fn close(&mut self, d: CpuId, to: SetId) -> Result<(), Self::Lack>
        ensures value { Does (Self.shows self.old) (Self.shows self.new) result (λ s. ⊤) (λ s. close s d to) }
        ensures lack { Lacks Self.part (Self.shows self.old) (Self.has self.old) result (λ s. cpu_part d ∷ real_time_part (cpu_of s d.0).set ∷ []) }
        ensures kept { Keeps (Self.shows self.old) (Self.shows self.new) result }
        ensures has { Self.has self.new ≡ Self.has self.old };

    /// Processor `c` is one of the open ones of a set, which has room for it.
    fn join(&mut self, c: CpuId, set: SetId) -> Result<(), Self::Lack>
        ensures value { Does (Self.shows self.old) (Self.shows self.new) result (λ s. CanJoin s set) (λ s. join s c set) }
        ensures lack { Lacks Self.part (Self.shows self.old) (Self.has self.old) result (λ s. cpu_part c ∷ real_time_part set ∷ []) }
        ensures kept { Keeps (Self.shows self.old) (Self.shows self.new) result }
        ensures has { Self.has self.new ≡ Self.has self.old };

    /// Thread `t` is bound to processor `d`.
    fn bind(&mut self, t: ThreadId, d: CpuId) -> Result<(), Self::Lack>
        ensures value { Does (Self.shows self.old) (Self.shows self.new) result (λ s. (cpu_of s d.0).bound + 1 < 2 ^ 16) (λ s. bind s t.0 d) }
        ensures lack { Lacks Self.part (Self.shows self.old) (Self.has self.old) result (λ s. thread_part t ∷ cpu_part d ∷ []) }
        ensures kept { Keeps (Self.shows self.old) (Self.shows self.new) result }
        ensures has { Self.has self.new ≡ Self.has self.old };

    /// Thread `t` is bound to processor `b` no more.
    fn unbind(&mut self, t: ThreadId, b: CpuId) -> Result<(), Self::Lack>
        ensures value { Does (Self.shows self.old) (Self.shows self.new) result (λ s. ⊤) (λ s. unbind s t.0 b) }
        ensures lack { Lacks Self.part (Self.shows self.old) (Self.has self.old) result (λ s. thread_part t ∷ cpu_part b ∷ []) }
        ensures kept { Keeps (Self.shows self.old) (Self.shows self.new) result }
        ensures has { Self.has self.new ≡ Self.has self.old };
}
