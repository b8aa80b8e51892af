//! Condition variables: a thread gives its mutex up and sleeps, in one entry, and takes the mutex again when it is woken.
//!
//! Source: Solaris Internals (cv_wait).

ghost use Rattle.std.specs.Prelude.{◌≡◌, ◌<◌, ◌^◌, [], ◌∷◌};
ghost use Rattle.sd_machine.specs.Conditions.{cv_waited};
ghost use Rattle.sd_machine.specs.Needs.{CanAct, IsChan, IsLock};
ghost use Rattle.sd_store.specs.Parts.{actor_part, chain_part, cpu_part, sleepers_part, thread_part};
ghost use Rattle.sd_store.specs.Words.{DoesBy, LacksBy};

use crate::fallen_asleep;
use sd_locks::released;
use sd_store::Store;
use sd_types::{ChanId, CpuId, LockId, ThreadId, Work};

/// By entry `number` thread `t`, which runs on processor `c`, gives up mutex `l` and falls asleep on channel `k`.
#[tactic(auto, using(sd_locks::proofs::GivenUp::released_length, sd_locks::proofs::GivenUp::released_place, sd_locks::proofs::GivenUp::released_counts, sd_locks::proofs::GivenUp::released_inside), unfolding(sd_machine::specs::Conditions::cv_waited))]
pub fn cv_waited<S: Store>(
    work: &Work,
    x: &mut S,
    number: u64,
    c: CpuId,
    t: ThreadId,
    k: ChanId,
    l: LockId,
) -> Result<(), S::Lack>
    requires { number < 2 ^ 62 }
    ensures value { DoesBy number (S.shows x.old) (S.shows x.new) result (λ s. CanAct work.now s t c × IsChan s k × IsLock s l) (λ s. cv_waited work.now s number c t.0 k l) }
    ensures lack { LacksBy number S.part (S.shows x.old) (S.has x.old) result (λ s. CanAct work.now s t c × IsChan s k × IsLock s l) (λ s. actor_part c ∷ chain_part l ∷ cpu_part c ∷ sleepers_part k ∷ thread_part t ∷ []) }
    ensures has { S.has x.new ≡ S.has x.old }
{
    released(work, x, c, t, l)?;
    fallen_asleep(work, x, number, c, t, k)
}
