//! Threads that wake up: a woken thread gets the class state that its class gives for a wakeup, and stands at the back of a dispatch queue. On
//! which processor is chosen before, by what others show (`choosing.rt`); the queue is that processor's, or the real-time queue of its partition, and
//! the processor is marked where a thread of a smaller priority runs there (`placing.rt`, `marks.rt`).
//!
//! Source: Solaris Internals (setrun, the wakeup of each scheduling class).

ghost use Rattle.std.specs.Prelude.{◌≡◌, ◌<◌, ◌^◌, [], ◌∷◌, ⊤};
ghost use Rattle.sd_machine.specs.Sleeping.{woken, woken_priority};
ghost use Rattle.sd_store.specs.Parts.{put_parts, thread_part};
ghost use Rattle.sd_store.specs.Words.{DoesBy, Lacks, LacksBy, Tells};

use crate::bodies::{class_in, eff_in};
use crate::placing::put_with;
use sd_class::woken_class;
use sd_store::{Look, Store};
use sd_types::{Put, ThreadId, Work};

/// The effective priority of a thread after its wakeup.
pub fn woken_priority<L: Look>(work: &Work, x: &L, t: ThreadId) -> Result<u8, L::Lack>
    ensures value { Tells (L.shows x.now) result (λ s. woken_priority work.now s t.0) }
    ensures lack { Lacks L.part (L.shows x.now) (L.has x.now) result (λ s. thread_part t ∷ []) }
{
    let body = x.body(t)?;
    let class = woken_class(work, class_in(body));
    Ok(eff_in(&class, body))
}

/// By entry `number` thread `t` wakes up and is made runnable. Its priority is told by its body before the wakeup, which is looked up once.
#[tactic(auto, using(crate::proofs::PriorityLemmas::woken_effective), unfolding(sd_machine::specs::Sleeping::woken))]
pub fn woken<S: Store>(
    work: &Work,
    x: &mut S,
    number: u64,
    t: ThreadId,
    at: Put,
) -> Result<(), S::Lack>
    requires { number < 2 ^ 62 }
    ensures value { DoesBy number (S.shows x.old) (S.shows x.new) result (λ s. ⊤) (λ s. woken work.now s number t.0 at) }
    ensures lack { LacksBy number S.part (S.shows x.old) (S.has x.old) result (λ s. ⊤) (λ s. put_parts work.now t at) }
    ensures has { S.has x.new ≡ S.has x.old }
{
    let body = x.body(t)?;
    let class = woken_class(work, class_in(body));
    let m = eff_in(&class, body);
    put_with(work, x, number, t, class, m, at)
}
