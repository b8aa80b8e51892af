//! Threads that nap for a number of ticks of their processor.

ghost use Rattle.std.specs.Prelude.{◌≡◌, ◌<◌, ◌^◌, [], ◌∷◌, option_map};
ghost use Rattle.sd_machine.specs.Needs.{CanAct, CanNap};
ghost use Rattle.sd_machine.specs.Sleeping.{napend_plan, napped};
ghost use Rattle.sd_store.specs.Parts.{actor_part, cpu_part, found_parts, number, thread_part};
ghost use Rattle.sd_store.specs.Words.{DoesBy, Lacks, LacksBy, Tells};

use sd_dispatcher::{op_of, woken_priority};
use sd_flat::nap_ticks;
use sd_machine::{Placement, Plan};
use sd_store::{Destination, Look, Store, finish_op};
use sd_types::{CpuId, ThreadId, Work};

/// The thread whose nap is over, if there is one, is made runnable.
pub fn napend_plan<L: Look>(
    work: &Work,
    x: &L,
    over: Option<ThreadId>,
) -> Result<Option<Plan>, L::Lack>
    ensures value { Tells (L.shows x.now) result (λ s. napend_plan work.now s (option_map number over)) }
    ensures lack { Lacks L.part (L.shows x.now) (L.has x.now) result (λ s. found_parts over) }
{
    match over {
        None => Ok(None),
        Some(t) => {
            let p = woken_priority(work, x, t)?;
            Ok(Some(Plan::Place(Placement::Napend { t }, p)))
        }
    }
}

/// By entry `number` thread `t`, which runs on processor `c`, naps there until the processor has counted the ticks of its
/// operation, which is over before it leaves, since a running thread changes where it stands.
#[tactic(auto, using(sd_dispatcher::proofs::Finished::runs_finished))]
pub fn napped<S: Store>(
    work: &Work,
    x: &mut S,
    number: u64,
    c: CpuId,
    t: ThreadId,
) -> Result<(), S::Lack>
    requires { number < 2 ^ 62 }
    ensures value { DoesBy number (S.shows x.old) (S.shows x.new) result (λ s. CanAct work.now s t c × CanNap work.now s t c) (λ s. napped work.now s c t.0) }
    ensures lack { LacksBy number S.part (S.shows x.old) (S.has x.old) result (λ s. CanAct work.now s t c × CanNap work.now s t c) (λ s. actor_part c ∷ cpu_part c ∷ thread_part t ∷ []) }
    ensures has { S.has x.new ≡ S.has x.old }
{
    let ticks = nap_ticks(op_of(work, x, t)?);
    let due = x.ticks(c)?.saturating_add(ticks);
    finish_op(x, work, t)?;
    x.leave(number, c, t, Destination::Nap(due))
}
