//! Time-sharing threads that have waited on a dispatch queue for another second.
//!
//! Source: ts_dptbl(4) (ts_maxwait, ts_lwait), Solaris Internals (ts_update).

ghost use Rattle.std.specs.Prelude.{◌≡◌, ◌+◌, ◌<◌, ◌^◌, [], ◌∷◌, ⊤, option_map};
ghost use Rattle.sd_machine.specs.Changes.{set_class};
ghost use Rattle.sd_machine.specs.Prioritising.{age_plan, aged, lifted};
ghost use Rattle.sd_state.specs.States.{eff_of};
ghost use Rattle.sd_store.specs.Parts.{actor_part, cpu_part, found_parts, number, thread_part};
ghost use Rattle.sd_store.specs.Words.{DoesBy, Lacks, LacksBy, Tells};

use sd_class::aged_class;
use sd_dispatcher::{class_in, eff_in, effective_in, put_with};
use sd_machine::Plan;
use sd_store::{Chore, Look, Store, set_class};
use sd_types::{ClassState, CpuId, Event, Put, ThreadId, Work};

/// The thread that is next to be aged, if there is one.
pub fn age_plan<L: Look>(
    work: &Work,
    x: &L,
    next: Option<ThreadId>,
) -> Result<Option<Plan>, L::Lack>
    ensures value { Tells (L.shows x.now) result (λ s. age_plan work.now s (option_map number next)) }
    ensures lack { Lacks L.part (L.shows x.now) (L.has x.now) result (λ s. found_parts next) }
{
    match next {
        None => Ok(None),
        Some(t) => {
            let body = x.body(t)?;
            let p = eff_in(&aged_class(work, class_in(body)), body);
            Ok(Some(Plan::Make(Event::Age { t, p })))
        }
    }
}

/// By entry `number` thread `t` has this class state, and with it the priority `m`. Where that is no longer `old`, it goes to the back of the
/// queue of processor `c`, on which it stands.
fn lifted<S: Store>(
    work: &Work,
    x: &mut S,
    number: u64,
    c: CpuId,
    t: ThreadId,
    class: ClassState,
    old: u8,
    m: u8,
) -> Result<(), S::Lack>
    requires { number < 2 ^ 62 }
    ensures value { DoesBy number (S.shows x.old) (S.shows x.new) result (λ s. m ≡ eff_of (set_class s t.0 class) t.0) (λ s. lifted work.now (set_class s t.0 class) number c t.0 old) }
    ensures lack { LacksBy number S.part (S.shows x.old) (S.has x.old) result (λ s. ⊤) (λ s. thread_part t ∷ cpu_part c ∷ []) }
    ensures has { S.has x.new ≡ S.has x.old }
{
    if m == old {
        set_class(x, work, t, class)
    } else {
        put_with(work, x, number, t, class, m, Put::Cpu(c))
    }
}

/// By entry `number` thread `t`, which is on the queue of processor `c`, has waited for another second. The next one to be
/// looked at has a greater number. Both priorities are told by its body before, which is looked up once: that may take a walk of the queue.
#[tactic(auto, using(sd_dispatcher::proofs::PriorityLemmas::aged_effective), unfolding(sd_machine::specs::Prioritising::aged))]
pub fn aged<S: Store>(
    work: &Work,
    x: &mut S,
    number: u64,
    c: CpuId,
    t: ThreadId,
) -> Result<(), S::Lack>
    requires { number < 2 ^ 62 }
    ensures value { DoesBy number (S.shows x.old) (S.shows x.new) result (λ s. t.0 + 1 < 2 ^ 16) (λ s. aged work.now s number c t.0) }
    ensures lack { LacksBy number S.part (S.shows x.old) (S.has x.old) result (λ s. ⊤) (λ s. thread_part t ∷ cpu_part c ∷ actor_part c ∷ []) }
    ensures has { S.has x.new ≡ S.has x.old }
{
    let body = x.body(t)?;
    let old = effective_in(body);
    let class = aged_class(work, class_in(body));
    let m = eff_in(&class, body);
    lifted(work, x, number, c, t, class, old, m)?;
    x.set_duty(c, Chore::Age(ThreadId(t.0.saturating_add(1))))
}
