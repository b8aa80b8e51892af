//! Processors that are assigned to another set: one that is closing gives its threads to others, the best first, and then
//! joins its new set.
//!
//! Source: psrset(1M), Solaris Internals (cpupart_move_cpu).

ghost use Rattle.std.specs.Prelude.{◌≡◌, ◌<◌, ◌^◌, [], ◌∷◌, ⊤, option_map};
ghost use Rattle.sd_machine.specs.Needs.{CanFinish, CanJoin};
ghost use Rattle.sd_machine.specs.SetChanges.{assign_answer, assigned, closing_plan, is_busy, joined, moved};
ghost use Rattle.sd_store.specs.Parts.{cpu_part, found_parts, number, put_parts, ready_parts, real_time_part, thread_part};
ghost use Rattle.sd_store.specs.Words.{Does, DoesBy, Lacks, LacksBy, LacksIf, Tells};

use sd_dispatcher::{eff_of, is_privileged, put};
use sd_machine::{Placement, Plan};
use sd_store::{Look, Sets, Store, finish_op};
use sd_types::{AssignAnswer, CpuId, Event, Put, SetId, ThreadId, Work};

/// Processor `d` is closing, or the only open one of its set, or a thread is bound to it.
fn is_busy<L: Look>(x: &L, d: CpuId) -> Result<bool, L::Lack>
    ensures value { Tells (L.shows x.now) result (λ s. is_busy s d) }
    ensures lack { Lacks L.part (L.shows x.now) (L.has x.now) result (λ s. ready_parts s d) }
{
    let cpu = x.cpu(d)?;
    Ok(cpu.closing.is_some() || x.open_cpus(cpu.set)?.len() == 1 || cpu.bound > 0)
}

/// The answer to thread `t`, which assigns processor `d` to a set: the first refusal that holds.
#[tactic(auto, unfolding(sd_machine::specs::SetChanges::assign_answer))]
pub fn assign_answer<L: Look>(
    work: &Work,
    x: &L,
    t: ThreadId,
    d: CpuId,
    to: SetId,
) -> Result<AssignAnswer, L::Lack>
    ensures value { Tells (L.shows x.now) result (λ s. assign_answer work.now s t.0 d to) }
    ensures lack { Lacks L.part (L.shows x.now) (L.has x.now) result (λ s. ready_parts s d) }
{
    Ok(if !is_privileged(work, t) {
        AssignAnswer::EPERM
    } else if x.cpu(d)?.set.0 == to.0 {
        AssignAnswer::EINVAL
    } else if is_busy(x, d)? {
        AssignAnswer::EBUSY
    } else {
        AssignAnswer::Changed
    })
}

/// Thread `t` has assigned processor `d` to a set. Where it may, the processor is closing, and what runs there has to leave.
#[tactic(auto, using(crate::proofs::Closed::closed_inside), unfolding(sd_machine::specs::SetChanges::assigned))]
pub fn assigned<S: Sets>(
    work: &Work,
    x: &mut S,
    t: ThreadId,
    d: CpuId,
    to: SetId,
    answer: AssignAnswer,
) -> Result<(), S::Lack>
    ensures value { Does (S.shows x.old) (S.shows x.new) result (λ s. CanFinish work.now s t) (λ s. assigned work.now s t.0 d to answer) }
    ensures lack { LacksIf S.part (S.shows x.old) (S.has x.old) result (λ s. CanFinish work.now s t) (λ s. thread_part t ∷ ready_parts s d) }
    ensures has { S.has x.new ≡ S.has x.old }
{
    if let AssignAnswer::Changed = answer {
        let running = x.runner(d)?;
        x.close(d, to)?;
        if running.is_some() {
            x.set_kernel_mark(d)?;
        }
    }
    finish_op(x, work, t)
}

/// What a closing processor does, on whose queue this thread is the best: it gives it to another, and joins its new set
/// where none is left.
pub fn closing_plan<L: Look>(x: &L, to: SetId, best: Option<ThreadId>) -> Result<Plan, L::Lack>
    ensures value { Tells (L.shows x.now) result (λ s. closing_plan s to (option_map number best)) }
    ensures lack { Lacks L.part (L.shows x.now) (L.has x.now) result (λ s. found_parts best) }
{
    match best {
        None => Ok(Plan::Make(Event::Joined { set: to })),
        Some(t) => {
            let p = eff_of(x, t)?;
            Ok(Plan::Place(Placement::Move { t }, p))
        }
    }
}

/// By entry `number` thread `t` leaves the queue of a closing processor for another one.
#[tactic(auto, unfolding(sd_machine::specs::SetChanges::moved))]
pub fn moved<S: Store>(
    work: &Work,
    x: &mut S,
    number: u64,
    t: ThreadId,
    at: Put,
) -> Result<(), S::Lack>
    requires { number < 2 ^ 62 }
    ensures value { DoesBy number (S.shows x.old) (S.shows x.new) result (λ s. ⊤) (λ s. moved work.now s number t.0 at) }
    ensures lack { LacksBy number S.part (S.shows x.old) (S.has x.old) result (λ s. ⊤) (λ s. put_parts work.now t at) }
    ensures has { S.has x.new ≡ S.has x.old }
{
    put(work, x, number, t, at)
}

/// Processor `c` is one of its new set.
#[tactic(auto, unfolding(sd_machine::specs::SetChanges::joined))]
pub fn joined<S: Sets>(x: &mut S, c: CpuId, to: SetId) -> Result<(), S::Lack>
    ensures value { Does (S.shows x.old) (S.shows x.new) result (λ s. CanJoin s to) (λ s. joined s c to) }
    ensures lack { Lacks S.part (S.shows x.old) (S.has x.old) result (λ s. cpu_part c ∷ real_time_part to ∷ []) }
    ensures has { S.has x.new ≡ S.has x.old }
{
    x.join(c, to)
}
