//! Threads that ask for other class parameters, of themselves or of others.
//!
//! Source: priocntl(2), Solaris Internals (thread_change_pri; turnstiles, on which a new priority is handed on).

ghost use Rattle.std.specs.Prelude.{◌≡◌, ◌<◌, ◌^◌, [], ◌∷◌, ⊤, IfOk, IsTrue, Some};
ghost use Rattle.sd_machine.specs.Changes.{set_class};
ghost use Rattle.sd_machine.specs.Needs.{CanFinish, IsUnmoved};
ghost use Rattle.sd_machine.specs.Prioritising.{change_plan, changed_by, changed_on, changed_to, prio_plan, reprioritised};
ghost use Rattle.sd_machine.specs.Requeueing.{reordered};
ghost use Rattle.sd_state.specs.Operations.{op_of};
ghost use Rattle.sd_state.specs.States.{thread_of, eff_of};
ghost use Rattle.sd_dispatcher.specs.Touched.{reordered_parts};
ghost use Rattle.sd_priocntl.specs.Touched.{KeepsWaiting, changed_parts, prio_parts};
ghost use Rattle.sd_store.specs.Parts.{thread_part};
ghost use Rattle.sd_store.specs.Words.{DoesBy, Lacks, LacksBy, Tells};
ghost use Rattle.sd_types.specs.Works.{class_fits, quantum_fits};
ghost use Rattle.sd_types.specs.declared.numbers.ThreadId.{ThreadId};
ghost use Rattle.sd_types.specs.declared.scripts.Op.TheVariants.{Prio};
ghost use Rattle.sd_types.specs.declared.scripts.Request.{Request};

use crate::targets::{answer_to, new_class};
use sd_dispatcher::{bound_of, eff_as, eff_of, op_of, reordered, requeue};
use sd_machine::{Placement, Plan, Requeue};
use sd_store::{Look, Store, finish_op, set_class};
use sd_types::{ClassParms, ClassState, CpuId, Denied, Event, Op, PrioAnswer, Put, ThreadId, Work};

/// Thread `t` gives thread `u` the effective priority `p`.
fn change_plan<L: Look>(x: &L, t: ThreadId, u: ThreadId, p: u8) -> Result<Plan, L::Lack>
    ensures value { Tells (L.shows x.now) result (λ s. change_plan s t.0 u p) }
    ensures lack { Lacks L.part (L.shows x.now) (L.has x.now) result (λ s. thread_part u ∷ []) }
{
    Ok(
        match requeue(x.spot(u)?, eff_of(x, u)?, p, bound_of(x, u)?) {
            Requeue::Stays => Plan::Make(Event::Prio {
                t,
                u,
                answer: PrioAnswer::Changed { p, at: None },
            }),
            Requeue::Behind(d) => Plan::Make(Event::Prio {
                t,
                u,
                answer: PrioAnswer::Changed {
                    p,
                    at: Some(Put::Cpu(d)),
                },
            }),
            Requeue::Anew => Plan::Place(Placement::Prio { t, u, p }, p),
        },
    )
}

/// What thread `t` does that has this answer when it asks for thread `u`.
pub fn prio_plan<L: Look>(
    work: &Work,
    x: &L,
    t: ThreadId,
    u: ThreadId,
    answer: Result<ClassParms, Denied>,
) -> Result<Plan, L::Lack>
    requires { IfOk answer (λ p. IsTrue (class_fits p 0)) }
    ensures value { Tells (L.shows x.now) result (λ s. prio_plan work.now s t.0 u answer) }
    ensures lack { Lacks L.part (L.shows x.now) (L.has x.now) result (λ s. thread_part u ∷ []) }
{
    match answer {
        Err(denied) => Ok(Plan::Make(Event::Prio {
            t,
            u,
            answer: PrioAnswer::Refused(denied),
        })),
        Ok(parms) => {
            let p = eff_as(&new_class(work, x, u, &parms)?, x, u)?;
            change_plan(x, t, u, p)
        }
    }
}

/// By entry `number` thread `u` gets a class state, and moves where the event says.
fn reclassed<S: Store>(
    work: &Work,
    x: &mut S,
    number: u64,
    u: ThreadId,
    at: Option<Put>,
    class: ClassState,
) -> Result<(), S::Lack>
    requires { number < 2 ^ 62 }
    ensures value { DoesBy number (S.shows x.old) (S.shows x.new) result (λ s. ⊤) (λ s. reordered work.now (set_class s u.0 class) number u.0 (eff_of s u.0) at) }
    ensures lack { LacksBy number S.part (S.shows x.old) (S.has x.old) result (λ s. ⊤) (λ s. thread_part u ∷ reordered_parts work.now s u at (thread_of s u.0).place) }
    ensures has { S.has x.new ≡ S.has x.old }
{
    let old = eff_of(x, u)?;
    set_class(x, work, u, class)?;
    reordered(work, x, number, u, old, at)
}

/// The same, and where thread `u` waits for a lock, processor `c` hands its new priority on.
#[tactic(auto, using(crate::proofs::Walked::same_walk))]
fn changed_to<S: Store>(
    work: &Work,
    x: &mut S,
    number: u64,
    c: CpuId,
    u: ThreadId,
    at: Option<Put>,
    class: ClassState,
) -> Result<(), S::Lack>
    requires { number < 2 ^ 62 }
    ensures value { DoesBy number (S.shows x.old) (S.shows x.new) result (λ s. KeepsWaiting (thread_of s u.0).place at) (λ s. changed_to work.now s number c u at class) }
    ensures lack { LacksBy number S.part (S.shows x.old) (S.has x.old) result (λ s. ⊤) (λ s. changed_parts work.now s c u at) }
    ensures has { S.has x.new ≡ S.has x.old }
{
    reclassed(work, x, number, u, at, class)?;
    x.begin_walk(c, u)
}

/// The same with the answer to a request.
fn changed_by<S: Store>(
    work: &Work,
    x: &mut S,
    number: u64,
    c: CpuId,
    u: ThreadId,
    at: Option<Put>,
    answer: Result<ClassParms, Denied>,
) -> Result<(), S::Lack>
    requires number { number < 2 ^ 62 }
    requires fits { IfOk answer (λ p. IsTrue (class_fits p 0)) }
    ensures value { DoesBy number (S.shows x.old) (S.shows x.new) result (λ s. KeepsWaiting (thread_of s u.0).place at) (λ s. changed_by work.now s number c u at answer) }
    ensures lack { LacksBy number S.part (S.shows x.old) (S.has x.old) result (λ s. ⊤) (λ s. changed_parts work.now s c u at) }
    ensures has { S.has x.new ≡ S.has x.old }
{
    match answer {
        Ok(parms) => {
            let class = new_class(work, x, u, &parms)?;
            changed_to(work, x, number, c, u, at, class)
        }
        Err(_) => Ok(()),
    }
}

/// The operation at which thread `t` stands, None after the last. A request names a quantum that is in its range.
#[inline(always)]
fn wanted_op<L: Look>(work: &Work, x: &L, t: ThreadId) -> Result<Option<Op>, L::Lack>
    ensures value { Tells (L.shows x.now) result (λ s. op_of work.now t.0 (thread_of s t.0).body) }
    ensures lack { Lacks L.part (L.shows x.now) (L.has x.now) result (λ s. thread_part t ∷ []) }
    ensures quantum { IfOk result (λ op. (u : ThreadId) (r : Request) → op ≡ Some (Prio u r) → IsTrue (quantum_fits r.quantum)) }
{
    op_of(work, x, t)
}

/// The same where the operation of thread `t` is such a request.
fn changed_on<S: Store>(
    work: &Work,
    x: &mut S,
    number: u64,
    c: CpuId,
    t: ThreadId,
    u: ThreadId,
    at: Option<Put>,
    op: Option<Op>,
) -> Result<(), S::Lack>
    requires number { number < 2 ^ 62 }
    requires quantum { (u : ThreadId) (r : Request) → op ≡ Some (Prio u r) → IsTrue (quantum_fits r.quantum) }
    ensures value { DoesBy number (S.shows x.old) (S.shows x.new) result (λ s. KeepsWaiting (thread_of s u.0).place at) (λ s. changed_on work.now s number c t.0 u at op) }
    ensures lack { LacksBy number S.part (S.shows x.old) (S.has x.old) result (λ s. ⊤) (λ s. changed_parts work.now s c u at) }
    ensures has { S.has x.new ≡ S.has x.old }
{
    match op {
        Some(Op::Prio(_, request)) => {
            let answer = answer_to(work, x, t, u, &request)?;
            changed_by(work, x, number, c, u, at, answer)
        }
        _ => Ok(()),
    }
}

/// By entry `number` thread `t` has asked for other class parameters of thread `u`. Where it gets them, the thread moves
/// where the event says; one that waits hands its new priority on.
#[tactic(auto, using(crate::proofs::OperationKept::changed_inside, crate::proofs::Walked::keeps_waiting), unfolding(sd_machine::specs::Prioritising::reprioritised))]
pub fn reprioritised<S: Store>(
    work: &Work,
    x: &mut S,
    number: u64,
    c: CpuId,
    t: ThreadId,
    u: ThreadId,
    answer: PrioAnswer,
) -> Result<(), S::Lack>
    requires { number < 2 ^ 62 }
    ensures value { DoesBy number (S.shows x.old) (S.shows x.new) result (λ s. CanFinish work.now s t × IsUnmoved (thread_of s u.0).place answer) (λ s. reprioritised work.now s number c t.0 u answer) }
    ensures lack { LacksBy number S.part (S.shows x.old) (S.has x.old) result (λ s. CanFinish work.now s t × IsUnmoved (thread_of s u.0).place answer) (λ s. thread_part t ∷ prio_parts work.now s c u answer) }
    ensures has { S.has x.new ≡ S.has x.old }
{
    if let PrioAnswer::Changed { at, .. } = answer {
        let op = wanted_op(work, x, t)?;
        changed_on(work, x, number, c, t, u, at, op)?;
    }
    finish_op(x, work, t)
}
