//! Whose parameters a thread asks to change, and the answer that it gets.
//!
//! Source: priocntl(2).

ghost use Rattle.std.specs.Prelude.{◌≡◌, [], ◌∷◌, IfOk, IsTrue, option_map};
ghost use Rattle.sd_machine.specs.Bodies.{parms_of};
ghost use Rattle.sd_machine.specs.Prioritising.{answer_to, new_class, target_of};
ghost use Rattle.sd_state.specs.declared.states.State.{State};
ghost use Rattle.std.specs.Prelude.{ℕ};
ghost use Rattle.sd_store.specs.Parts.{thread_part};
ghost use Rattle.sd_store.specs.Words.{Lacks, Tells};
ghost use Rattle.sd_types.specs.Works.{class_fits, quantum_fits};

use sd_class::{Target, Who, enter, judge};
use sd_dispatcher::{class_of, has_ended, is_privileged, uid_of};
use sd_store::Look;
use sd_types::{ClassParms, ClassState, Denied, Request, ThreadId, Work};

/// The parameters of a class state, as priocntl(2) shows them.
fn parms_of(class: &ClassState) -> ClassParms
    ensures { result ≡ parms_of class.now }
{
    match class {
        ClassState::Ts(s) => ClassParms::Ts {
            limit: s.limit,
            upri: s.upri,
        },
        ClassState::Fx(s) => ClassParms::Fx {
            limit: s.limit,
            pri: s.pri,
            quantum: s.quantum,
        },
        ClassState::Sys(s) => ClassParms::Sys { pri: s.pri },
        ClassState::Rt(s) => ClassParms::Rt {
            pri: s.pri,
            quantum: s.quantum,
        },
    }
}

/// The user and the parameters of thread `u`, None where it has ended.
fn target_of<L: Look>(work: &Work, x: &L, u: ThreadId) -> Result<Option<Target>, L::Lack>
    ensures value { IfOk result (λ r. (n : ℕ) (s : State) → L.shows x.now n s → option_map (λ t. (t.uid, t.parms)) r ≡ target_of work.now s u.0) }
    ensures lack { Lacks L.part (L.shows x.now) (L.has x.now) result (λ s. thread_part u ∷ []) }
{
    if has_ended(x.spot(u)?) {
        Ok(None)
    } else {
        Ok(Some(Target {
            uid: uid_of(work, u),
            parms: parms_of(&class_of(x, u)?),
        }))
    }
}

/// The answer of priocntl(2) to thread `t`, which asks for thread `u`: the new parameters, or a refusal. A quantum in
/// ticks is 1 to 1,000,000.
pub fn answer_to<L: Look>(
    work: &Work,
    x: &L,
    t: ThreadId,
    u: ThreadId,
    request: &Request,
) -> Result<Result<ClassParms, Denied>, L::Lack>
    requires { IsTrue (quantum_fits request.now.quantum) }
    ensures value { Tells (L.shows x.now) result (λ s. answer_to work.now s t.0 u.0 request.now) }
    ensures lack { Lacks L.part (L.shows x.now) (L.has x.now) result (λ s. thread_part u ∷ []) }
    ensures fits { IfOk result (λ a. IfOk a (λ p. IsTrue (class_fits p 0))) }
{
    let caller = Who {
        uid: uid_of(work, t),
        privileged: is_privileged(work, t),
    };
    Ok(judge(caller, target_of(work, x, u)?, request))
}

/// The class state of thread `u` with new parameters, whose numbers are in their ranges.
pub(crate) fn new_class<L: Look>(
    work: &Work,
    x: &L,
    u: ThreadId,
    parms: &ClassParms,
) -> Result<ClassState, L::Lack>
    requires { IsTrue (class_fits parms.now 0) }
    ensures value { Tells (L.shows x.now) result (λ s. new_class work.now s u.0 parms.now) }
    ensures lack { Lacks L.part (L.shows x.now) (L.has x.now) result (λ s. thread_part u ∷ []) }
{
    Ok(enter(parms, &class_of(x, u)?, work))
}
