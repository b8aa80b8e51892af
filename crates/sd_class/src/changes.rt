//! The class state of a thread that was given new parameters.

ghost use Rattle.std.specs.Prelude.{◌≡◌, IsTrue};
ghost use Rattle.sd_types.specs.Works.{class_fits};
ghost use Rattle.sd_rules.specs.FirstStates.{first_state};
ghost use Rattle.sd_rules.specs.Priocntl.{entered};

use crate::quanta::full_quantum;
use sd_types::{ClassParms, ClassState, FxState, RtState, SysState, TsState, Work};

/// The level of a thread that comes to the time-sharing class from another.
const ENTRY_LEVEL: u8 = 29;

/// The class state of a thread that begins in a class with these parameters, with a full quantum. `level` is the
/// `cpupri` of a time-sharing thread (0 to 59), and 0 for the other classes.
pub fn first_state(p: &ClassParms, level: u8, work: &Work) -> ClassState
    requires { IsTrue (class_fits p.now level) }
    ensures { result ≡ first_state work.now.ts work.now.fx work.now.rt p.now level }
{
    match *p {
        ClassParms::Ts { limit, upri } => ClassState::Ts(TsState {
            cpupri: level,
            limit,
            upri,
            left: work.ts.row(level).ticks,
            wait: 0,
        }),
        ClassParms::Fx {
            limit,
            pri,
            quantum,
        } => ClassState::Fx(FxState {
            limit,
            pri,
            quantum,
            left: full_quantum(&work.fx, pri, quantum),
        }),
        ClassParms::Sys { pri } => ClassState::Sys(SysState { pri }),
        ClassParms::Rt { pri, quantum } => ClassState::Rt(RtState {
            pri,
            quantum,
            left: full_quantum(&work.rt, pri, quantum),
        }),
    }
}

/// The state after a change to these parameters, whose numbers are in their ranges with the user priority at most the
/// limit. A time-sharing thread that stays one keeps its level, its ticks and its seconds of waiting; one that comes
/// from another class begins at level 29, with the ticks of that level's row. A fixed-priority or real-time thread
/// begins a full quantum, also where it stays in its class.
#[tactic(auto, unfolding(sd_rules::specs::Priocntl::entered))]
pub fn enter(p: &ClassParms, old: &ClassState, work: &Work) -> ClassState
    requires { IsTrue (class_fits p.now 0) }
    ensures { result ≡ entered work.now.ts work.now.fx work.now.rt p.now old.now }
{
    match (*p, *old) {
        (ClassParms::Ts { limit, upri }, ClassState::Ts(state)) => ClassState::Ts(TsState {
            limit,
            upri,
            ..state
        }),
        (ClassParms::Ts { .. }, _) => first_state(p, ENTRY_LEVEL, work),
        _ => first_state(p, 0, work),
    }
}
