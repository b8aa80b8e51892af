//! The fixed-priority class.

ghost use Rattle.std.specs.Prelude.{◌≡◌, ◌≤◌};
ghost use Rattle.sd_types.specs.declared.classes.ClassState.TheVariants.{Fx};
ghost use Rattle.sd_types.specs.Priorities.{base_of};
ghost use Rattle.sd_rules.specs.ClassRules.{fx_tick, fx_wake, quantum_expires};

use crate::quanta::{full_quantum, left_after_tick};
use sd_types::{FixedTable, FxState};

/// The base priority, 0 to 60: the thread's own.
pub fn fx_global(s: &FxState) -> u8
    ensures value { result ≡ base_of (Fx s.now) }
    ensures level { result ≤ 60 }
{
    s.base()
}

/// A tick of the running thread: `left` falls by one, unless the quantum is infinite. Returns true exactly where the
/// quantum has expired; `left` is then the full quantum again.
#[tactic(auto, unfolding(sd_rules::specs::ClassRules::fx_tick))]
#[inline(always)]
pub fn fx_tick(s: &mut FxState, t: &FixedTable) -> bool
    ensures state { s.new ≡ fx_tick t.now s.old }
    ensures expired { result ≡ quantum_expires s.old.quantum s.old.left }
{
    let full = full_quantum(t, s.pri, s.quantum);
    let (left, expired) = left_after_tick(s.quantum, full, s.left);
    *s = FxState { left, ..*s };
    expired
}

/// A wakeup, however short the sleep was: `left` is the full quantum.
#[tactic(auto, unfolding(sd_rules::specs::ClassRules::fx_wake))]
pub fn fx_wake(s: &mut FxState, t: &FixedTable)
    ensures { s.new ≡ fx_wake t.now s.old }
{
    let left = full_quantum(t, s.pri, s.quantum);
    *s = FxState { left, ..*s };
}
