//! The real-time class: what a tick and a wakeup make of a thread's state. No call allocates, and none can fail.
//!
//! Source: Solaris Internals (the RT class), `rt_dptbl`(4), priocntl(2).

ghost use Rattle.std.specs.Prelude.{◌≡◌, ◌≤◌};
ghost use Rattle.sd_types.specs.declared.classes.ClassState.TheVariants.{Rt};
ghost use Rattle.sd_types.specs.Priorities.{base_of};
ghost use Rattle.sd_rules.specs.ClassRules.{rt_tick, rt_wake, quantum_expires};

use crate::quanta::{full_quantum, left_after_tick};
use sd_types::{FixedTable, RtState};

/// The base priority, 100 to 159: 100 and the thread's own.
pub fn rt_global(s: &RtState) -> u8
    ensures value { result ≡ base_of (Rt s.now) }
    ensures level { result ≤ 159 }
{
    s.base()
}

/// A tick of the running thread: `left` falls by one, unless the quantum is infinite. Returns true exactly where the
/// quantum has expired; `left` is then the full quantum again.
#[tactic(auto, unfolding(sd_rules::specs::ClassRules::rt_tick))]
#[inline(always)]
pub fn rt_tick(s: &mut RtState, t: &FixedTable) -> bool
    ensures state { s.new ≡ rt_tick t.now s.old }
    ensures expired { result ≡ quantum_expires s.old.quantum s.old.left }
{
    let full = full_quantum(t, s.pri, s.quantum);
    let (left, expired) = left_after_tick(s.quantum, full, s.left);
    *s = RtState { left, ..*s };
    expired
}

/// A wakeup, however short the sleep was: `left` is the full quantum.
#[tactic(auto, unfolding(sd_rules::specs::ClassRules::rt_wake))]
pub fn rt_wake(s: &mut RtState, t: &FixedTable)
    ensures { s.new ≡ rt_wake t.now s.old }
{
    let left = full_quantum(t, s.pri, s.quantum);
    *s = RtState { left, ..*s };
}
