//! Quanta that may be infinite, as threads of the fixed-priority and the real-time class have them: where one expires, a full quantum begins. What
//! the expiry makes of the priority of a time-sharing thread is in `time_sharing.rt`; where a thread stands then, and which processor is marked,
//! is the dispatcher's (`charge` in the definitions of dispatching).

ghost use Rattle.std.specs.Prelude.{◌≡◌};
ghost use Rattle.sd_types.specs.ClassNumbers.{IsQuantum, IsLeft};
ghost use Rattle.sd_rules.specs.ClassRules.{full_quantum, left_after_tick, quantum_expires};

use sd_types::{FixedTable, Quantum};

/// The ticks of a full quantum at a level (at least 1), or 0 where it is infinite. A level for which the table has
/// no row has the quantum of the last row.
pub fn full_quantum(t: &FixedTable, level: u8, quantum: Quantum) -> u64
    ensures value { result ≡ full_quantum t.now level quantum }
    ensures left { IsQuantum quantum → IsLeft quantum result }
{
    match quantum {
        Quantum::Def => {
            let last = (t.rows() - 1) as u8;
            t.row(level.min(last)).ticks
        }
        Quantum::Inf => 0,
        Quantum::Ticks(ticks) => u64::from(ticks),
    }
}

/// The ticks that are left of a quantum after a tick: `full` where it has expired. Returns also whether it has,
/// which an infinite one never does.
pub fn left_after_tick(quantum: Quantum, full: u64, left: u64) -> (u64, bool)
    ensures left { result.0 ≡ left_after_tick quantum full left }
    ensures expired { result.1 ≡ quantum_expires quantum left }
{
    match quantum {
        Quantum::Inf => (left, false),
        _ if left <= 1 => (full, true),
        _ => (left - 1, false),
    }
}
