//! The rules of the real-time class, worked out by hand.

ghost use Rattle.std.specs.Prelude.{◌≤◌};
ghost use Rattle.sd_types.specs.ClassNumbers.{IsQuantum, IsLeft};

use crate::tables::{Fixed, fixed_table};
use sd_class::{rt_global, rt_tick, rt_wake};
use sd_types::{FixedTable, Quantum, RtState};
use std::test::Fail;

fn state(pri: u8, quantum: Quantum, left: u64) -> RtState
    requires pri { pri ≤ 59 }
    requires quantum { IsQuantum quantum }
    requires left { IsLeft quantum left }
{
    RtState { pri, quantum, left }
}

#[test]
fn base_priorities(rt: HostRuntime) {
    assert_eq!(rt; rt_global(&state(0, Quantum::Inf, 0)), 100);
    assert_eq!(rt; rt_global(&state(29, Quantum::Inf, 0)), 129);
    assert_eq!(rt; rt_global(&state(59, Quantum::Inf, 0)), 159);
}

/// Whether the tick answers that, and leaves so many ticks and the priority.
fn ticks_to(table: &FixedTable, before: &RtState, expires: bool, left: u64) -> bool {
    let mut s = *before;
    rt_tick(&mut s, table) == expires && s.pri == before.pri && s.left == left
}

/// The first state of which a tick makes another.
fn wrong_tick(table: &FixedTable) -> Option<usize> {
    // the state, whether the quantum has expired, and the ticks that are left
    let cases = [
        (state(0, Quantum::Def, 100), false, 99),
        (state(0, Quantum::Def, 2), false, 1),
        (state(0, Quantum::Def, 1), true, 100),
        (state(29, Quantum::Def, 1), true, 60),
        (state(49, Quantum::Def, 1), true, 20),
        (state(59, Quantum::Def, 1), true, 10),
        (state(5, Quantum::Ticks(7), 3), false, 2),
        (state(5, Quantum::Ticks(7), 1), true, 7),
        (state(5, Quantum::Inf, 0), false, 0),
    ];
    for (index, case) in cases.iter().enumerate() {
        let (before, expires, left) = case;
        if !ticks_to(table, before, *expires, *left) {
            return Some(index);
        }
    }
    None
}

#[test]
fn ticks(rt: HostRuntime) -> Result<(), Fail> {
    let table = fixed_table(rt.alloc(), Fixed::RealTime, 60)?;
    let wrong = wrong_tick(&table);
    assert!(rt; wrong.is_none(), "state {wrong:?}");
    Ok(())
}

/// Whether the wakeup leaves so many ticks and the priority.
fn wakes_to(table: &FixedTable, before: &RtState, left: u64) -> bool {
    let mut s = *before;
    rt_wake(&mut s, table);
    s.pri == before.pri && s.left == left
}

/// The first state of which a wakeup makes another.
fn wrong_wakeup(table: &FixedTable) -> Option<usize> {
    // the state, and the ticks that are left after the wakeup
    let cases = [
        (state(0, Quantum::Def, 3), 100),
        (state(10, Quantum::Def, 80), 80),
        (state(59, Quantum::Def, 1), 10),
        (state(59, Quantum::Ticks(9), 1), 9),
        (state(59, Quantum::Inf, 0), 0),
    ];
    for (index, case) in cases.iter().enumerate() {
        let (before, left) = case;
        if !wakes_to(table, before, *left) {
            return Some(index);
        }
    }
    None
}

#[test]
fn wakeups(rt: HostRuntime) -> Result<(), Fail> {
    let table = fixed_table(rt.alloc(), Fixed::RealTime, 60)?;
    let wrong = wrong_wakeup(&table);
    assert!(rt; wrong.is_none(), "state {wrong:?}");
    Ok(())
}
