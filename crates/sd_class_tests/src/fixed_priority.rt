//! The rules of the fixed-priority class, and the base priorities of the system class, worked out by hand.

ghost use Rattle.std.specs.Prelude.{◌≤◌};
ghost use Rattle.sd_types.specs.ClassNumbers.{IsQuantum, IsLeft};

use crate::tables::{Fixed, fixed_table};
use sd_class::{full_quantum, fx_global, fx_tick, fx_wake, sys_global};
use sd_types::{FixedTable, FxState, Quantum, SysState};
use std::test::Fail;

fn state(pri: u8, quantum: Quantum, left: u64) -> FxState
    requires pri { pri ≤ 60 }
    requires quantum { IsQuantum quantum }
    requires left { IsLeft quantum left }
{
    FxState {
        limit: 60,
        pri,
        quantum,
        left,
    }
}

/// The first level that has another quantum by the tables of 60 and of 61 rows.
fn wrong_quantum(short: &FixedTable, long: &FixedTable) -> Option<usize> {
    // the level, the quantum, and its ticks by the tables of 60 and of 61 rows
    let cases = [
        (0, Quantum::Def, 20, 20),
        (9, Quantum::Def, 20, 20),
        (10, Quantum::Def, 16, 16),
        (29, Quantum::Def, 12, 12),
        (39, Quantum::Def, 8, 8),
        (40, Quantum::Def, 4, 4),
        (59, Quantum::Def, 4, 4),
        // a table of 60 rows has none for 60, which has that of 59
        (60, Quantum::Def, 4, 2),
        (60, Quantum::Inf, 0, 0),
        (0, Quantum::Inf, 0, 0),
        (60, Quantum::Ticks(7), 7, 7),
        (0, Quantum::Ticks(1_000_000), 1_000_000, 1_000_000),
    ];
    for (index, case) in cases.iter().enumerate() {
        let (level, quantum, by_short, by_long) = case;
        if full_quantum(short, *level, *quantum) != *by_short
            || full_quantum(long, *level, *quantum) != *by_long
        {
            return Some(index);
        }
    }
    None
}

#[test]
fn full_quanta(rt: HostRuntime) -> Result<(), Fail> {
    let short = fixed_table(rt.alloc(), Fixed::FixedPriority, 60)?;
    let long = fixed_table(rt.alloc(), Fixed::FixedPriority, 61)?;
    let wrong = wrong_quantum(&short, &long);
    assert!(rt; wrong.is_none(), "quantum {wrong:?}");
    Ok(())
}

/// Whether the tick answers that, and leaves so many ticks and the priority.
fn ticks_to(table: &FixedTable, before: &FxState, expires: bool, left: u64) -> bool {
    let mut s = *before;
    fx_tick(&mut s, table) == expires && s.pri == before.pri && s.left == left
}

/// The first state of which a tick makes another.
fn wrong_tick(table: &FixedTable) -> Option<usize> {
    // the state, whether the quantum has expired, and the ticks that are left
    let cases = [
        (state(0, Quantum::Def, 20), false, 19),
        (state(0, Quantum::Def, 2), false, 1),
        (state(0, Quantum::Def, 1), true, 20),
        (state(59, Quantum::Def, 1), true, 4),
        (state(60, Quantum::Def, 1), true, 2),
        (state(5, Quantum::Ticks(7), 3), false, 2),
        (state(5, Quantum::Ticks(7), 1), true, 7),
        (state(5, Quantum::Ticks(1), 1), true, 1),
        (state(5, Quantum::Inf, 0), false, 0),
    ];
    for (index, case) in cases.iter().enumerate() {
        let (before, expires, left) = case;
        if !ticks_to(table, before, *expires, *left) {
            return Some(index);
        }
    }
    None
}

#[test]
fn ticks(rt: HostRuntime) -> Result<(), Fail> {
    let table = fixed_table(rt.alloc(), Fixed::FixedPriority, 61)?;
    let wrong = wrong_tick(&table);
    assert!(rt; wrong.is_none(), "state {wrong:?}");
    Ok(())
}

/// Whether the wakeup leaves so many ticks and the priority.
fn wakes_to(table: &FixedTable, before: &FxState, left: u64) -> bool {
    let mut s = *before;
    fx_wake(&mut s, table);
    s.pri == before.pri && s.left == left
}

/// The first state of which a wakeup makes another by one of the tables.
fn wrong_wakeup(short: &FixedTable, long: &FixedTable) -> Option<usize> {
    // the state, and the ticks that are left by the tables of 60 and of 61 rows
    let cases = [
        (state(0, Quantum::Def, 3), 20, 20),
        (state(60, Quantum::Def, 1), 4, 2),
        (state(60, Quantum::Ticks(9), 1), 9, 9),
        (state(60, Quantum::Inf, 0), 0, 0),
    ];
    for (index, case) in cases.iter().enumerate() {
        let (before, by_short, by_long) = case;
        if !wakes_to(short, before, *by_short) || !wakes_to(long, before, *by_long) {
            return Some(index);
        }
    }
    None
}

#[test]
fn wakeups(rt: HostRuntime) -> Result<(), Fail> {
    let short = fixed_table(rt.alloc(), Fixed::FixedPriority, 60)?;
    let long = fixed_table(rt.alloc(), Fixed::FixedPriority, 61)?;
    let wrong = wrong_wakeup(&short, &long);
    assert!(rt; wrong.is_none(), "state {wrong:?}");
    Ok(())
}

#[test]
fn base_priorities(rt: HostRuntime) {
    assert_eq!(rt; fx_global(&state(0, Quantum::Inf, 0)), 0);
    assert_eq!(rt; fx_global(&state(60, Quantum::Inf, 0)), 60);
    assert_eq!(rt; sys_global(&SysState { pri: 60 }), 60);
    assert_eq!(rt; sys_global(&SysState { pri: 99 }), 99);
}
