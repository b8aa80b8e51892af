//! The rules worked out by hand, with the default table at 100 ticks a second: level i has the level i - 10 (0 at
//! least) after its quantum, and 50 + i / 10 after a sleep and after a long wait.

ghost use Rattle.std.specs.Prelude.{◌≤◌, pos, negsuc, ◌≤ℤ◌};

use crate::tables::ts_table;
use sd_class::{ts_global, ts_requeue, ts_second, ts_tick, ts_wake};
use sd_types::{End, TsState, TsTable};
use std::test::Fail;

fn state(cpupri: u8, upri: i8, left: u64, wait: u32) -> TsState
    requires cpupri { cpupri ≤ 59 }
    requires low { negsuc 59 ≤ℤ upri }
    requires high { upri ≤ℤ pos 60 }
    requires left { 1 ≤ left }
    requires wait { wait ≤ 32767 }
{
    TsState {
        cpupri,
        limit: 60,
        upri,
        left,
        wait,
    }
}

/// Whether these are the level, the ticks that are left, and the seconds of waiting.
fn is(s: &TsState, level: u8, left: u64, wait: u32) -> bool {
    s.cpupri == level && s.left == left && s.wait == wait
}

/// The first state that has another base priority.
fn wrong_base() -> Option<usize> {
    // the state, and its base priority
    let cases = [
        (state(29, 0, 1, 0), 29),
        (state(29, 30, 1, 0), 59),
        (state(29, -29, 1, 0), 0),
        (state(29, -30, 1, 0), 0),
        (state(50, 5, 1, 0), 55),
        (state(59, 60, 1, 0), 59),
        (state(0, -60, 1, 0), 0),
    ];
    for (index, case) in cases.iter().enumerate() {
        let (s, base) = case;
        if ts_global(s) != *base {
            return Some(index);
        }
    }
    None
}

#[test]
fn base_priorities(rt: HostRuntime) {
    let wrong = wrong_base();
    assert!(rt; wrong.is_none(), "state {wrong:?}");
}

/// Whether the tick answers that, and leaves these numbers.
fn ticks_to(
    table: &TsTable,
    before: &TsState,
    expires: bool,
    level: u8,
    left: u64,
    wait: u32,
) -> bool {
    let mut s = *before;
    ts_tick(&mut s, table) == expires && is(&s, level, left, wait)
}

/// The first state of which a tick makes another.
fn wrong_tick(table: &TsTable) -> Option<usize> {
    // the state, whether the quantum has expired, and the numbers after the tick
    let cases = [
        (state(29, 0, 12, 3), false, 29, 11, 3),
        (state(29, 0, 2, 0), false, 29, 1, 0),
        (state(29, 0, 1, 0), true, 19, 16, 0),
        (state(0, 0, 1, 0), true, 0, 20, 0),
        (state(9, 0, 1, 0), true, 0, 20, 0),
        (state(10, 0, 1, 0), true, 0, 20, 0),
        (state(11, 0, 1, 0), true, 1, 20, 0),
        (state(20, 0, 1, 0), true, 10, 16, 0),
        (state(40, 0, 1, 0), true, 30, 8, 0),
        (state(50, 0, 1, 0), true, 40, 4, 0),
        // the row is that of ts_cpupri, not of the base priority; the seconds of waiting stay
        (state(59, -60, 1, 7), true, 49, 4, 7),
    ];
    for (index, case) in cases.iter().enumerate() {
        let (before, expires, level, left, wait) = case;
        if !ticks_to(table, before, *expires, *level, *left, *wait) {
            return Some(index);
        }
    }
    None
}

#[test]
fn ticks(rt: HostRuntime) -> Result<(), Fail> {
    let table = ts_table(rt.alloc(), 2)?;
    let wrong = wrong_tick(&table);
    assert!(rt; wrong.is_none(), "state {wrong:?}");
    Ok(())
}

/// Whether the wakeup leaves these numbers and the user priority.
fn wakes_to(table: &TsTable, before: &TsState, level: u8, left: u64, wait: u32) -> bool {
    let mut s = *before;
    ts_wake(&mut s, table);
    is(&s, level, left, wait) && s.upri == before.upri
}

/// The first state of which a wakeup makes another.
fn wrong_wakeup(table: &TsTable) -> Option<usize> {
    // the state, and the numbers after the wakeup
    let cases = [
        (state(0, 0, 1, 0), 50, 4, 0),
        (state(9, 0, 20, 9), 50, 4, 0),
        (state(10, 0, 16, 0), 51, 4, 0),
        (state(29, 0, 3, 1), 52, 4, 0),
        (state(59, 0, 2, 32000), 55, 4, 0),
        // the row is that of ts_cpupri
        (state(29, 30, 3, 1), 52, 4, 0),
    ];
    for (index, case) in cases.iter().enumerate() {
        let (before, level, left, wait) = case;
        if !wakes_to(table, before, *level, *left, *wait) {
            return Some(index);
        }
    }
    None
}

#[test]
fn wakeups(rt: HostRuntime) -> Result<(), Fail> {
    let table = ts_table(rt.alloc(), 2)?;
    let wrong = wrong_wakeup(&table);
    assert!(rt; wrong.is_none(), "state {wrong:?}");
    Ok(())
}

/// Whether the second answers that, and leaves these numbers.
fn waits_to(
    table: &TsTable,
    before: &TsState,
    lifted: bool,
    level: u8,
    left: u64,
    wait: u32,
) -> bool {
    let mut s = *before;
    ts_second(&mut s, table) == lifted && is(&s, level, left, wait)
}

/// The first state of which a second of waiting makes another.
fn wrong_second(table: &TsTable) -> Option<usize> {
    // the state, whether the thread is lifted, and the numbers after the second
    let cases = [
        // ts_maxwait is 0: lifted at once, with the ticks that it had
        (state(29, 0, 5, 0), true, 52, 5, 0),
        (state(0, 0, 20, 0), true, 50, 20, 0),
        (state(58, 0, 4, 0), true, 55, 4, 0),
        // ts_maxwait is 32000
        (state(59, 0, 2, 0), false, 59, 2, 1),
        (state(59, 0, 2, 31999), false, 59, 2, 32000),
        (state(59, 0, 2, 32000), true, 55, 2, 0),
        // ts_maxwait is that of the base priority, and the new level that of the row of ts_cpupri
        (state(29, 30, 5, 0), false, 29, 5, 1),
        (state(29, 30, 5, 32000), true, 52, 5, 0),
        (state(59, -1, 2, 0), true, 55, 2, 0),
    ];
    for (index, case) in cases.iter().enumerate() {
        let (before, lifted, level, left, wait) = case;
        if !waits_to(table, before, *lifted, *level, *left, *wait) {
            return Some(index);
        }
    }
    None
}

#[test]
fn seconds(rt: HostRuntime) -> Result<(), Fail> {
    let table = ts_table(rt.alloc(), 2)?;
    let wrong = wrong_second(&table);
    assert!(rt; wrong.is_none(), "state {wrong:?}");
    Ok(())
}

/// Whether a thread that has waited for so many seconds goes to this end, and has then waited for that many.
fn requeues_to(wait: u32, expired: bool, end: End, after: u32) -> bool
    requires { wait ≤ 32767 }
{
    let mut s = state(29, 0, 5, wait);
    ts_requeue(&mut s, expired) == end && is(&s, 29, 5, after)
}

#[test]
fn requeues(rt: HostRuntime) {
    // preempted: to the front, and the wait is kept
    let preempted = requeues_to(3, false, End::Front, 3) && requeues_to(0, false, End::Front, 0);
    // expired: to the back, and the wait begins anew
    let expired = requeues_to(3, true, End::Back, 0) && requeues_to(0, true, End::Back, 0);
    assert!(rt; preempted && expired);
}
