//! The rows of the default tables at 100 ticks a second.

ghost use Rattle.std.specs.Prelude.{◌≡◌, ◌≤◌, ◌<◌, ◌==◌, IsTrue, IfOk, length};
ghost use Rattle.sd_types.specs.Rows.{ts_row_fits, fixed_row_fits};
ghost use Rattle.sd_types.specs.Ticks.{ticks_of, ts_ticks_fit, fixed_ticks_fit};

use sd_types::{FixedRow, FixedTable, List, TsRow, TsTable};
use std::alloc::{AllocError, Global};

/// The tables of quanta.
#[derive(Clone, Copy)]
pub enum Fixed {
    FixedPriority,
    RealTime,
}

/// The ticks of a level of the fixed-priority class.
fn fixed_priority_ticks(level: u8) -> u64
    ensures least { 1 ≤ result }
    ensures most { result ≤ 20 }
{
    match level {
        0..=9 => 20,
        10..=19 => 16,
        20..=29 => 12,
        30..=39 => 8,
        40..=59 => 4,
        _ => 2,
    }
}

/// The ticks of a level of the real-time class.
fn real_time_ticks(level: u8) -> u64
    ensures least { 1 ≤ result }
    ensures most { result ≤ 100 }
{
    match level {
        0..=9 => 100,
        10..=19 => 80,
        20..=29 => 60,
        30..=39 => 40,
        40..=49 => 20,
        _ => 10,
    }
}

fn fixed_ticks(fixed: Fixed, level: u8) -> u64
    ensures least { 1 ≤ result }
    ensures most { result ≤ 100 }
{
    match fixed {
        Fixed::FixedPriority => fixed_priority_ticks(level),
        Fixed::RealTime => real_time_ticks(level),
    }
}

fn fixed_row(ticks: u64) -> FixedRow
    requires least { 1 ≤ ticks }
    requires most { ticks ≤ 100 }
    ensures fits { IsTrue (fixed_row_fits result) }
    ensures ticks { IsTrue (result.ticks == ticks_of result.quantum 100 1000) }
{
    FixedRow {
        quantum: 10 * ticks,
        ticks,
    }
}

/// The table of this many rows: 60 or 61.
pub fn fixed_table(alloc: Global, fixed: Fixed, count: u8) -> Result<FixedTable, AllocError>
    requires least { 60 ≤ count }
    requires most { count ≤ 61 }
    ensures ticks { IfOk result (λ table. IsTrue (fixed_ticks_fit 100 table)) }
    ensures rows { IfOk result (λ table. length table.rows ≡ count) }
{
    let mut rows = Vec::new(alloc);
    for level in 0..count {
        rows.push(fixed_row(fixed_ticks(fixed, level)))?;
    }
    Ok(FixedTable::from_rows(1000, List::from_vec(rows)))
}

/// The ticks of a level of the time-sharing class: those of the fixed-priority class, but for level 59.
fn ts_ticks(level: u8, last: u64) -> u64
    requires least { 1 ≤ last }
    requires most { last ≤ 20 }
    ensures least { 1 ≤ result }
    ensures most { result ≤ 20 }
{
    if level == 59 {
        last
    } else {
        fixed_priority_ticks(level)
    }
}

fn ts_row(level: u8, ticks: u64) -> TsRow
    requires level { level < 60 }
    requires least { 1 ≤ ticks }
    requires most { ticks ≤ 20 }
    ensures fits { IsTrue (ts_row_fits result) }
    ensures ticks { IsTrue (result.ticks == ticks_of result.quantum 100 1000) }
{
    TsRow {
        quantum: 10 * ticks,
        ticks,
        tqexp: level.saturating_sub(10),
        slpret: 50 + level / 10,
        maxwait: if level == 59 { 32000 } else { 0 },
        lwait: 50 + level / 10,
    }
}

/// The table whose level 59 has this many ticks: 2 by default.
pub fn ts_table(alloc: Global, last: u64) -> Result<TsTable, AllocError>
    requires least { 1 ≤ last }
    requires most { last ≤ 20 }
    ensures { IfOk result (λ table. IsTrue (ts_ticks_fit 100 table)) }
{
    let mut rows = Vec::new(alloc);
    for level in 0..60 {
        rows.push(ts_row(level, ts_ticks(level, last)))?;
    }
    Ok(TsTable::from_rows(1000, List::from_vec(rows)))
}
