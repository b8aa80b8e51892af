//! The dispatch tables of a workload that gives none, with RES 1000 (this project's own, after the tables of
//! `ts_dptbl`(4) and `rt_dptbl`(4)).

ghost use Rattle.std.specs.Prelude.{◌≡◌, ◌<◌, ◌≤◌, IfOk, IsTrue, map};
ghost use Rattle.std.specs.List.{range_with_len};
ghost use Rattle.sd_types.specs.Ticks.{ts_ticks_fit, fixed_ticks_fit};
ghost use Rattle.sd_rules.specs.DefaultTables.{default_ts_quantum, default_ts_row, default_ts_levels, default_ts_rows, default_fx_quantum, default_fx_levels, default_fx_rows, default_rt_quantum, default_rt_levels, default_rt_rows, default_fixed_row};

use crate::ticks::ticks;
use sd_types::{FixedRow, FixedTable, List, TsRow, TsTable};
use std::alloc::{AllocError, Global};

/// The units of a second in which the default tables give their quanta.
const RES: u64 = 1000;

fn ts_quantum(level: u8) -> u64
    requires { level < 60 }
    ensures { result ≡ default_ts_quantum level }
{
    match level {
        0..=9 => 200,
        10..=19 => 160,
        20..=29 => 120,
        30..=39 => 80,
        40..=58 => 40,
        _ => 20,
    }
}

fn fx_quantum(level: u8) -> u64
    requires { level < 61 }
    ensures { result ≡ default_fx_quantum level }
{
    match level {
        0..=9 => 200,
        10..=19 => 160,
        20..=29 => 120,
        30..=39 => 80,
        40..=59 => 40,
        _ => 20,
    }
}

fn rt_quantum(level: u8) -> u64
    requires { level < 60 }
    ensures { result ≡ default_rt_quantum level }
{
    match level {
        0..=9 => 1000,
        10..=19 => 800,
        20..=29 => 600,
        30..=39 => 400,
        40..=49 => 200,
        _ => 100,
    }
}

#[tactic(auto, unfolding(sd_rules::specs::DefaultTables::default_ts_row))]
fn ts_row(hz: u32, level: u8) -> TsRow
    requires hz { 1 ≤ hz }
    requires level { level < 60 }
    ensures { result ≡ default_ts_row hz level }
{
    let quantum = ts_quantum(level);
    TsRow {
        quantum,
        ticks: ticks(quantum, hz, RES),
        tqexp: level.saturating_sub(10),
        slpret: 50 + level / 10,
        maxwait: if level == 59 { 32_000 } else { 0 },
        lwait: 50 + level / 10,
    }
}

fn fixed_row(hz: u32, quantum: u64) -> FixedRow
    requires hz { 1 ≤ hz }
    requires some_quantum { 1 ≤ quantum }
    requires most_quantum { quantum ≤ 1000 }
    ensures { result ≡ default_fixed_row hz quantum }
{
    FixedRow {
        quantum,
        ticks: ticks(quantum, hz, RES),
    }
}

// The rows of the first levels.
#[tactic(auto, unfolding(sd_rules::specs::DefaultTables::default_ts_levels))]
fn ts_rows(alloc: Global, hz: u32, levels: u8) -> Result<Vec<TsRow>, AllocError>
    requires hz { 1 ≤ hz }
    requires levels { levels ≤ 60 }
    ensures { IfOk result (λ v. v.items ≡ default_ts_levels hz levels) }
{
    (0..levels).map(|level| ts_row(hz, level)).collect(alloc)
}

#[tactic(auto, unfolding(sd_rules::specs::DefaultTables::default_fx_levels))]
fn fx_rows(alloc: Global, hz: u32, levels: u8) -> Result<Vec<FixedRow>, AllocError>
    requires hz { 1 ≤ hz }
    requires levels { levels ≤ 61 }
    ensures { IfOk result (λ v. v.items ≡ default_fx_levels hz levels) }
{
    (0..levels)
        .map(|level| fixed_row(hz, fx_quantum(level)))
        .collect(alloc)
}

#[tactic(auto, unfolding(sd_rules::specs::DefaultTables::default_rt_levels))]
fn rt_rows(alloc: Global, hz: u32, levels: u8) -> Result<Vec<FixedRow>, AllocError>
    requires hz { 1 ≤ hz }
    requires levels { levels ≤ 60 }
    ensures { IfOk result (λ v. v.items ≡ default_rt_levels hz levels) }
{
    (0..levels)
        .map(|level| fixed_row(hz, rt_quantum(level)))
        .collect(alloc)
}

/// The default time-sharing table at `hz` ticks a second, at least 1: 60 levels, RES 1000.
pub fn default_ts(alloc: Global, hz: u32) -> Result<TsTable, AllocError>
    requires { 1 ≤ hz }
    ensures res { IfOk result (λ t. t.res ≡ 1000) }
    ensures rows { IfOk result (λ t. t.rows ≡ default_ts_rows hz) }
    ensures ticks { IfOk result (λ t. IsTrue (ts_ticks_fit hz t)) }
{
    let rows = ts_rows(alloc, hz, 60)?;
    Ok(TsTable::from_rows(RES, List::from_vec(rows)))
}

/// The default fixed-priority table at `hz` ticks a second, at least 1: 61 levels, RES 1000.
pub fn default_fx(alloc: Global, hz: u32) -> Result<FixedTable, AllocError>
    requires { 1 ≤ hz }
    ensures res { IfOk result (λ t. t.res ≡ 1000) }
    ensures rows { IfOk result (λ t. t.rows ≡ default_fx_rows hz) }
    ensures ticks { IfOk result (λ t. IsTrue (fixed_ticks_fit hz t)) }
{
    let rows = fx_rows(alloc, hz, 61)?;
    Ok(FixedTable::from_rows(RES, List::from_vec(rows)))
}

/// The default real-time table at `hz` ticks a second, at least 1: 60 levels, RES 1000.
pub fn default_rt(alloc: Global, hz: u32) -> Result<FixedTable, AllocError>
    requires { 1 ≤ hz }
    ensures res { IfOk result (λ t. t.res ≡ 1000) }
    ensures rows { IfOk result (λ t. t.rows ≡ default_rt_rows hz) }
    ensures ticks { IfOk result (λ t. IsTrue (fixed_ticks_fit hz t)) }
{
    let rows = rt_rows(alloc, hz, 60)?;
    Ok(FixedTable::from_rows(RES, List::from_vec(rows)))
}
