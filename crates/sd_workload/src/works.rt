//! The workload that is declared.

ghost use Rattle.std.specs.Prelude.{◌≡◌, ◌<◌, ◌≤◌, ◌^◌, length, Some, None, IfOk, IfSome, IsTrue, option_map};
ghost use Rattle.sd_types.specs.Ticks.{ts_ticks_fit, fixed_ticks_fit};
ghost use Rattle.sd_dispadmin.specs.TableText.{IsTableText, ts_format, fx_format, rt_format};
ghost use Rattle.sd_declare.specs.Kept.{declarations, lines_in};
ghost use Rattle.sd_workload.specs.Accepted.{IsTs, IsFx, IsRt, IsWork};
ghost use Rattle.sd_workload.specs.Sound.{AreSoundDeclarations};
ghost use Rattle.sd_workload.specs.Texts.{Outside, end_cause};

use sd_declare::Declared;
use sd_dispadmin::{ReadTableFault, default_fx, default_rt, default_ts, read_fx, read_rt, read_ts};
use sd_types::{FixedTable, List, TsTable, Work};
use std::alloc::{AllocError, Global};

/// Ticks of a second where no line gives them.
const HZ: u32 = 100;

// The time-sharing table of this text, which is that of one, or the default table.
fn ts_table(alloc: Global, text: &Option<Vec<u8>>, hz: u32) -> Result<TsTable, AllocError>
    requires text { IfSome text.now (λ t. IsTableText ts_format t.items) }
    requires short { IfSome text.now (λ t. length t.items < 2 ^ 31) }
    requires hz { 1 ≤ hz }
    ensures table { IfOk result (IsTs (option_map lines_in text.now) hz) }
    ensures ticks { IfOk result (λ t. IsTrue (ts_ticks_fit hz t)) }
{
    let Some(text) = text else {
        return default_ts(alloc, hz);
    };
    match read_ts(alloc, text, hz) {
        Ok(table) => Ok(table),
        Err(ReadTableFault::Memory) => Err(AllocError),
        Err(ReadTableFault::Table(_)) => unreachable!(),
    }
}

// The fixed-priority table of this text, which is that of one, or the default table.
fn fx_table(alloc: Global, text: &Option<Vec<u8>>, hz: u32) -> Result<FixedTable, AllocError>
    requires text { IfSome text.now (λ t. IsTableText fx_format t.items) }
    requires short { IfSome text.now (λ t. length t.items < 2 ^ 31) }
    requires hz { 1 ≤ hz }
    ensures table { IfOk result (IsFx (option_map lines_in text.now) hz) }
    ensures ticks { IfOk result (λ t. IsTrue (fixed_ticks_fit hz t)) }
{
    let Some(text) = text else {
        return default_fx(alloc, hz);
    };
    match read_fx(alloc, text, hz) {
        Ok(table) => Ok(table),
        Err(ReadTableFault::Memory) => Err(AllocError),
        Err(ReadTableFault::Table(_)) => unreachable!(),
    }
}

// The real-time table of this text, which is that of one, or the default table.
fn rt_table(alloc: Global, text: &Option<Vec<u8>>, hz: u32) -> Result<FixedTable, AllocError>
    requires text { IfSome text.now (λ t. IsTableText rt_format t.items) }
    requires short { IfSome text.now (λ t. length t.items < 2 ^ 31) }
    requires hz { 1 ≤ hz }
    ensures table { IfOk result (IsRt (option_map lines_in text.now) hz) }
    ensures ticks { IfOk result (λ t. IsTrue (fixed_ticks_fit hz t)) }
    ensures rows { IfOk result (λ t. length t.rows ≡ 60) }
{
    let Some(text) = text else {
        return default_rt(alloc, hz);
    };
    match read_rt(alloc, text, hz) {
        Ok(table) => Ok(table),
        Err(ReadTableFault::Memory) => Err(AllocError),
        Err(ReadTableFault::Table(_)) => unreachable!(),
    }
}

/// The workload that is declared, with the defaults of what is not.
pub fn work(alloc: Global, d: Declared, limit: u32) -> Result<Work, AllocError>
    requires sound { AreSoundDeclarations (declarations d) }
    requires limit { d.limit ≡ Some limit }
    requires end { end_cause (declarations d) Outside ≡ None }
    ensures { IfOk result (IsWork (declarations d)) }
{
    let cpus = d.cpus.unwrap_or(1);
    let hz = d.hz.unwrap_or(HZ);
    let ts = ts_table(alloc, &d.ts, hz)?;
    let fx = fx_table(alloc, &d.fx, hz)?;
    let rt = rt_table(alloc, &d.rt, hz)?;
    Ok(Work {
        cpus,
        hz,
        limit,
        sets: List::from_vec(d.sets),
        ts,
        fx,
        rt,
        locks: List::from_vec(d.locks),
        chans: List::from_vec(d.chans),
        threads: List::from_vec(d.threads),
    })
}
