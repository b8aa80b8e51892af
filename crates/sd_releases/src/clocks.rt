//! What the clock of a processor does.

ghost use Rattle.std.specs.Prelude.{◌≡◌, ◌++◌, ◌≤◌, ◌<◌, ◌^◌, OnOk, IfOk};
ghost use Rattle.std.specs.List.{list_any};
ghost use Rattle.sd_tasks.specs.Kept.{above_kept, member_kept};
ghost use Rattle.sd_tasks.specs.WrittenKept.{lines_kept};
ghost use Rattle.sd_releases.specs.Clocks.{clock_below, clock_ops, has_clock, is_due, is_on, nap_lines, script_count, unit_lines, units, with_units};
ghost use Rattle.sd_releases.specs.Kept.{clock_kept};

use crate::lines::push_number;
use sd_tasks::{Facts, SetThread, WrittenLine, is_released, push_parts, put_all};
use sd_types::MOST_OPERATIONS;
use std::alloc::{AllocError, Global};

/// The operations of a clock so far, and the tick at which they end.
#[derive(Drop)]
pub struct ClockSoFar {
    pub ops: Vec<WrittenLine>,
    pub tick: u64,
}

fn is_on(cpu: u64, thread: &SetThread) -> bool
    ensures { result ≡ is_on cpu (member_kept thread.now) }
{
    thread.release.is_some() && thread.home == cpu
}

// Whether the clock of the processor releases one of these threads.
fn releases_one(threads: &[SetThread], cpu: u64) -> bool
    ensures { result ≡ list_any (λ t. is_on cpu (member_kept t)) threads.now }
{
    threads.iter().any(|thread| is_on(cpu, thread))
}

/// Whether the processor has a clock.
pub(crate) fn has_clock(facts: &Facts, cpu: u64) -> bool
    ensures { result ≡ has_clock (above_kept facts.now) cpu }
{
    releases_one(&facts.threads, cpu)
}

/// Whether the clock of a processor releases a thread at a tick.
fn is_due(cpu: u64, tick: u64, thread: &SetThread) -> bool
    ensures { result ≡ is_due cpu tick (member_kept thread.now) }
{
    if thread.home != cpu {
        return false;
    }
    match thread.release {
        Some(release) => is_released(release, tick),
        None => false,
    }
}

/// The unit of a thread at a tick, if it is released then.
fn put_unit(
    alloc: Global,
    found: &mut Vec<WrittenLine>,
    number: u32,
    cpu: u64,
    tick: u64,
    thread: &SetThread,
) -> Result<(), AllocError>
    ensures { OnOk result (lines_kept found.new.items ≡ lines_kept found.old.items ++ unit_lines number cpu tick (member_kept thread.now)) }
{
    if is_due(cpu, tick, thread) {
        push_parts(alloc, found, b"semav ", thread.name.bytes(), number)?;
    }
    Ok(())
}

/// The units that are given at a tick.
#[tactic(auto, unfolding(crate::specs::Clocks::units))]
fn units(
    alloc: Global,
    facts: &Facts,
    number: u32,
    cpu: u64,
    tick: u64,
) -> Result<Vec<WrittenLine>, AllocError>
    ensures { IfOk result (λ found. lines_kept found.items ≡ units (above_kept facts.now) number cpu tick) }
{
    let mut found = Vec::new(alloc);
    for thread in &facts.threads {
        put_unit(alloc, &mut found, number, cpu, tick, thread)?;
    }
    Ok(found)
}

/// `nap N`, nothing where that is 0.
fn put_nap(
    alloc: Global,
    ops: &mut Vec<WrittenLine>,
    number: u32,
    ticks: u64,
) -> Result<(), AllocError>
    ensures { OnOk result (lines_kept ops.new.items ≡ lines_kept ops.old.items ++ nap_lines number ticks) }
{
    if 0 < ticks {
        push_number(alloc, ops, b"nap ", ticks, number)?;
    }
    Ok(())
}

/// Naps to a tick, and gives units, if there are any.
fn give(
    alloc: Global,
    clock: &mut ClockSoFar,
    number: u32,
    tick: u64,
    units: &[WrittenLine],
) -> Result<(), AllocError>
    ensures { OnOk result (clock_kept clock.new ≡ with_units number (clock_kept clock.old) tick (lines_kept units.now)) }
{
    if units.is_empty() {
        return Ok(());
    }
    put_nap(
        alloc,
        &mut clock.ops,
        number,
        tick.saturating_sub(clock.tick),
    )?;
    put_all(alloc, &mut clock.ops, units)?;
    clock.tick = tick;
    Ok(())
}

/// What the clock of a processor does.
#[tactic(auto, using(crate::proofs::ClockLemmas::clock_more), unfolding(crate::specs::Clocks::clock_below))]
pub(crate) fn clock_ops(
    alloc: Global,
    facts: &Facts,
    number: u32,
    cpu: u64,
) -> Result<Vec<WrittenLine>, AllocError>
    ensures { IfOk result (λ ops. lines_kept ops.items ≡ clock_ops (above_kept facts.now) number cpu) }
{
    let mut clock = ClockSoFar {
        ops: Vec::new(alloc),
        tick: 0,
    };
    let ticks = facts.limit.unwrap_or(0);
    for tick in 0..ticks {
        let given = units(alloc, facts, number, cpu, tick)?;
        give(alloc, &mut clock, number, tick, &given)?;
    }
    Ok(clock.ops)
}

/// Into how many scripts so many operations are cut.
pub(crate) fn script_count(ops: usize) -> u64
    ensures value { result ≡ script_count ops }
    ensures small { ops ≤ 2 ^ 40 → result < 2 ^ 41 }
{
    (ops as u64)
        .saturating_sub(MOST_OPERATIONS as u64)
        .div_ceil(254)
        + 1
}
