//! What stands in the workload behind the lines of the set.

ghost use Rattle.std.specs.Prelude.{◌≡◌, ◌++◌, ◌+◌, ◌<◌, ◌^◌, OnOk, flat_map, map};
ghost use Rattle.sd_tasks.specs.Kept.{above_kept, member_kept};
ghost use Rattle.sd_tasks.specs.WrittenKept.{lines_kept};
ghost use Rattle.sd_releases.specs.Counts.{AreCounts};
ghost use Rattle.sd_releases.specs.Tails.{clock_thread, clock_threads, each_cpu, handed_sema, handed_semas, scripts_of_clock, starter_scripts, starter_threads, tail, waiting_script};

use crate::clocks::{clock_ops, has_clock};
use crate::counts::{clock_counts, count_at};
use crate::lines::{clock_name, push_three, starter_name};
use crate::scripts::put_scripts;
use crate::starters::{has_starter, push_thread, put_starter};
use sd_tasks::{Facts, SetThread, WrittenLine, push_end, push_parts, put_waits};
use std::alloc::{AllocError, Global};

/// The semaphore of a script of a clock.
fn push_handed_sema(
    alloc: Global,
    lines: &mut Vec<WrittenLine>,
    number: u32,
    cpu: u64,
    place: u64,
) -> Result<(), AllocError>
    requires { place + 2 < 2 ^ 64 }
    ensures { OnOk result (lines_kept lines.new.items ≡ lines_kept lines.old.items ++ handed_sema number cpu place) }
{
    let name = clock_name(alloc, cpu, place + 1)?;
    push_three(alloc, lines, b"sema ", &name, b" 0", number)
}

/// The semaphores of the scripts of a clock that are handed over to.
fn put_handed_semas(
    alloc: Global,
    lines: &mut Vec<WrittenLine>,
    facts: &Facts,
    number: u32,
    counts: &[u64],
    cpu: u64,
) -> Result<(), AllocError>
    requires counts { AreCounts (above_kept facts.now) number counts.now }
    requires cpu { cpu < facts.now.cpus }
    ensures { OnOk result (lines_kept lines.new.items ≡ lines_kept lines.old.items ++ handed_semas (above_kept facts.now) number cpu) }
{
    let count = count_at(facts, number, counts, cpu);
    for place in 0..count.saturating_sub(1) {
        push_handed_sema(alloc, lines, number, cpu, place)?;
    }
    Ok(())
}

fn put_all_semas(
    alloc: Global,
    lines: &mut Vec<WrittenLine>,
    facts: &Facts,
    number: u32,
    counts: &[u64],
) -> Result<(), AllocError>
    requires { AreCounts (above_kept facts.now) number counts.now }
    ensures { OnOk result (lines_kept lines.new.items ≡ lines_kept lines.old.items ++ each_cpu (above_kept facts.now) (handed_semas (above_kept facts.now) number)) }
{
    for cpu in 0..facts.cpus {
        put_handed_semas(alloc, lines, facts, number, counts, cpu)?;
    }
    Ok(())
}

fn put_starter_thread(
    alloc: Global,
    lines: &mut Vec<WrittenLine>,
    facts: &Facts,
    number: u32,
    cpu: u64,
) -> Result<(), AllocError>
    ensures { OnOk result (lines_kept lines.new.items ≡ lines_kept lines.old.items ++ starter_threads (above_kept facts.now) number cpu) }
{
    if has_starter(facts, cpu) {
        let name = starter_name(alloc, cpu)?;
        push_thread(alloc, lines, facts, number, cpu, &name)?;
    }
    Ok(())
}

fn put_starter_threads(
    alloc: Global,
    lines: &mut Vec<WrittenLine>,
    facts: &Facts,
    number: u32,
) -> Result<(), AllocError>
    ensures { OnOk result (lines_kept lines.new.items ≡ lines_kept lines.old.items ++ each_cpu (above_kept facts.now) (starter_threads (above_kept facts.now) number)) }
{
    for cpu in 0..facts.cpus {
        put_starter_thread(alloc, lines, facts, number, cpu)?;
    }
    Ok(())
}

/// The thread of a script of a clock.
fn push_clock_thread(
    alloc: Global,
    lines: &mut Vec<WrittenLine>,
    facts: &Facts,
    number: u32,
    cpu: u64,
    place: u64,
) -> Result<(), AllocError>
    requires { place + 1 < 2 ^ 64 }
    ensures { OnOk result (lines_kept lines.new.items ≡ lines_kept lines.old.items ++ clock_thread (above_kept facts.now) number cpu place) }
{
    let name = clock_name(alloc, cpu, place)?;
    push_thread(alloc, lines, facts, number, cpu, &name)
}

/// The threads of the scripts of a clock.
fn put_clock_thread(
    alloc: Global,
    lines: &mut Vec<WrittenLine>,
    facts: &Facts,
    number: u32,
    counts: &[u64],
    cpu: u64,
) -> Result<(), AllocError>
    requires counts { AreCounts (above_kept facts.now) number counts.now }
    requires cpu { cpu < facts.now.cpus }
    ensures { OnOk result (lines_kept lines.new.items ≡ lines_kept lines.old.items ++ clock_threads (above_kept facts.now) number cpu) }
{
    let count = count_at(facts, number, counts, cpu);
    for place in 0..count {
        push_clock_thread(alloc, lines, facts, number, cpu, place)?;
    }
    Ok(())
}

fn put_clock_threads(
    alloc: Global,
    lines: &mut Vec<WrittenLine>,
    facts: &Facts,
    number: u32,
    counts: &[u64],
) -> Result<(), AllocError>
    requires { AreCounts (above_kept facts.now) number counts.now }
    ensures { OnOk result (lines_kept lines.new.items ≡ lines_kept lines.old.items ++ each_cpu (above_kept facts.now) (clock_threads (above_kept facts.now) number)) }
{
    for cpu in 0..facts.cpus {
        put_clock_thread(alloc, lines, facts, number, counts, cpu)?;
    }
    Ok(())
}

/// The script of a gated thread to which the set gives none.
fn put_waiting(
    alloc: Global,
    lines: &mut Vec<WrittenLine>,
    thread: &SetThread,
) -> Result<(), AllocError>
    ensures { OnOk result (lines_kept lines.new.items ≡ lines_kept lines.old.items ++ waiting_script (member_kept thread.now)) }
{
    if thread.release.is_none() || thread.is_given {
        return Ok(());
    }
    push_parts(alloc, lines, b"script ", thread.name.bytes(), thread.line)?;
    put_waits(alloc, lines, &thread.name, thread.rounds, thread.line)?;
    push_end(alloc, lines, thread.line)
}

fn put_all_waiting(
    alloc: Global,
    lines: &mut Vec<WrittenLine>,
    threads: &[SetThread],
) -> Result<(), AllocError>
    ensures { OnOk result (lines_kept lines.new.items ≡ lines_kept lines.old.items ++ flat_map waiting_script (map member_kept threads.now)) }
{
    for thread in threads {
        put_waiting(alloc, lines, thread)?;
    }
    Ok(())
}

fn put_starter_script(
    alloc: Global,
    lines: &mut Vec<WrittenLine>,
    facts: &Facts,
    number: u32,
    counts: &[u64],
    cpu: u64,
) -> Result<(), AllocError>
    requires { AreCounts (above_kept facts.now) number counts.now }
    ensures { OnOk result (lines_kept lines.new.items ≡ lines_kept lines.old.items ++ starter_scripts (above_kept facts.now) number cpu) }
{
    if has_starter(facts, cpu) {
        put_starter(alloc, lines, facts, number, counts, cpu)?;
    }
    Ok(())
}

fn put_starter_scripts(
    alloc: Global,
    lines: &mut Vec<WrittenLine>,
    facts: &Facts,
    number: u32,
    counts: &[u64],
) -> Result<(), AllocError>
    requires { AreCounts (above_kept facts.now) number counts.now }
    ensures { OnOk result (lines_kept lines.new.items ≡ lines_kept lines.old.items ++ each_cpu (above_kept facts.now) (starter_scripts (above_kept facts.now) number)) }
{
    for cpu in 0..facts.cpus {
        put_starter_script(alloc, lines, facts, number, counts, cpu)?;
    }
    Ok(())
}

fn put_scripts_of_clock(
    alloc: Global,
    lines: &mut Vec<WrittenLine>,
    facts: &Facts,
    number: u32,
    cpu: u64,
) -> Result<(), AllocError>
    ensures { OnOk result (lines_kept lines.new.items ≡ lines_kept lines.old.items ++ scripts_of_clock (above_kept facts.now) number cpu) }
{
    if has_clock(facts, cpu) {
        let ops = clock_ops(alloc, facts, number, cpu)?;
        put_scripts(alloc, lines, number, cpu, &ops)?;
    }
    Ok(())
}

fn put_clock_scripts(
    alloc: Global,
    lines: &mut Vec<WrittenLine>,
    facts: &Facts,
    number: u32,
) -> Result<(), AllocError>
    ensures { OnOk result (lines_kept lines.new.items ≡ lines_kept lines.old.items ++ each_cpu (above_kept facts.now) (scripts_of_clock (above_kept facts.now) number)) }
{
    for cpu in 0..facts.cpus {
        put_scripts_of_clock(alloc, lines, facts, number, cpu)?;
    }
    Ok(())
}

/// Appends what stands behind the lines of the set. The line after the last has this number.
#[tactic(auto, unfolding(crate::specs::Tails::tail))]
pub(crate) fn put_tail(
    alloc: Global,
    lines: &mut Vec<WrittenLine>,
    facts: &Facts,
    number: u32,
) -> Result<(), AllocError>
    ensures { OnOk result (lines_kept lines.new.items ≡ lines_kept lines.old.items ++ tail (above_kept facts.now) number) }
{
    let counts = clock_counts(alloc, facts, number)?;
    put_all_semas(alloc, lines, facts, number, &counts)?;
    put_starter_threads(alloc, lines, facts, number)?;
    put_clock_threads(alloc, lines, facts, number, &counts)?;
    put_all_waiting(alloc, lines, &facts.threads)?;
    put_starter_scripts(alloc, lines, facts, number, &counts)?;
    put_clock_scripts(alloc, lines, facts, number)
}
