//! The starters, which bind the clocks and the threads with `on`.

ghost use Rattle.std.specs.Prelude.{◌≡◌, ◌==◌, ◌&&◌, ◌++◌, ◌∷◌, [], ◌+◌, ◌<◌, ◌^◌, OnOk, flat_map, map, option_map, slice_get};
ghost use Rattle.std.specs.List.{list_any, range_with_len};
ghost use Rattle.sd_tasks.specs.Kept.{above_kept, member_kept, set_kept};
ghost use Rattle.sd_tasks.specs.WrittenKept.{lines_kept};
ghost use Rattle.sd_releases.specs.Counts.{AreCounts};
ghost use Rattle.sd_releases.specs.Starters.{bind_line, clock_bind, clock_binds, has_starter, high_thread, in_named, in_text, is_timed, partition_binds, starter_ops, starter_script, thread_binds};

use crate::counts::count_at;
use crate::lines::{clock_name, starter_name};
use sd_tasks::{Facts, SetThread, WrittenLine, partition, push_end, push_line, push_parts};
use sd_text::put_number;
use sd_types::Name;
use std::alloc::{AllocError, Global};

fn is_timed(thread: &SetThread) -> bool
    ensures { result ≡ is_timed (member_kept thread.now) }
{
    thread.release.is_some() || thread.cpu.is_some()
}

fn has_timed(threads: &[SetThread], set: usize) -> bool
    ensures { result ≡ list_any (λ t. is_timed (member_kept t) && (t.set == set)) threads.now }
{
    threads
        .iter()
        .any(|thread| is_timed(thread) && thread.set == set)
}

/// Whether a set has a thread of a timed line.
fn is_started(facts: &Facts, set: usize) -> bool
    ensures { result ≡ list_any (λ m. is_timed m && (m.set == set)) (above_kept facts.now).threads }
{
    has_timed(&facts.threads, set)
}

/// Whether the processor has a starter.
pub(crate) fn has_starter(facts: &Facts, cpu: u64) -> bool
    ensures { result ≡ has_starter (above_kept facts.now) cpu }
{
    1 < facts.cpus && is_started(facts, partition(facts, cpu))
}

/// `pbind NAME CPU`
fn push_bind(
    alloc: Global,
    lines: &mut Vec<WrittenLine>,
    number: u32,
    name: &[u8],
    cpu: u64,
) -> Result<(), AllocError>
    ensures { OnOk result (lines_kept lines.new.items ≡ lines_kept lines.old.items ++ bind_line number name.now cpu ∷ []) }
{
    let mut text = Vec::from_slice(alloc, b"pbind ")?;
    text.extend_from_slice(name)?;
    text.extend_from_slice(b" ")?;
    put_number(&mut text, cpu)?;
    push_line(lines, text, number)
}

/// Binds a script of a clock.
fn put_clock_bind(
    alloc: Global,
    lines: &mut Vec<WrittenLine>,
    number: u32,
    cpu: u64,
    place: u64,
) -> Result<(), AllocError>
    requires { place + 1 < 2 ^ 64 }
    ensures { OnOk result (lines_kept lines.new.items ≡ lines_kept lines.old.items ++ clock_bind number cpu place) }
{
    let name = clock_name(alloc, cpu, place)?;
    push_bind(alloc, lines, number, &name, cpu)
}

/// Binds the clock of a processor.
fn put_clock_binds(
    alloc: Global,
    lines: &mut Vec<WrittenLine>,
    facts: &Facts,
    number: u32,
    counts: &[u64],
    cpu: u64,
) -> Result<(), AllocError>
    requires counts { AreCounts (above_kept facts.now) number counts.now }
    requires cpu { cpu < facts.now.cpus }
    ensures { OnOk result (lines_kept lines.new.items ≡ lines_kept lines.old.items ++ clock_binds (above_kept facts.now) number cpu) }
{
    let count = count_at(facts, number, counts, cpu);
    for place in 0..count {
        put_clock_bind(alloc, lines, number, cpu, place)?;
    }
    Ok(())
}

/// Binds the clock of a processor of a partition.
fn put_partition_binds(
    alloc: Global,
    lines: &mut Vec<WrittenLine>,
    facts: &Facts,
    number: u32,
    counts: &[u64],
    set: usize,
    cpu: u64,
) -> Result<(), AllocError>
    requires counts { AreCounts (above_kept facts.now) number counts.now }
    requires cpu { cpu < facts.now.cpus }
    ensures { OnOk result (lines_kept lines.new.items ≡ lines_kept lines.old.items ++ partition_binds (above_kept facts.now) number set cpu) }
{
    if partition(facts, cpu) == set {
        put_clock_binds(alloc, lines, facts, number, counts, cpu)?;
    }
    Ok(())
}

/// Binds the clocks of a partition.
fn put_set_binds(
    alloc: Global,
    lines: &mut Vec<WrittenLine>,
    facts: &Facts,
    number: u32,
    counts: &[u64],
    set: usize,
) -> Result<(), AllocError>
    requires { AreCounts (above_kept facts.now) number counts.now }
    ensures { OnOk result (lines_kept lines.new.items ≡ lines_kept lines.old.items
        ++ flat_map (partition_binds (above_kept facts.now) number set) (range_with_len 0 facts.now.cpus)) }
{
    for cpu in 0..facts.cpus {
        put_partition_binds(alloc, lines, facts, number, counts, set, cpu)?;
    }
    Ok(())
}

/// Binds a thread of a partition.
fn put_thread_bind(
    alloc: Global,
    lines: &mut Vec<WrittenLine>,
    number: u32,
    set: usize,
    thread: &SetThread,
) -> Result<(), AllocError>
    ensures { OnOk result (lines_kept lines.new.items ≡ lines_kept lines.old.items ++ thread_binds number set (member_kept thread.now)) }
{
    if thread.set != set {
        return Ok(());
    }
    match thread.cpu {
        Some(cpu) => push_bind(alloc, lines, number, thread.name.bytes(), cpu),
        None => Ok(()),
    }
}

/// Binds the threads of a partition.
fn put_thread_binds(
    alloc: Global,
    lines: &mut Vec<WrittenLine>,
    number: u32,
    set: usize,
    threads: &[SetThread],
) -> Result<(), AllocError>
    ensures { OnOk result (lines_kept lines.new.items ≡ lines_kept lines.old.items ++ flat_map (thread_binds number set) (map member_kept threads.now)) }
{
    for thread in threads {
        put_thread_bind(alloc, lines, number, set, thread)?;
    }
    Ok(())
}

// ---- threads at level 59

/// The set at a place, if there is one.
fn set_at(facts: &Facts, place: usize) -> Option<&(Name, Vec<u64>)>
    ensures { option_map (λ s. set_kept s.now) result ≡ slice_get (above_kept facts.now).sets place }
{
    facts.sets.get(place)
}

/// Appends ` in SET`, nothing where there is no set.
fn put_in_named(text: &mut Vec<u8>, set: Option<&(Name, Vec<u64>)>) -> Result<(), AllocError>
    ensures { OnOk result (text.new.items ≡ text.old.items ++ in_named (option_map (λ s. set_kept s.now) set.entry)) }
{
    let Some(set) = set else {
        return Ok(());
    };
    text.extend_from_slice(b" in ")?;
    text.extend_from_slice(set.0.bytes())
}

/// Appends ` in SET`, nothing of the default partition.
fn put_in(text: &mut Vec<u8>, facts: &Facts, cpu: u64) -> Result<(), AllocError>
    ensures { OnOk result (text.new.items ≡ text.old.items ++ in_text (above_kept facts.now) cpu) }
{
    let set = partition(facts, cpu);
    if set == 0 {
        return Ok(());
    }
    put_in_named(text, set_at(facts, set - 1))
}

/// `thread NAME rt 59 inf priv`, with the set of a processor.
pub(crate) fn push_thread(
    alloc: Global,
    lines: &mut Vec<WrittenLine>,
    facts: &Facts,
    number: u32,
    cpu: u64,
    name: &[u8],
) -> Result<(), AllocError>
    ensures { OnOk result (lines_kept lines.new.items ≡ lines_kept lines.old.items ++ high_thread (above_kept facts.now) number cpu name.now ∷ []) }
{
    let mut text = Vec::from_slice(alloc, b"thread ")?;
    text.extend_from_slice(name)?;
    text.extend_from_slice(b" rt 59 inf priv")?;
    put_in(&mut text, facts, cpu)?;
    push_line(lines, text, number)
}

/// The operations of each starter of a partition.
#[tactic(auto, unfolding(crate::specs::Starters::starter_ops))]
fn put_starter_ops(
    alloc: Global,
    lines: &mut Vec<WrittenLine>,
    facts: &Facts,
    number: u32,
    counts: &[u64],
    set: usize,
) -> Result<(), AllocError>
    requires { AreCounts (above_kept facts.now) number counts.now }
    ensures { OnOk result (lines_kept lines.new.items ≡ lines_kept lines.old.items ++ starter_ops (above_kept facts.now) number set) }
{
    put_set_binds(alloc, lines, facts, number, counts, set)?;
    put_thread_binds(alloc, lines, number, set, &facts.threads)?;
    Ok(())
}

/// The script of a starter.
#[tactic(auto, unfolding(crate::specs::Starters::starter_script))]
pub(crate) fn put_starter(
    alloc: Global,
    lines: &mut Vec<WrittenLine>,
    facts: &Facts,
    number: u32,
    counts: &[u64],
    cpu: u64,
) -> Result<(), AllocError>
    requires { AreCounts (above_kept facts.now) number counts.now }
    ensures { OnOk result (lines_kept lines.new.items ≡ lines_kept lines.old.items ++ starter_script (above_kept facts.now) number cpu) }
{
    let name = starter_name(alloc, cpu)?;
    push_parts(alloc, lines, b"script ", &name, number)?;
    put_starter_ops(alloc, lines, facts, number, counts, partition(facts, cpu))?;
    push_end(alloc, lines, number)?;
    Ok(())
}
