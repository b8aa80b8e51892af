//! The scripts of a clock, which hand over from one to the next.

ghost use Rattle.std.specs.Prelude.{◌≡◌, ◌++◌, ◌∷◌, [], ◌<◌, ◌^◌, OnOk};
ghost use Rattle.sd_tasks.specs.Written.{written};
ghost use Rattle.sd_tasks.specs.WrittenKept.{lines_kept};
ghost use Rattle.sd_releases.specs.Clocks.{clock_script, clock_scripts, handing_over, script_from, script_ops, script_to, taking_over, clock_name};

use crate::clocks::script_count;
use crate::lines::clock_name;
use sd_tasks::{WrittenLine, lines_behind, lines_front, push_end, push_parts, put_all};
use std::alloc::{AllocError, Global};

/// So many operations find no memory.
const MOST_CLOCK_OPERATIONS: usize = 1_099_511_627_776;

/// Where the operations of a script begin.
fn script_from(place: u64) -> u64
    requires { place < 2 ^ 42 }
    ensures value { result ≡ script_from place }
{
    if place == 0 { 0 } else { place * 254 + 1 }
}

/// Where they end.
fn script_to(count: usize, place: u64) -> u64
    requires { place < 2 ^ 41 }
    ensures value { result ≡ script_to count place }
{
    if place + 1 == script_count(count) {
        count as u64
    } else {
        script_from(place + 1)
    }
}

/// A line with a clock's name behind these bytes.
fn push_named(
    alloc: Global,
    lines: &mut Vec<WrittenLine>,
    first: &[u8],
    cpu: u64,
    place: u64,
    number: u32,
) -> Result<(), AllocError>
    requires { place < 2 ^ 62 }
    ensures { OnOk result (lines_kept lines.new.items ≡ lines_kept lines.old.items ++ written (first.now ++ clock_name cpu place) number ∷ []) }
{
    let name = clock_name(alloc, cpu, place)?;
    push_parts(alloc, lines, first, &name, number)
}

/// A script of a clock takes over from the one before it.
fn put_taking_over(
    alloc: Global,
    lines: &mut Vec<WrittenLine>,
    number: u32,
    cpu: u64,
    place: u64,
) -> Result<(), AllocError>
    requires { place < 2 ^ 41 }
    ensures { OnOk result (lines_kept lines.new.items ≡ lines_kept lines.old.items ++ taking_over number cpu place) }
{
    if place == 0 {
        return Ok(());
    }
    push_named(alloc, lines, b"semap ", cpu, place, number)
}

/// And hands over to the one behind it.
fn put_handing_over(
    alloc: Global,
    lines: &mut Vec<WrittenLine>,
    number: u32,
    cpu: u64,
    count: usize,
    place: u64,
) -> Result<(), AllocError>
    requires { place < 2 ^ 41 }
    ensures { OnOk result (lines_kept lines.new.items ≡ lines_kept lines.old.items ++ handing_over number cpu count place) }
{
    if place + 1 == script_count(count) {
        return Ok(());
    }
    push_named(alloc, lines, b"semav ", cpu, place + 1, number)
}

/// The operations of a script of a clock with these operations, of which there are so many.
fn put_script_ops(
    alloc: Global,
    lines: &mut Vec<WrittenLine>,
    count: usize,
    ops: &[WrittenLine],
    place: u64,
) -> Result<(), AllocError>
    requires { place < 2 ^ 41 }
    ensures { OnOk result (lines_kept lines.new.items ≡ lines_kept lines.old.items ++ script_ops count (lines_kept ops.now) place) }
{
    let from = script_from(place);
    let to = script_to(count, place);
    let behind = lines_behind(ops, from as usize);
    put_all(
        alloc,
        lines,
        lines_front(behind, to.saturating_sub(from) as usize),
    )
}

/// A script of a clock with these operations, of which there are so many.
#[tactic(auto, unfolding(crate::specs::Clocks::clock_script))]
fn put_script(
    alloc: Global,
    lines: &mut Vec<WrittenLine>,
    number: u32,
    cpu: u64,
    count: usize,
    ops: &[WrittenLine],
    place: u64,
) -> Result<(), AllocError>
    requires { place < 2 ^ 41 }
    ensures { OnOk result (lines_kept lines.new.items ≡ lines_kept lines.old.items ++ clock_script number cpu count (lines_kept ops.now) place) }
{
    push_named(alloc, lines, b"script ", cpu, place, number)?;
    put_taking_over(alloc, lines, number, cpu, place)?;
    put_script_ops(alloc, lines, count, ops, place)?;
    put_handing_over(alloc, lines, number, cpu, count, place)?;
    push_end(alloc, lines, number)?;
    Ok(())
}

/// The scripts of a clock with these operations.
#[tactic(auto, unfolding(crate::specs::Clocks::clock_scripts))]
pub(crate) fn put_scripts(
    alloc: Global,
    lines: &mut Vec<WrittenLine>,
    number: u32,
    cpu: u64,
    ops: &[WrittenLine],
) -> Result<(), AllocError>
    ensures { OnOk result (lines_kept lines.new.items ≡ lines_kept lines.old.items ++ clock_scripts number cpu (lines_kept ops.now)) }
{
    if MOST_CLOCK_OPERATIONS < ops.len() {
        return Err(AllocError);
    }
    let count = script_count(ops.len());
    for place in 0..count {
        put_script(alloc, lines, number, cpu, ops.len(), ops, place)?;
    }
    Ok(())
}
