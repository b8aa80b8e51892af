//! The first lines of scripts and jobs.

ghost use Rattle.std.specs.Prelude.{◌≡◌, ◌++◌, ◌∷◌, [], option_map, OnOk};
ghost use Rattle.sd_lines.specs.Said.{word_of};
ghost use Rattle.sd_tasks.specs.Above.{thread_named};
ghost use Rattle.sd_tasks.specs.Blocks.{before_count, opened_by, opening_cause, opening_lines, wait_line};
ghost use Rattle.sd_tasks.specs.Kept.{above_kept, member_kept, seen_kept};
ghost use Rattle.sd_tasks.specs.WrittenKept.{lines_kept};
ghost use Rattle.sd_tasks.specs.Written.{again};

use crate::blocks::Block;
use crate::facts::{Facts, SetThread, mark_given, thread_place};
use crate::reader::Reader;
use crate::written::{WrittenLine, push_parts};
use sd_declare::WorkCause;
use sd_types::{MOST_OPERATIONS, Name};
use std::alloc::{AllocError, Global};

/// Why a script or a job of a thread does not begin.
fn opening_cause(is_job: bool, thread: Option<&SetThread>) -> Option<WorkCause>
    ensures { result ≡ opening_cause is_job (option_map (λ t. member_kept t.now) thread.entry) }
{
    let Some(thread) = thread else {
        return Some(WorkCause::Unknown);
    };
    if thread.is_task != is_job {
        return Some(WorkCause::Unknown);
    }
    if thread.is_given {
        return Some(WorkCause::Twice);
    }
    None
}

/// Why a script or a job of the thread with this name does not begin.
pub(crate) fn script_cause(facts: &Facts, is_job: bool, name: &Name) -> Option<WorkCause>
    ensures { result ≡ opening_cause is_job (thread_named (above_kept facts.now) (word_of name.now)) }
{
    opening_cause(is_job, facts.threads.get(thread_place(facts, name)))
}

/// The operations behind which a script is judged.
fn before_count(thread: &SetThread) -> u64
    ensures { result ≡ before_count (member_kept thread.now) }
{
    if thread.release.is_none() {
        return 0;
    }
    MOST_OPERATIONS as u64 + 1 - MOST_OPERATIONS as u64 / thread.rounds.max(1)
}

/// `semap NAME`
fn push_wait(
    alloc: Global,
    lines: &mut Vec<WrittenLine>,
    name: &Name,
    number: u32,
) -> Result<(), AllocError>
    ensures { OnOk result (lines_kept lines.new.items ≡ lines_kept lines.old.items ++ wait_line (word_of name.now) number ∷ []) }
{
    push_parts(alloc, lines, b"semap ", name.bytes(), number)
}

/// `semap NAME`, so many times.
pub fn put_waits(
    alloc: Global,
    lines: &mut Vec<WrittenLine>,
    name: &Name,
    times: u64,
    number: u32,
) -> Result<(), AllocError>
    ensures { OnOk result (lines_kept lines.new.items ≡ lines_kept lines.old.items ++ again times (wait_line (word_of name.now) number ∷ [])) }
{
    for k in 0..times {
        push_wait(alloc, lines, name, number)?;
    }
    Ok(())
}

/// The first lines of a script in the judged workload.
fn put_opening(
    alloc: Global,
    lines: &mut Vec<WrittenLine>,
    thread: &SetThread,
    number: u32,
) -> Result<(), AllocError>
    ensures { OnOk result (lines_kept lines.new.items ≡ lines_kept lines.old.items ++ opening_lines (member_kept thread.now) number) }
{
    push_parts(alloc, lines, b"script ", thread.name.bytes(), number)?;
    put_waits(alloc, lines, &thread.name, before_count(thread), number)
}

/// Opens the script or the job of the thread with this name; where there is none nothing changes.
#[tactic(auto, unfolding(crate::specs::Blocks::opened))]
pub(crate) fn open(
    alloc: Global,
    reader: &mut Reader,
    number: u32,
    name: &Name,
) -> Result<(), AllocError>
    ensures { OnOk result (seen_kept reader.new ≡ opened_by (seen_kept reader.old) number (word_of name.now)) }
{
    let place = thread_place(&reader.facts, name);
    let Some(thread) = reader.facts.threads.get(place) else {
        return Ok(());
    };
    put_opening(alloc, &mut reader.judged, thread, number)?;
    mark_given(&mut reader.facts, place);
    reader.block = Block::Script {
        thread: place,
        line: number,
        from: reader.judged.len(),
    };
    Ok(())
}
