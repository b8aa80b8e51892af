//! The ends of scripts and jobs.

ghost use Rattle.std.specs.Prelude.{◌≡◌, ◌++◌, ◌∷◌, [], option_map, OnOk, IfOk, Some};
ghost use Rattle.sd_tasks.specs.Blocks.{block_from, block_lines, body, body_cause, closed, closing_cause, end_line, rounds_lines, with_block};
ghost use Rattle.sd_tasks.specs.Kept.{above_kept, member_kept, seen_kept};
ghost use Rattle.sd_tasks.specs.Steps.{block_line, block_thread};
ghost use Rattle.sd_tasks.specs.WrittenKept.{lines_kept};

use crate::blocks::Block;
use crate::facts::{Facts, SetThread};
use crate::reader::Reader;
use crate::written::{WrittenLine, lines_behind, push_line, push_parts, put_again, put_all};
use sd_declare::WorkCause;
use sd_script::ScriptFault;
use sd_types::MOST_OPERATIONS;
use std::alloc::{AllocError, Global};

/// Where the lines of the block begin.
fn block_from(block: Block) -> usize
    ensures { result ≡ block_from block }
{
    match block {
        Block::Outside => 0,
        Block::Table => 0,
        Block::Script { from, .. } => from,
    }
}

/// The lines of the block.
pub(crate) fn body(reader: &Reader) -> &[WrittenLine]
    ensures { lines_kept result.now ≡ body (seen_kept reader.now) }
{
    lines_behind(&reader.judged, block_from(reader.block))
}

pub(crate) fn body_cause(reader: &Reader) -> Option<WorkCause>
    ensures { result ≡ body_cause (seen_kept reader.now) }
{
    if MOST_OPERATIONS < body(reader).len() {
        Some(WorkCause::Script(ScriptFault::TooLong))
    } else {
        None
    }
}

// ---- the end of a block

/// The script as often as it is written.
fn put_rounds(
    alloc: Global,
    out: &mut Vec<WrittenLine>,
    thread: &SetThread,
    from: u32,
    lines: &[WrittenLine],
) -> Result<(), AllocError>
    ensures { OnOk result (lines_kept out.new.items ≡ lines_kept out.old.items ++ rounds_lines (member_kept thread.now) from (lines_kept lines.now)) }
{
    if thread.release.is_none() {
        return put_all(alloc, out, lines);
    }
    let mut round = Vec::new(alloc);
    push_parts(alloc, &mut round, b"semap ", thread.name.bytes(), from)?;
    put_all(alloc, &mut round, lines)?;
    put_again(alloc, out, &round, thread.rounds)
}

/// The lines of a block in the workload to which the set expands.
fn put_block(
    alloc: Global,
    out: &mut Vec<WrittenLine>,
    thread: &SetThread,
    from: u32,
    lines: &[WrittenLine],
) -> Result<(), AllocError>
    ensures { OnOk result (lines_kept out.new.items ≡ lines_kept out.old.items ++ block_lines (Some (member_kept thread.now)) from (lines_kept lines.now)) }
{
    push_parts(alloc, out, b"script ", thread.name.bytes(), from)?;
    put_rounds(alloc, out, thread, from, lines)
}

/// The thread of the script that is open.
fn block_thread(facts: &Facts, block: Block) -> Option<&SetThread>
    ensures { option_map (λ t. member_kept t.now) result ≡ block_thread (above_kept facts.now) block }
{
    match block {
        Block::Outside => None,
        Block::Table => None,
        Block::Script { thread, .. } => facts.threads.get(thread),
    }
}

/// The first line of the script that is open.
fn block_line(block: Block) -> u32
    ensures { result ≡ block_line block }
{
    match block {
        Block::Outside => 0,
        Block::Table => 0,
        Block::Script { line, .. } => line,
    }
}

/// Whether a script that is written for each release is too long.
fn closing_cause(thread: Option<&SetThread>, lines: &[WrittenLine]) -> Option<WorkCause>
    ensures { result ≡ closing_cause (lines_kept lines.now) (option_map (λ t. member_kept t.now) thread.entry) }
{
    let Some(thread) = thread else {
        return None;
    };
    if thread.release.is_some()
        && MOST_OPERATIONS as u64 / (lines.len() as u64 + 1) < thread.rounds
    {
        Some(WorkCause::Script(ScriptFault::TooLong))
    } else {
        None
    }
}

/// The lines of the block in the workload to which the set expands.
fn put_closed(alloc: Global, reader: &mut Reader) -> Result<Option<WorkCause>, AllocError>
    ensures cause { IfOk result (λ c. c ≡ closing_cause (body (seen_kept reader.old)) (block_thread (above_kept reader.old.facts) reader.old.block)) }
    ensures new { OnOk result (seen_kept reader.new ≡ with_block (seen_kept reader.old) (block_line reader.old.block) (block_thread (above_kept reader.old.facts) reader.old.block)) }
{
    let lines = lines_behind(&reader.judged, block_from(reader.block));
    let thread = block_thread(&reader.facts, reader.block);
    if let Some(thread) = thread {
        put_block(
            alloc,
            &mut reader.written,
            thread,
            block_line(reader.block),
            lines,
        )?;
    }
    Ok(closing_cause(thread, lines))
}

/// A line `end`.
pub fn push_end(alloc: Global, lines: &mut Vec<WrittenLine>, number: u32) -> Result<(), AllocError>
    ensures { OnOk result (lines_kept lines.new.items ≡ lines_kept lines.old.items ++ end_line number ∷ []) }
{
    let text = Vec::from_slice(alloc, b"end")?;
    push_line(lines, text, number)
}

/// Closes the block.
#[tactic(auto, unfolding(crate::specs::Blocks::closed))]
pub(crate) fn close_block(
    alloc: Global,
    reader: &mut Reader,
    number: u32,
) -> Result<Option<WorkCause>, AllocError>
    ensures cause { IfOk result (λ c. c ≡ closing_cause (body (seen_kept reader.old)) (block_thread (above_kept reader.old.facts) reader.old.block)) }
    ensures new { OnOk result (seen_kept reader.new ≡ closed (seen_kept reader.old) number (block_line reader.old.block) (block_thread (above_kept reader.old.facts) reader.old.block)) }
{
    let cause = put_closed(alloc, reader)?;
    push_end(alloc, &mut reader.judged, number)?;
    push_end(alloc, &mut reader.written, number)?;
    reader.block = Block::Outside;
    Ok(cause)
}
