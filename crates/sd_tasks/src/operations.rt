//! Lines of scripts and jobs.

ghost use Rattle.std.specs.Prelude.{◌≡◌, ◌++◌, ◌∷◌, ◌-◌, drop, OnOk, IfOk, Some};
ghost use Rattle.sd_text.specs.Words.{words_of};
ghost use Rattle.sd_lines.specs.Said.{operation_said};
ghost use Rattle.sd_tasks.specs.Blocks.{body_cause, with_rounds};
ghost use Rattle.sd_tasks.specs.Kept.{above_kept, seen_kept};
ghost use Rattle.sd_tasks.specs.Steps.{end_after, end_cause, inside_after, inside_cause, is_high, is_high_level, is_high_request, names_gate, operation_after, operation_cause, repeat_after, repeat_cause};
ghost use Rattle.sd_tasks.specs.WrittenKept.{lines_kept};
ghost use Rattle.sd_tasks.specs.Written.{again};

use crate::blocks::Repeat;
use crate::closings::{body_cause, close_block};
use crate::facts::{Facts, is_gate};
use crate::forms::repeat_rounds;
use crate::reader::Reader;
use crate::written::{WrittenLine, joined, lines_behind, push_line, put_again, put_all};
use sd_declare::WorkCause;
use sd_lines::{Operation, RequestLine, is_end, is_word, operation_of};
use std::alloc::{AllocError, Global};

// ---- operations

fn is_high_level(pri: i64) -> bool
    ensures { result ≡ is_high_level pri }
{
    59 <= pri && pri <= 59
}

/// Whether an operation asks for level 59.
fn is_high(operation: &Operation) -> bool
    ensures { result ≡ is_high (operation_said operation.now) }
{
    match operation {
        Operation::Prio(_, RequestLine::Rt { pri, .. }) => is_high_level(*pri),
        _ => false,
    }
}

/// Whether an operation names the semaphore of a task or of a thread with `start`.
fn names_gate(facts: &Facts, operation: &Operation) -> bool
    ensures { result ≡ names_gate (above_kept facts.now) (operation_said operation.now) }
{
    match operation {
        Operation::SemaP(name) => is_gate(facts, name),
        Operation::SemaV(name) => is_gate(facts, name),
        _ => false,
    }
}

/// Takes an operation, whose words are these.
fn take_operation(
    alloc: Global,
    reader: &mut Reader,
    number: u32,
    word: &[u8],
    rest: &[u8],
    operation: &Operation,
) -> Result<Option<WorkCause>, AllocError>
    ensures cause { IfOk result (λ c. c ≡ operation_cause (seen_kept reader.old) number (word.now ∷ words_of rest.now) (Some (operation_said operation.now))) }
    ensures new { OnOk result (seen_kept reader.new ≡ operation_after (seen_kept reader.old) number (word.now ∷ words_of rest.now) (Some (operation_said operation.now))) }
{
    let is_high = is_high(operation);
    let is_unknown = names_gate(&reader.facts, operation);
    let is_out = reader.facts.is_timed && is_high;
    let text = joined(alloc, word, rest)?;
    push_line(&mut reader.judged, text, number)?;
    reader.facts.has_high = reader.facts.has_high || is_high;
    if is_unknown {
        Ok(Some(WorkCause::Unknown))
    } else if is_out {
        Ok(Some(WorkCause::Range))
    } else {
        Ok(body_cause(reader))
    }
}

// ---- repeats

fn repeat_cause(reader: &Reader, times: u64) -> Option<WorkCause>
    ensures { result ≡ repeat_cause (seen_kept reader.now) (Some times) }
{
    if !(1 <= times && times <= 256) {
        return Some(WorkCause::Range);
    }
    if 8 <= reader.repeats.len() {
        return Some(WorkCause::Limits);
    }
    None
}

/// `repeat N`
fn take_repeat(reader: &mut Reader, times: Option<u64>) -> Result<Option<WorkCause>, AllocError>
    ensures cause { IfOk result (λ c. c ≡ repeat_cause (seen_kept reader.old) times) }
    ensures new { OnOk result (seen_kept reader.new ≡ repeat_after (seen_kept reader.old) times) }
{
    let Some(times) = times else {
        return Ok(Some(WorkCause::Syntax));
    };
    let cause = repeat_cause(reader, times);
    let from = reader.judged.len();
    reader.repeats.push(Repeat { times, from })?;
    Ok(cause)
}

/// Writes the further rounds of a repeat.
fn put_more_rounds(
    alloc: Global,
    judged: &mut Vec<WrittenLine>,
    repeat: Repeat,
) -> Result<(), AllocError>
    ensures { OnOk result (lines_kept judged.new.items ≡ lines_kept judged.old.items ++ again (repeat.times - 1) (drop repeat.from (lines_kept judged.old.items))) }
{
    let mut round = Vec::new(alloc);
    put_all(alloc, &mut round, lines_behind(judged, repeat.from))?;
    put_again(alloc, judged, &round, repeat.times.saturating_sub(1))
}

/// Closes a repeat, the innermost, which is no longer among those that are open.
fn close_repeat(
    alloc: Global,
    reader: &mut Reader,
    repeat: Repeat,
) -> Result<Option<WorkCause>, AllocError>
    ensures cause { IfOk result (λ c. c ≡ body_cause (with_rounds (seen_kept reader.old) repeat)) }
    ensures new { OnOk result (seen_kept reader.new ≡ with_rounds (seen_kept reader.old) repeat) }
{
    put_more_rounds(alloc, &mut reader.judged, repeat)?;
    Ok(body_cause(reader))
}

/// `end`: of the innermost repeat, or of the block.
#[tactic(auto, unfolding(crate::specs::Steps::end_cause, crate::specs::Steps::end_after))]
fn take_end(
    alloc: Global,
    reader: &mut Reader,
    number: u32,
) -> Result<Option<WorkCause>, AllocError>
    ensures cause { IfOk result (λ c. c ≡ end_cause (seen_kept reader.old)) }
    ensures new { OnOk result (seen_kept reader.new ≡ end_after (seen_kept reader.old) number) }
{
    match reader.repeats.pop() {
        Some(repeat) => close_repeat(alloc, reader, repeat),
        None => close_block(alloc, reader, number),
    }
}

// ---- lines

/// Takes a line inside a script or a job, with this first word, behind which this is left.
#[tactic(auto, unfolding(crate::specs::Steps::inside_cause, crate::specs::Steps::inside_after))]
pub(crate) fn take_inside(
    alloc: Global,
    reader: &mut Reader,
    number: u32,
    word: &[u8],
    rest: &[u8],
) -> Result<Option<WorkCause>, AllocError>
    ensures cause { IfOk result (λ c. c ≡ inside_cause (seen_kept reader.old) number word.now (words_of rest.now)) }
    ensures new { OnOk result (seen_kept reader.new ≡ inside_after (seen_kept reader.old) number word.now (words_of rest.now)) }
{
    if is_end(word, rest) {
        return take_end(alloc, reader, number);
    }
    if is_word(word, b"repeat") {
        return take_repeat(reader, repeat_rounds(rest));
    }
    match operation_of(word, rest) {
        Some(operation) => take_operation(alloc, reader, number, word, rest, &operation),
        None => Ok(Some(WorkCause::Syntax)),
    }
}
