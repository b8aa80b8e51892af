//! The reader of a task set, line by line.

ghost use Rattle.std.specs.Prelude.{◌≡◌, ◌++◌, ◌∷◌, [], OnOk, IfOk, Some};
ghost use Rattle.sd_text.specs.Words.{words_of};
ghost use Rattle.sd_lines.specs.Said.{statement_said};
ghost use Rattle.sd_lines.specs.Statements.{statement_of};
ghost use Rattle.sd_tasks.specs.Blocks.{start, with_line};
ghost use Rattle.sd_tasks.specs.Forms.{job_name, timed_line};
ghost use Rattle.sd_tasks.specs.FormsKept.{timed_said};
ghost use Rattle.sd_tasks.specs.Kept.{above_kept, seen_kept};
ghost use Rattle.sd_tasks.specs.Timed.{timed_cause};
ghost use Rattle.sd_tasks.specs.Steps.{cause_at_end, cause_of, job_after, is_outside, job_cause, limit_cause, outside_after, outside_cause, row_after, seen_after, stated, stated_cause, timed_after};
ghost use Rattle.sd_tasks.specs.Written.{joined, written};

use crate::blocks::{Block, Repeat};
use crate::facts::{Facts, no_facts};
use crate::forms::{TimedLine, has_options, job_name, timed_line};
use crate::openings::{open, script_cause};
use crate::operations::take_inside;
use crate::statements::{declare, stated_cause};
use crate::timed::{declare_timed, put_timed, timed_cause};
use crate::written::{WrittenLine, joined, push_line};
use sd_declare::WorkCause;
use sd_lines::{Statement, first_word, is_end, is_word, statement_of};
use sd_types::MOST_TICKS;
use std::alloc::{AllocError, Global};

/// What is seen of a task set so far: what its lines say, the lines of the workload by which it is judged and of the one
/// to which it expands, the block that is open, and the repeats that are open, of which the innermost is the last.
#[derive(Drop)]
pub struct Reader {
    pub facts: Facts,
    pub judged: Vec<WrittenLine>,
    pub written: Vec<WrittenLine>,
    pub block: Block,
    pub repeats: Vec<Repeat>,
}

/// A reader that has seen no line.
pub(crate) fn new_reader(alloc: Global) -> Reader
    ensures { seen_kept result ≡ start }
{
    Reader {
        facts: no_facts(alloc),
        judged: Vec::new(alloc),
        written: Vec::new(alloc),
        block: Block::Outside,
        repeats: Vec::new(alloc),
    }
}

/// A line of the set that stands in both workloads.
fn push_both(
    alloc: Global,
    reader: &mut Reader,
    number: u32,
    word: &[u8],
    rest: &[u8],
) -> Result<(), AllocError>
    ensures { OnOk result (seen_kept reader.new ≡ with_line (seen_kept reader.old) (written (joined (word.now ∷ words_of rest.now)) number)) }
{
    let text = joined(alloc, word, rest)?;
    let copy = Vec::from_slice(alloc, &text)?;
    push_line(&mut reader.judged, text, number)?;
    push_line(&mut reader.written, copy, number)
}

// ---- lines outside blocks

/// A line of a workload that has its form.
fn take_statement(
    alloc: Global,
    reader: &mut Reader,
    number: u32,
    word: &[u8],
    rest: &[u8],
    statement: Statement,
) -> Result<(), AllocError>
    ensures { OnOk result (seen_kept reader.new ≡ stated (seen_kept reader.old) number (word.now ∷ words_of rest.now) (Some (statement_said statement))) }
{
    match statement {
        Statement::Script(name) => open(alloc, reader, number, &name),
        Statement::Table(_) => {
            push_both(alloc, reader, number, word, rest)?;
            reader.block = Block::Table;
            Ok(())
        }
        other => {
            push_both(alloc, reader, number, word, rest)?;
            declare(&mut reader.facts, number, other)
        }
    }
}

/// A line of a workload.
fn take_stated(
    alloc: Global,
    reader: &mut Reader,
    number: u32,
    word: &[u8],
    rest: &[u8],
) -> Result<Option<WorkCause>, AllocError>
    ensures cause { IfOk result (λ c. c ≡ stated_cause (above_kept reader.old.facts) (statement_of (word.now ∷ words_of rest.now))) }
    ensures new { OnOk result (seen_kept reader.new ≡ stated (seen_kept reader.old) number (word.now ∷ words_of rest.now) (statement_of (word.now ∷ words_of rest.now))) }
{
    let Some(statement) = statement_of(alloc, word, rest)? else {
        return Ok(Some(WorkCause::Syntax));
    };
    let cause = stated_cause(&reader.facts, &statement);
    take_statement(alloc, reader, number, word, rest, statement)?;
    Ok(cause)
}

/// A timed line that has its form.
fn put_declared(
    alloc: Global,
    reader: &mut Reader,
    number: u32,
    is_task: bool,
    line: TimedLine,
) -> Result<Option<WorkCause>, AllocError>
    ensures cause { IfOk result (λ c. c ≡ timed_cause (above_kept reader.old.facts) is_task (Some (timed_said line))) }
    ensures new { OnOk result (seen_kept reader.new ≡ timed_after (seen_kept reader.old) number is_task (Some (timed_said line))) }
{
    let cause = timed_cause(&reader.facts, is_task, &line);
    put_timed(
        alloc,
        &reader.facts,
        &mut reader.judged,
        is_task,
        &line,
        number,
    )?;
    put_timed(
        alloc,
        &reader.facts,
        &mut reader.written,
        is_task,
        &line,
        number,
    )?;
    declare_timed(&mut reader.facts, number, is_task, line)?;
    Ok(cause)
}

/// A timed line, behind its first word.
#[tactic(auto, unfolding(crate::specs::Timed::timed_cause))]
fn take_timed(
    alloc: Global,
    reader: &mut Reader,
    number: u32,
    is_task: bool,
    rest: &[u8],
) -> Result<Option<WorkCause>, AllocError>
    ensures cause { IfOk result (λ c. c ≡ timed_cause (above_kept reader.old.facts) is_task (timed_line is_task (words_of rest.now))) }
    ensures new { OnOk result (seen_kept reader.new ≡ timed_after (seen_kept reader.old) number is_task (timed_line is_task (words_of rest.now))) }
{
    match timed_line(alloc, is_task, rest)? {
        Some(line) => put_declared(alloc, reader, number, is_task, line),
        None => Ok(Some(WorkCause::Syntax)),
    }
}

/// `job NAME`, behind its first word.
fn take_job(
    alloc: Global,
    reader: &mut Reader,
    number: u32,
    rest: &[u8],
) -> Result<Option<WorkCause>, AllocError>
    ensures cause { IfOk result (λ c. c ≡ job_cause (above_kept reader.old.facts) (job_name (words_of rest.now))) }
    ensures new { OnOk result (seen_kept reader.new ≡ job_after (seen_kept reader.old) number (job_name (words_of rest.now))) }
{
    let Some(name) = job_name(alloc, rest)? else {
        return Ok(Some(WorkCause::Syntax));
    };
    let cause = script_cause(&reader.facts, true, &name);
    open(alloc, reader, number, &name)?;
    Ok(cause)
}

/// A line outside blocks, with this first word, behind which this is left.
#[tactic(auto, unfolding(crate::specs::Steps::outside_cause, crate::specs::Steps::outside_after))]
fn take_outside(
    alloc: Global,
    reader: &mut Reader,
    number: u32,
    word: &[u8],
    rest: &[u8],
) -> Result<Option<WorkCause>, AllocError>
    ensures cause { IfOk result (λ c. c ≡ outside_cause (seen_kept reader.old) word.now (words_of rest.now)) }
    ensures new { OnOk result (seen_kept reader.new ≡ outside_after (seen_kept reader.old) number word.now (words_of rest.now)) }
{
    if is_word(word, b"task") {
        take_timed(alloc, reader, number, true, rest)
    } else if is_word(word, b"job") {
        take_job(alloc, reader, number, rest)
    } else if is_word(word, b"thread") && has_options(rest) {
        take_timed(alloc, reader, number, false, rest)
    } else {
        take_stated(alloc, reader, number, word, rest)
    }
}

// ---- lines of tables

#[tactic(auto, unfolding(crate::specs::Steps::row_after))]
fn take_row(
    alloc: Global,
    reader: &mut Reader,
    number: u32,
    word: &[u8],
    rest: &[u8],
) -> Result<(), AllocError>
    ensures { OnOk result (seen_kept reader.new ≡ row_after (seen_kept reader.old) number (word.now ∷ words_of rest.now)) }
{
    push_both(alloc, reader, number, word, rest)?;
    if is_end(word, rest) {
        reader.block = Block::Outside;
    }
    Ok(())
}

// ---- lines

/// Takes a line, and says why it is at fault by the rules of task sets, if it is.
#[tactic(auto, unfolding(crate::specs::Steps::cause_of, crate::specs::Steps::seen_after))]
pub(crate) fn take_line(
    alloc: Global,
    reader: &mut Reader,
    number: u32,
    line: &[u8],
) -> Result<Option<WorkCause>, AllocError>
    ensures cause { IfOk result (λ c. c ≡ cause_of (seen_kept reader.old) number (words_of line.now)) }
    ensures new { OnOk result (seen_kept reader.new ≡ seen_after (seen_kept reader.old) number (words_of line.now)) }
{
    let Some((word, rest)) = first_word(line) else {
        return Ok(None);
    };
    match reader.block {
        Block::Outside => take_outside(alloc, reader, number, word, rest),
        Block::Table => {
            take_row(alloc, reader, number, word, rest)?;
            Ok(None)
        }
        Block::Script { .. } => take_inside(alloc, reader, number, word, rest),
    }
}

fn is_outside(block: Block) -> bool
    ensures { result ≡ is_outside block }
{
    match block {
        Block::Outside => true,
        Block::Table => false,
        Block::Script { .. } => false,
    }
}

/// Why the limit is at fault at the end of the input, if it is.
fn limit_cause(facts: &Facts) -> Option<WorkCause>
    ensures { result ≡ limit_cause (above_kept facts.now) facts.now.limit }
{
    let Some(limit) = facts.limit else {
        return Some(WorkCause::Syntax);
    };
    if MOST_TICKS / facts.cpus.max(1) < limit {
        Some(WorkCause::Limits)
    } else {
        None
    }
}

/// Why the end of the input is at fault, if it is.
pub(crate) fn cause_at_end(reader: &Reader) -> Option<WorkCause>
    ensures { result ≡ cause_at_end (seen_kept reader.now) }
{
    if is_outside(reader.block) {
        limit_cause(&reader.facts)
    } else {
        Some(WorkCause::Syntax)
    }
}
