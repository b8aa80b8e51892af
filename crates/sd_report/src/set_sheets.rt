//! The table of the tasks of a set as comma-separated rows: one for each number, in the columns of all rows.
//!
//! Source: RFC 4180 (comma-separated values).

ghost use Rattle.std.specs.Prelude.{◌≡◌, ◌∷◌, [], ◌++◌, ℕ, OnOk, List as Items};
ghost use Rattle.sd_report.specs.SetSheets.{job_rows, line_rows, mean_jobs, mean_ticks, miss_rows, no_longest, response_rows, set_numbers, set_row, set_rows, set_words};
ghost use Rattle.sd_report.specs.Sheets.{HasFields};

use crate::set_tables::{unfinished, wide};
use crate::sheets::{push_field, push_figure, put_record};
use crate::tables::longest_ticks;
use csv::ByteRecord;
use sd_deadlines::{Mean, Task, TaskLine, mean_of};
use sd_stretches::{chan_name, thread_name};
use sd_types::Work;
use std::alloc::{AllocError, Global};

// Of which task, what is measured, and of which semaphore.
fn push_words(
    work: &Work,
    x: Task,
    measure: &[u8],
    fields: &mut ByteRecord,
) -> Result<(), AllocError>
    ensures { OnOk result ((xs : Items (Items ℕ)) → HasFields fields.old xs → HasFields fields.new (xs ++ set_words work.now x measure.now)) }
{
    push_field(b"set task", fields)?;
    push_field(thread_name(work, x.thread), fields)?;
    push_field(measure, fields)?;
    push_field(chan_name(work, x.sema), fields)
}

// A number and ticks, and no priority.
fn push_numbers(
    alloc: Global,
    number: Option<u64>,
    ticks: Option<u64>,
    fields: &mut ByteRecord,
) -> Result<(), AllocError>
    ensures { OnOk result ((xs : Items (Items ℕ)) → HasFields fields.old xs → HasFields fields.new (xs ++ set_numbers number ticks)) }
{
    push_figure(alloc, number, fields)?;
    push_figure(alloc, ticks, fields)?;
    push_field(b"", fields)
}

// The columns of the longest have nothing to say.
fn push_no_longest(fields: &mut ByteRecord) -> Result<(), AllocError>
    ensures { OnOk result ((xs : Items (Items ℕ)) → HasFields fields.old xs → HasFields fields.new (xs ++ no_longest)) }
{
    push_field(b"", fields)?;
    push_field(b"", fields)?;
    push_field(b"", fields)?;
    push_field(b"", fields)
}

/// A row on a task: what is measured, a number and ticks.
#[tactic(auto, unfolding(crate::specs::SetSheets::set_row))]
pub(crate) fn put_row(
    alloc: Global,
    work: &Work,
    x: Task,
    measure: &[u8],
    number: Option<u64>,
    ticks: Option<u64>,
    out: &mut Vec<u8>,
) -> Result<(), AllocError>
    ensures { OnOk result (out.new.items ≡ out.old.items ++ set_row work.now x measure.now number ticks) }
{
    let mut fields = ByteRecord::new(alloc);
    push_words(work, x, measure, &mut fields)?;
    push_numbers(alloc, number, ticks, &mut fields)?;
    push_no_longest(&mut fields)?;
    put_record(alloc, &fields, out)
}

#[tactic(auto, unfolding(crate::specs::SetSheets::job_rows))]
fn put_jobs(alloc: Global, work: &Work, x: &TaskLine, out: &mut Vec<u8>) -> Result<(), AllocError>
    ensures { OnOk result (out.new.items ≡ out.old.items ++ job_rows work.now x.now) }
{
    let complete = x.responses.number;
    put_row(alloc, work, x.task, b"deadline", None, x.task.deadline, out)?;
    put_row(
        alloc,
        work,
        x.task,
        b"released",
        Some(x.released),
        None,
        out,
    )?;
    put_row(alloc, work, x.task, b"complete", Some(complete), None, out)?;
    put_row(
        alloc,
        work,
        x.task,
        b"unfinished",
        Some(unfinished(x)),
        None,
        out,
    )
}

fn mean_jobs(mean: Option<Mean>) -> Option<u64>
    ensures { result ≡ mean_jobs mean }
{
    match mean {
        Some(mean) => Some(mean.jobs),
        None => None,
    }
}

fn mean_ticks(mean: Option<Mean>) -> Option<u64>
    ensures { result ≡ mean_ticks mean }
{
    match mean {
        Some(mean) => Some(mean.ticks),
        None => None,
    }
}

#[tactic(auto, unfolding(crate::specs::SetSheets::response_rows))]
fn put_responses(
    alloc: Global,
    work: &Work,
    x: &TaskLine,
    out: &mut Vec<u8>,
) -> Result<(), AllocError>
    ensures { OnOk result (out.new.items ≡ out.old.items ++ response_rows work.now x.now) }
{
    let mean = mean_of(x.responses);
    let greatest = longest_ticks(x.responses.longest);
    put_row(alloc, work, x.task, b"least", None, wide(x.least), out)?;
    put_row(
        alloc,
        work,
        x.task,
        b"mean",
        mean_jobs(mean),
        mean_ticks(mean),
        out,
    )?;
    put_row(alloc, work, x.task, b"greatest", None, greatest, out)
}

#[tactic(auto, unfolding(crate::specs::SetSheets::miss_rows))]
fn put_misses(alloc: Global, work: &Work, x: &TaskLine, out: &mut Vec<u8>) -> Result<(), AllocError>
    ensures { OnOk result (out.new.items ≡ out.old.items ++ miss_rows work.now x.now) }
{
    put_row(alloc, work, x.task, b"misses", Some(x.misses), None, out)?;
    put_row(
        alloc,
        work,
        x.task,
        b"first miss",
        None,
        wide(x.first_miss),
        out,
    )?;
    put_row(alloc, work, x.task, b"blocked", None, x.blocked, out)
}

#[tactic(auto, unfolding(crate::specs::SetSheets::line_rows))]
fn put_line(alloc: Global, work: &Work, x: &TaskLine, out: &mut Vec<u8>) -> Result<(), AllocError>
    ensures { OnOk result (out.new.items ≡ out.old.items ++ line_rows work.now x.now) }
{
    put_jobs(alloc, work, x, out)?;
    put_responses(alloc, work, x, out)?;
    put_misses(alloc, work, x, out)
}

/// The rows of what the table says of each task.
#[tactic(auto, unfolding(crate::specs::SetSheets::set_rows))]
pub(crate) fn put_set_rows(
    alloc: Global,
    work: &Work,
    lines: &[TaskLine],
    out: &mut Vec<u8>,
) -> Result<(), AllocError>
    ensures { OnOk result (out.new.items ≡ out.old.items ++ set_rows work.now lines.now) }
{
    for x in lines {
        put_line(alloc, work, x, out)?;
    }
    Ok(())
}
