//! The table of the tasks of a set: of each its deadline, its jobs, its responses and what was missed.
//!
//! Source: response-time analysis; the table is this project's own.

ghost use Rattle.std.specs.Prelude.{◌≡◌, ◌++◌, IfOk, OnOk};
ghost use Rattle.std.specs.List.{flat_map};
ghost use Rattle.sd_report.specs.Cells.{right};
ghost use Rattle.sd_report.specs.SetTables.{job_cells, mean_cell, miss_cells, response_cells, set_head, set_line, set_section, task_lines, unfinished};

use crate::cells::{put_cell, put_left, put_right};
use crate::tables::longest_ticks;
use sd_deadlines::{Mean, Task, TaskLine, mean_of, task_line};
use sd_state::State;
use sd_stretches::{ByThread, put_counted, thread_name};
use sd_text::put_number;
use sd_types::Work;
use std::alloc::{AllocError, Global};

/// The same number, where there is one.
pub(crate) fn wide(n: Option<u32>) -> Option<u64>
    ensures { result ≡ n }
{
    match n {
        Some(n) => Some(u64::from(n)),
        None => None,
    }
}

// `ticks/jobs`
fn push_mean(mean: Option<Mean>, text: &mut Vec<u8>) -> Result<(), AllocError>
    ensures { OnOk result (text.new.items ≡ text.old.items ++ mean_cell mean) }
{
    let Some(mean) = mean else {
        return text.extend_from_slice(b"-");
    };
    put_number(text, mean.ticks)?;
    put_counted(b"/", mean.jobs, text)
}

fn put_mean(alloc: Global, mean: Option<Mean>, out: &mut Vec<u8>) -> Result<(), AllocError>
    ensures { OnOk result (out.new.items ≡ out.old.items ++ right 12 (mean_cell mean)) }
{
    let mut text = Vec::new(alloc);
    push_mean(mean, &mut text)?;
    put_right(12, &text, out)
}

/// The jobs that are not complete.
pub(crate) fn unfinished(x: &TaskLine) -> u64
    ensures { result ≡ unfinished x.now }
{
    x.released.saturating_sub(x.responses.number)
}

#[tactic(auto, unfolding(crate::specs::SetTables::job_cells))]
fn put_jobs(x: &TaskLine, out: &mut Vec<u8>) -> Result<(), AllocError>
    ensures { OnOk result (out.new.items ≡ out.old.items ++ job_cells x.now) }
{
    put_cell(10, x.task.deadline, out)?;
    put_cell(10, Some(x.released), out)?;
    put_cell(10, Some(x.responses.number), out)?;
    put_cell(12, Some(unfinished(x)), out)
}

#[tactic(auto, unfolding(crate::specs::SetTables::response_cells))]
fn put_responses(alloc: Global, x: &TaskLine, out: &mut Vec<u8>) -> Result<(), AllocError>
    ensures { OnOk result (out.new.items ≡ out.old.items ++ response_cells x.now) }
{
    put_cell(8, wide(x.least), out)?;
    put_mean(alloc, mean_of(x.responses), out)?;
    put_cell(10, longest_ticks(x.responses.longest), out)
}

#[tactic(auto, unfolding(crate::specs::SetTables::miss_cells))]
fn put_misses(x: &TaskLine, out: &mut Vec<u8>) -> Result<(), AllocError>
    ensures { OnOk result (out.new.items ≡ out.old.items ++ miss_cells x.now) }
{
    put_cell(8, Some(x.misses), out)?;
    put_cell(8, wide(x.first_miss), out)?;
    put_cell(9, x.blocked, out)
}

#[tactic(auto, unfolding(crate::specs::SetTables::set_line))]
fn put_line(alloc: Global, work: &Work, x: &TaskLine, out: &mut Vec<u8>) -> Result<(), AllocError>
    ensures { OnOk result (out.new.items ≡ out.old.items ++ set_line work.now x.now) }
{
    put_left(17, thread_name(work, x.task.thread), out)?;
    put_jobs(x, out)?;
    put_responses(alloc, x, out)?;
    put_misses(x, out)?;
    out.extend_from_slice(b"\n")
}

#[tactic(auto, unfolding(crate::specs::SetTables::set_head))]
fn put_head(out: &mut Vec<u8>) -> Result<(), AllocError>
    ensures { OnOk result (out.new.items ≡ out.old.items ++ set_head) }
{
    put_left(17, b"task", out)?;
    put_right(10, b"deadline", out)?;
    put_right(10, b"released", out)?;
    put_right(10, b"complete", out)?;
    put_right(12, b"unfinished", out)?;
    put_right(8, b"least", out)?;
    put_right(12, b"mean", out)?;
    put_right(10, b"greatest", out)?;
    put_right(8, b"misses", out)?;
    put_right(8, b"first", out)?;
    put_right(9, b"blocked", out)?;
    out.extend_from_slice(b"\n")
}

fn put_lines(
    alloc: Global,
    work: &Work,
    lines: &[TaskLine],
    out: &mut Vec<u8>,
) -> Result<(), AllocError>
    ensures { OnOk result (out.new.items ≡ out.old.items ++ flat_map (set_line work.now) lines.now) }
{
    for x in lines {
        put_line(alloc, work, x, out)?;
    }
    Ok(())
}

/// The table of the tasks of a set under its title, where the set has tasks.
#[tactic(auto, unfolding(crate::specs::SetTables::set_section))]
pub(crate) fn put_set_section(
    alloc: Global,
    work: &Work,
    lines: &[TaskLine],
    out: &mut Vec<u8>,
) -> Result<(), AllocError>
    ensures { OnOk result (out.new.items ≡ out.old.items ++ set_section work.now lines.now) }
{
    if lines.is_empty() {
        return Ok(());
    }
    out.extend_from_slice(b"\ntasks of the set\n")?;
    put_head(out)?;
    put_lines(alloc, work, lines, out)
}

/// What the table says of each of these tasks.
#[tactic(auto, unfolding(crate::specs::SetTables::task_lines))]
pub(crate) fn task_lines(
    alloc: Global,
    work: &Work,
    history: &ByThread,
    end: &State,
    tasks: &[Task],
) -> Result<Vec<TaskLine>, AllocError>
    ensures { IfOk result (λ v. v.items ≡ task_lines work.now history.now end.now tasks.now) }
{
    let mut lines = Vec::new(alloc);
    for x in tasks {
        let line = task_line(alloc, work, history, end, *x)?;
        lines.push(line)?;
    }
    Ok(lines)
}
