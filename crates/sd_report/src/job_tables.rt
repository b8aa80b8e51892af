//! The table of jobs: of each when it was released, started and complete, when it was due, and who delayed it.
//!
//! Source: response-time analysis; the table is this project's own.

ghost use Rattle.std.specs.Prelude.{◌≡◌, ◌++◌, IfOk, OnOk};
ghost use Rattle.std.specs.List.{flat_map};
ghost use Rattle.sd_deadlines.specs.JobLines.{delayers};
ghost use Rattle.sd_report.specs.Cells.{left};
ghost use Rattle.sd_report.specs.JobTables.{delay_cells, delay_head, due_cells, due_head, due_tick, job_head, job_line, jobs_lines, jobs_text, missed_word, more_names, name_behind, names, point_tick, response_ticks, task_jobs_text, time_cells, time_head};

use crate::cells::{put_cell, put_left, put_right};
use crate::set_tables::wide;
use sd_deadlines::{Delay, Task, blocks, delayers, misses, preemptions, set_jobs, start};
use sd_state::State;
use sd_statistics::{Job, Point, told_entries};
use sd_stretches::{ByThread, Happening, thread_name};
use sd_types::{ThreadId, Work};
use std::alloc::{AllocError, Global};

fn point_tick(point: Option<Point>) -> Option<u64>
    ensures { result ≡ point_tick point }
{
    match point {
        Some(point) => Some(u64::from(point.tick)),
        None => None,
    }
}

// From the release of a job to its completion.
fn response_ticks(release: u32, completion: Option<Point>) -> Option<u64>
    ensures { result ≡ response_ticks release completion }
{
    match completion {
        Some(point) => Some(u64::from(point.tick.saturating_sub(release))),
        None => None,
    }
}

// The tick that is so many ticks behind the release.
fn due_tick(release: u32, deadline: Option<u64>) -> Option<u64>
    ensures { result ≡ due_tick release deadline }
{
    match deadline {
        Some(ticks) => Some(u64::from(release).saturating_add(ticks)),
        None => None,
    }
}

// Whether a job missed its deadline, where it has one.
fn missed_word(deadline: Option<u64>, missed: bool) -> &'static [u8]
    ensures { result.now ≡ missed_word deadline missed }
{
    match deadline {
        None => b"-",
        Some(_) => { if missed { b"yes" } else { b"no" } }
    }
}

#[tactic(auto, unfolding(crate::specs::JobTables::time_cells))]
fn put_times(x: Task, told: &[Happening], job: &Job, out: &mut Vec<u8>) -> Result<(), AllocError>
    ensures { OnOk result (out.new.items ≡ out.old.items ++ time_cells x told.now job.now) }
{
    put_cell(9, Some(u64::from(job.release.tick)), out)?;
    put_cell(9, wide(start(x.thread, job, told)), out)?;
    put_cell(12, point_tick(job.completion), out)?;
    put_cell(10, response_ticks(job.release.tick, job.completion), out)
}

#[tactic(auto, unfolding(crate::specs::JobTables::due_cells))]
fn put_due(x: Task, end: u32, job: &Job, out: &mut Vec<u8>) -> Result<(), AllocError>
    ensures { OnOk result (out.new.items ≡ out.old.items ++ due_cells x end job.now) }
{
    put_cell(10, due_tick(job.release.tick, x.deadline), out)?;
    put_right(
        8,
        missed_word(x.deadline, misses(x.deadline, end, job)),
        out,
    )?;
    out.extend_from_slice(b"  ")
}

fn push_name(work: &Work, t: ThreadId, text: &mut Vec<u8>) -> Result<(), AllocError>
    ensures { OnOk result (text.new.items ≡ text.old.items ++ name_behind work.now t) }
{
    text.extend_from_slice(b",")?;
    text.extend_from_slice(thread_name(work, t.0 as usize))
}

#[tactic(auto, unfolding(crate::specs::JobTables::more_names))]
fn push_more(work: &Work, threads: &[ThreadId], text: &mut Vec<u8>) -> Result<(), AllocError>
    ensures { OnOk result (text.new.items ≡ text.old.items ++ more_names work.now threads.now) }
{
    for t in threads {
        push_name(work, *t, text)?;
    }
    Ok(())
}

// Names with commas between them, and a dash for none.
fn push_names(work: &Work, threads: &[ThreadId], text: &mut Vec<u8>) -> Result<(), AllocError>
    ensures { OnOk result (text.new.items ≡ text.old.items ++ names work.now threads.now) }
{
    let Some((t, rest)) = threads.split_first() else {
        return text.extend_from_slice(b"-");
    };
    text.extend_from_slice(thread_name(work, t.0 as usize))?;
    push_more(work, rest, text)
}

// Who causes the delays of a job, in a cell.
fn put_delayers(
    alloc: Global,
    work: &Work,
    delays: &[Delay],
    job: &Job,
    out: &mut Vec<u8>,
) -> Result<(), AllocError>
    ensures { OnOk result (out.new.items ≡ out.old.items ++ left 24 (names work.now (delayers job.now delays.now))) }
{
    let mut text = Vec::new(alloc);
    let threads = delayers(alloc, job, delays)?;
    push_names(work, &threads, &mut text)?;
    put_left(24, &text, out)
}

// The same at the end of a line.
fn put_last_delayers(
    alloc: Global,
    work: &Work,
    delays: &[Delay],
    job: &Job,
    out: &mut Vec<u8>,
) -> Result<(), AllocError>
    ensures { OnOk result (out.new.items ≡ out.old.items ++ names work.now (delayers job.now delays.now)) }
{
    let threads = delayers(alloc, job, delays)?;
    push_names(work, &threads, out)
}

#[tactic(auto, unfolding(crate::specs::JobTables::delay_cells))]
fn put_delays(
    alloc: Global,
    work: &Work,
    preempted: &[Delay],
    blocked: &[Delay],
    job: &Job,
    out: &mut Vec<u8>,
) -> Result<(), AllocError>
    ensures { OnOk result (out.new.items ≡ out.old.items ++ delay_cells work.now preempted.now blocked.now job.now) }
{
    put_delayers(alloc, work, preempted, job, out)?;
    out.extend_from_slice(b" ")?;
    put_last_delayers(alloc, work, blocked, job, out)
}

#[tactic(auto, unfolding(crate::specs::JobTables::job_line))]
fn put_job(
    alloc: Global,
    work: &Work,
    x: Task,
    told: &[Happening],
    preempted: &[Delay],
    blocked: &[Delay],
    job: &Job,
    out: &mut Vec<u8>,
) -> Result<(), AllocError>
    ensures { OnOk result (out.new.items ≡ out.old.items ++ job_line work.now x told.now preempted.now blocked.now job.now) }
{
    put_left(17, thread_name(work, x.thread), out)?;
    put_times(x, told, job, out)?;
    put_due(x, work.limit, job, out)?;
    put_delays(alloc, work, preempted, blocked, job, out)?;
    out.extend_from_slice(b"\n")
}

fn put_jobs(
    alloc: Global,
    work: &Work,
    x: Task,
    told: &[Happening],
    preempted: &[Delay],
    blocked: &[Delay],
    jobs: &[Job],
    out: &mut Vec<u8>,
) -> Result<(), AllocError>
    ensures { OnOk result (out.new.items ≡ out.old.items ++ flat_map (job_line work.now x told.now preempted.now blocked.now) jobs.now) }
{
    for job in jobs {
        put_job(alloc, work, x, told, preempted, blocked, job, out)?;
    }
    Ok(())
}

// The jobs of a task, whose delays are found once.
fn put_delayed(
    alloc: Global,
    work: &Work,
    x: Task,
    happenings: &[Happening],
    told: &[Happening],
    jobs: &[Job],
    out: &mut Vec<u8>,
) -> Result<(), AllocError>
    ensures { OnOk result (out.new.items ≡ out.old.items ++ jobs_lines work.now x happenings.now told.now jobs.now) }
{
    let preempted = preemptions(alloc, x.thread, happenings)?;
    let blocked = blocks(alloc, x.thread, happenings)?;
    put_jobs(alloc, work, x, told, &preempted, &blocked, jobs, out)
}

#[tactic(auto, unfolding(crate::specs::JobTables::task_jobs_text))]
fn put_task(
    alloc: Global,
    work: &Work,
    history: &ByThread,
    end: &State,
    x: Task,
    out: &mut Vec<u8>,
) -> Result<(), AllocError>
    ensures { OnOk result (out.new.items ≡ out.old.items ++ task_jobs_text work.now history.now end.now x) }
{
    let happenings = &history.history.happenings;
    let told = told_entries(alloc, x.thread, x.sema.0, happenings)?;
    let jobs = set_jobs(alloc, work, history, end, x)?;
    put_delayed(alloc, work, x, happenings, &told, &jobs, out)
}

fn put_tasks(
    alloc: Global,
    work: &Work,
    history: &ByThread,
    end: &State,
    tasks: &[Task],
    out: &mut Vec<u8>,
) -> Result<(), AllocError>
    ensures { OnOk result (out.new.items ≡ out.old.items ++ flat_map (task_jobs_text work.now history.now end.now) tasks.now) }
{
    for x in tasks {
        put_task(alloc, work, history, end, *x, out)?;
    }
    Ok(())
}

#[tactic(auto, unfolding(crate::specs::JobTables::time_head))]
fn put_time_head(out: &mut Vec<u8>) -> Result<(), AllocError>
    ensures { OnOk result (out.new.items ≡ out.old.items ++ time_head) }
{
    put_left(17, b"task", out)?;
    put_right(9, b"release", out)?;
    put_right(9, b"start", out)?;
    put_right(12, b"completion", out)?;
    put_right(10, b"response", out)
}

#[tactic(auto, unfolding(crate::specs::JobTables::due_head))]
fn put_due_head(out: &mut Vec<u8>) -> Result<(), AllocError>
    ensures { OnOk result (out.new.items ≡ out.old.items ++ due_head) }
{
    put_right(10, b"deadline", out)?;
    put_right(8, b"missed", out)
}

#[tactic(auto, unfolding(crate::specs::JobTables::delay_head))]
fn put_delay_head(out: &mut Vec<u8>) -> Result<(), AllocError>
    ensures { OnOk result (out.new.items ≡ out.old.items ++ delay_head) }
{
    put_right(14, b"preempted by", out)?;
    put_right(23, b"blocked by", out)
}

#[tactic(auto, unfolding(crate::specs::JobTables::job_head))]
fn put_head(out: &mut Vec<u8>) -> Result<(), AllocError>
    ensures { OnOk result (out.new.items ≡ out.old.items ++ job_head) }
{
    put_time_head(out)?;
    put_due_head(out)?;
    put_delay_head(out)?;
    out.extend_from_slice(b"\n")
}

/// The jobs of these tasks in a run of the workload, of which this is the history, and which ends in this state, as a table: a line for
/// each job, in the order of its task's jobs.
#[tactic(auto, unfolding(crate::specs::JobTables::jobs_text))]
pub fn jobs_report(
    alloc: Global,
    work: &Work,
    history: &ByThread,
    end: &State,
    tasks: &[Task],
) -> Result<Vec<u8>, AllocError>
    ensures { IfOk result (λ text. text.items ≡ jobs_text work.now history.now end.now tasks.now) }
{
    let mut text = Vec::new(alloc);
    put_head(&mut text)?;
    put_tasks(alloc, work, history, end, tasks, &mut text)?;
    Ok(text)
}
