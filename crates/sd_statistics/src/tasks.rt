//! The rows of tasks: how soon their jobs are complete, and how many are not.
//!
//! Source: response-time analysis; the rows are this project's own.

ghost use Rattle.std.specs.Prelude.{◌≡◌, ◌++◌, IfOk, OnOk};
ghost use Rattle.std.specs.List.{flat_map, range_with_len};
ghost use Rattle.sd_statistics.specs.Tasks.{chan_part, chan_rows, job_rows, kind_of, response_of, response_row, responses, sema_rows, task_jobs, task_part, task_rows, unfinished, unfinished_row};

use crate::jobs::{Job, jobs_of, script_of, takes, told_entries};
use crate::rows::{Measure, Row, Subject, all_of, count_figures, push_row};
use crate::spans::{Span, summary_of};
use sd_state::State;
use sd_stretches::History;
use sd_types::{ChanId, ChanKind, Work};
use std::alloc::{AllocError, Global};

// The response of the job, where it is complete.
fn push_response(t: usize, x: &Job, out: &mut Vec<Span>) -> Result<(), AllocError>
    ensures { OnOk result (out.new.items ≡ out.old.items ++ response_of t x.now) }
{
    if let Some(completion) = x.completion {
        out.push(Span {
            thread: t,
            first: x.release.first,
            last: completion.entry,
            from: x.release.tick,
            to: completion.tick,
        })?;
    }
    Ok(())
}

/// The responses of the jobs of thread `t` that are complete.
#[tactic(auto, unfolding(crate::specs::Tasks::responses))]
pub fn responses(alloc: Global, t: usize, jobs: &[Job]) -> Result<Vec<Span>, AllocError>
    ensures { IfOk result (λ v. v.items ≡ responses t jobs.now) }
{
    let mut found = Vec::new(alloc);
    for x in jobs {
        push_response(t, x, &mut found)?;
    }
    Ok(found)
}

// How many jobs are not complete.
fn unfinished(jobs: &[Job]) -> usize
    ensures { result ≡ unfinished jobs.now }
{
    jobs.iter().filter(|x| x.completion.is_none()).count()
}

fn push_response_row(
    alloc: Global,
    k: u16,
    t: usize,
    jobs: &[Job],
    out: &mut Vec<Row>,
) -> Result<(), AllocError>
    ensures { OnOk result (out.new.items ≡ out.old.items ++ response_row k t jobs.now) }
{
    let spans = responses(alloc, t, jobs)?;
    push_row(
        Row {
            subject: Subject::Task(t, ChanId(k)),
            measure: Measure::Responds,
            figures: all_of(summary_of(&spans)),
        },
        out,
    )
}

fn push_unfinished_row(k: u16, t: usize, jobs: &[Job], out: &mut Vec<Row>) -> Result<(), AllocError>
    ensures { OnOk result (out.new.items ≡ out.old.items ++ unfinished_row k t jobs.now) }
{
    push_row(
        Row {
            subject: Subject::Task(t, ChanId(k)),
            measure: Measure::Unfinished,
            figures: count_figures(unfinished(jobs) as u64),
        },
        out,
    )
}

#[tactic(auto, unfolding(crate::specs::Tasks::job_rows))]
fn push_job_rows(
    alloc: Global,
    k: u16,
    t: usize,
    jobs: &[Job],
    out: &mut Vec<Row>,
) -> Result<(), AllocError>
    ensures { OnOk result (out.new.items ≡ out.old.items ++ job_rows k t jobs.now) }
{
    push_response_row(alloc, k, t, jobs, out)?;
    push_unfinished_row(k, t, jobs, out)
}

/// The jobs of thread `t` by semaphore `k`, which begins with `count` units.
pub fn task_jobs(
    alloc: Global,
    work: &Work,
    history: &History,
    end: &State,
    k: u16,
    count: u16,
    t: usize,
) -> Result<Vec<Job>, AllocError>
    ensures { IfOk result (λ v. v.items ≡ task_jobs work.now history.now end.now k count t) }
{
    let told = told_entries(alloc, t, k, &history.happenings)?;
    jobs_of(alloc, work, end, k, count, t, &told)
}

// The rows of the thread, where it takes units of the semaphore.
fn push_task(
    alloc: Global,
    work: &Work,
    history: &History,
    end: &State,
    k: u16,
    count: u16,
    t: usize,
    out: &mut Vec<Row>,
) -> Result<(), AllocError>
    ensures { OnOk result (out.new.items ≡ out.old.items ++ task_part work.now history.now end.now k count t) }
{
    if !takes(k, script_of(work, t)) {
        return Ok(());
    }
    let jobs = task_jobs(alloc, work, history, end, k, count, t)?;
    push_job_rows(alloc, k, t, &jobs, out)
}

// The rows of the tasks of one semaphore.
#[tactic(auto, unfolding(crate::specs::Tasks::sema_rows))]
fn push_sema(
    alloc: Global,
    work: &Work,
    history: &History,
    end: &State,
    k: u16,
    count: u16,
    out: &mut Vec<Row>,
) -> Result<(), AllocError>
    ensures { OnOk result (out.new.items ≡ out.old.items ++ sema_rows work.now history.now end.now k count) }
{
    for t in 0..work.threads.items().len() {
        push_task(alloc, work, history, end, k, count, t, out)?;
    }
    Ok(())
}

/// The kind of the channel with this number, where there is one.
pub fn kind_of(work: &Work, k: u16) -> Option<ChanKind>
    ensures { result ≡ kind_of work.now k }
{
    match work.chans.items().get(k as usize) {
        Some(chan) => Some(chan.1),
        None => None,
    }
}

fn push_chan(
    alloc: Global,
    work: &Work,
    history: &History,
    end: &State,
    k: u16,
    out: &mut Vec<Row>,
) -> Result<(), AllocError>
    ensures { OnOk result (out.new.items ≡ out.old.items ++ chan_part work.now history.now end.now k) }
{
    match kind_of(work, k) {
        Some(ChanKind::Sema { count }) => push_sema(alloc, work, history, end, k, count, out),
        _ => Ok(()),
    }
}

/// The rows of the tasks of a run of the workload, of which this is the history, and which ends in this state. A task is a thread
/// that takes a unit of a semaphore before each of its jobs; a job is released with its unit, at tick 0 for those with which the semaphore
/// begins. Its response is from there to its completion. One row has the number of complete jobs, the sum of their
/// responses, and the greatest; another the number of jobs that are not complete. A row that would have nothing to count is left out.
#[tactic(auto, unfolding(crate::specs::Tasks::task_rows))]
pub fn task_rows(
    alloc: Global,
    work: &Work,
    history: &History,
    end: &State,
) -> Result<Vec<Row>, AllocError>
    ensures { IfOk result (λ v. v.items ≡ task_rows work.now history.now end.now) }
{
    let mut rows = Vec::new(alloc);
    for k in 0..work.chans.items().len() {
        push_chan(alloc, work, history, end, k as u16, &mut rows)?;
    }
    Ok(rows)
}
