//! The histograms of a set as comma-separated rows: for each response of a task that occurs, how many jobs have it.
//!
//! Source: RFC 4180 (comma-separated values).

ghost use Rattle.std.specs.Prelude.{◌≡◌, ◌++◌, ◌≤◌, OnOk};
ghost use Rattle.sd_report.specs.SetResponses.{all_responses, response_at, response_if, task_responses, responses_between, responses_by, spans_rows};

use crate::histograms::jobs_at;
use crate::set_sheets::put_row;
use sd_deadlines::{Task, least, set_jobs};
use sd_state::State;
use sd_statistics::{Span, responses, summary_of, ticks_of};
use sd_stretches::ByThread;
use sd_types::Work;
use std::alloc::{AllocError, Global};

// Nothing for a response that does not occur.
fn put_if(
    alloc: Global,
    work: &Work,
    x: Task,
    ticks: u64,
    jobs: u64,
    out: &mut Vec<u8>,
) -> Result<(), AllocError>
    ensures { OnOk result (out.new.items ≡ out.old.items ++ response_if work.now x ticks jobs) }
{
    if jobs == 0 {
        return Ok(());
    }
    put_row(alloc, work, x, b"response", Some(jobs), Some(ticks), out)
}

fn put_at(
    alloc: Global,
    work: &Work,
    x: Task,
    spans: &[Span],
    from: u32,
    i: u64,
    out: &mut Vec<u8>,
) -> Result<(), AllocError>
    requires { i ≤ u32.MAX }
    ensures { OnOk result (out.new.items ≡ out.old.items ++ response_at work.now x spans.now from i) }
{
    let ticks = u64::from(from) + i;
    put_if(alloc, work, x, ticks, jobs_at(spans, ticks) as u64, out)
}

#[tactic(auto, unfolding(crate::specs::SetResponses::responses_between))]
fn put_between(
    alloc: Global,
    work: &Work,
    x: Task,
    spans: &[Span],
    from: u32,
    to: u32,
    out: &mut Vec<u8>,
) -> Result<(), AllocError>
    ensures { OnOk result (out.new.items ≡ out.old.items ++ responses_between work.now x spans.now from to) }
{
    let count = (u64::from(to) + 1).saturating_sub(u64::from(from));
    for i in 0..count {
        put_at(alloc, work, x, spans, from, i, out)?;
    }
    Ok(())
}

// From the least to the greatest, where there are responses.
fn put_by(
    alloc: Global,
    work: &Work,
    x: Task,
    spans: &[Span],
    from: Option<u32>,
    to: Option<Span>,
    out: &mut Vec<u8>,
) -> Result<(), AllocError>
    ensures { OnOk result (out.new.items ≡ out.old.items ++ responses_by work.now x spans.now from to) }
{
    match (from, to) {
        (Some(from), Some(to)) => put_between(alloc, work, x, spans, from, ticks_of(to), out),
        _ => Ok(()),
    }
}

fn put_spans(
    alloc: Global,
    work: &Work,
    x: Task,
    spans: &[Span],
    out: &mut Vec<u8>,
) -> Result<(), AllocError>
    ensures { OnOk result (out.new.items ≡ out.old.items ++ spans_rows work.now x spans.now) }
{
    put_by(
        alloc,
        work,
        x,
        spans,
        least(spans),
        summary_of(spans).longest,
        out,
    )
}

fn put_task(
    alloc: Global,
    work: &Work,
    history: &ByThread,
    end: &State,
    x: Task,
    out: &mut Vec<u8>,
) -> Result<(), AllocError>
    ensures { OnOk result (out.new.items ≡ out.old.items ++ task_responses work.now history.now end.now x) }
{
    let jobs = set_jobs(alloc, work, history, end, x)?;
    let spans = responses(alloc, x.thread, &jobs)?;
    put_spans(alloc, work, x, &spans, out)
}

/// A row for each response of these tasks that occurs.
#[tactic(auto, unfolding(crate::specs::SetResponses::all_responses))]
pub(crate) fn put_responses(
    alloc: Global,
    work: &Work,
    history: &ByThread,
    end: &State,
    tasks: &[Task],
    out: &mut Vec<u8>,
) -> Result<(), AllocError>
    ensures { OnOk result (out.new.items ≡ out.old.items ++ all_responses work.now history.now end.now tasks.now) }
{
    for x in tasks {
        put_task(alloc, work, history, end, *x, out)?;
    }
    Ok(())
}
