//! The histogram of a task: for each response that occurs how many jobs have it, as a row of marks.

ghost use Rattle.std.specs.Prelude.{◌≡◌, ◌++◌, ◌+◌, ◌≤◌, OnOk};
ghost use Rattle.sd_report.specs.Histograms.{bar, bar_at, bar_head, bar_if, bars, histogram, histogram_by, histogram_head, histograms, jobs_at, marks, scale, scale_words, task_histogram, title_line, title_words};

use crate::cells::{put_cell, put_right};
use sd_deadlines::{Task, least, set_jobs};
use sd_state::State;
use sd_statistics::{Span, responses, summary_of, ticks_of};
use sd_stretches::{ByThread, put_counted, thread_name};
use sd_types::Work;
use std::alloc::{AllocError, Global};

/// The most marks of a row.
const MOST_MARKS: usize = 60;

const MARKS: [u8; MOST_MARKS] = [b'#'; MOST_MARKS];

/// How many of the responses last so many ticks.
pub(crate) fn jobs_at(spans: &[Span], ticks: u64) -> usize
    ensures { result ≡ jobs_at spans.now ticks }
{
    spans
        .iter()
        .filter(|x| u64::from(ticks_of(**x)) == ticks)
        .count()
}

// For how many jobs a mark stands, at most.
fn scale(spans: &[Span]) -> u64
    ensures value { result ≡ scale spans.now }
    ensures some { 1 ≤ result }
{
    spans.len().saturating_sub(1) as u64 / MOST_MARKS as u64 + 1
}

#[tactic(auto, using(crate::proofs::CellLemmas::marks_taken))]
fn put_marks(n: u64, out: &mut Vec<u8>) -> Result<(), AllocError>
    ensures { OnOk result (out.new.items ≡ out.old.items ++ marks n) }
{
    let shown = n.min(MOST_MARKS as u64) as usize;
    out.extend_from_slice(&MARKS[..shown])
}

#[tactic(auto, unfolding(crate::specs::Histograms::bar))]
fn put_bar(jobs_a_mark: u64, ticks: u64, jobs: u64, out: &mut Vec<u8>) -> Result<(), AllocError>
    requires { 1 ≤ jobs_a_mark }
    ensures { OnOk result (out.new.items ≡ out.old.items ++ bar jobs_a_mark ticks jobs) }
{
    put_cell(9, Some(ticks), out)?;
    put_cell(8, Some(jobs), out)?;
    out.extend_from_slice(b"  ")?;
    put_marks(jobs.div_ceil(jobs_a_mark), out)?;
    out.extend_from_slice(b"\n")
}

// Nothing for a response that does not occur.
fn put_bar_if(jobs_a_mark: u64, ticks: u64, jobs: u64, out: &mut Vec<u8>) -> Result<(), AllocError>
    requires { 1 ≤ jobs_a_mark }
    ensures { OnOk result (out.new.items ≡ out.old.items ++ bar_if jobs_a_mark ticks jobs) }
{
    if jobs == 0 {
        return Ok(());
    }
    put_bar(jobs_a_mark, ticks, jobs, out)
}

fn put_bar_at(spans: &[Span], from: u32, i: u64, out: &mut Vec<u8>) -> Result<(), AllocError>
    requires { i ≤ u32.MAX }
    ensures { OnOk result (out.new.items ≡ out.old.items ++ bar_at spans.now from i) }
{
    let ticks = u64::from(from) + i;
    put_bar_if(scale(spans), ticks, jobs_at(spans, ticks) as u64, out)
}

#[tactic(auto, unfolding(crate::specs::Histograms::bars))]
fn put_bars(spans: &[Span], from: u32, to: u32, out: &mut Vec<u8>) -> Result<(), AllocError>
    ensures { OnOk result (out.new.items ≡ out.old.items ++ bars spans.now from to) }
{
    let count = (u64::from(to) + 1).saturating_sub(u64::from(from));
    for i in 0..count {
        put_bar_at(spans, from, i, out)?;
    }
    Ok(())
}

#[tactic(auto, unfolding(crate::specs::Histograms::scale_words))]
fn put_scale(n: u64, out: &mut Vec<u8>) -> Result<(), AllocError>
    ensures { OnOk result (out.new.items ≡ out.old.items ++ scale_words n) }
{
    if n <= 1 {
        return out.extend_from_slice(b", a # for each job\n");
    }
    put_counted(b", a # for up to ", n, out)?;
    out.extend_from_slice(b" jobs\n")
}

fn put_named(words: &[u8], name: &[u8], out: &mut Vec<u8>) -> Result<(), AllocError>
    ensures { OnOk result (out.new.items ≡ out.old.items ++ (words.now ++ name.now)) }
{
    out.extend_from_slice(words)?;
    out.extend_from_slice(name)
}

#[tactic(auto, unfolding(crate::specs::Histograms::title_words))]
fn put_title_words(work: &Work, t: usize, out: &mut Vec<u8>) -> Result<(), AllocError>
    ensures { OnOk result (out.new.items ≡ out.old.items ++ title_words work.now t) }
{
    put_named(b"\nresponses of ", thread_name(work, t), out)
}

#[tactic(auto, unfolding(crate::specs::Histograms::title_line))]
fn put_title(work: &Work, t: usize, jobs_a_mark: u64, out: &mut Vec<u8>) -> Result<(), AllocError>
    ensures { OnOk result (out.new.items ≡ out.old.items ++ title_line work.now t jobs_a_mark) }
{
    put_title_words(work, t, out)?;
    put_scale(jobs_a_mark, out)
}

#[tactic(auto, unfolding(crate::specs::Histograms::bar_head))]
fn put_bar_head(out: &mut Vec<u8>) -> Result<(), AllocError>
    ensures { OnOk result (out.new.items ≡ out.old.items ++ bar_head) }
{
    put_right(9, b"ticks", out)?;
    put_right(8, b"jobs", out)?;
    out.extend_from_slice(b"\n")
}

#[tactic(auto, unfolding(crate::specs::Histograms::histogram_head))]
fn put_head(work: &Work, t: usize, spans: &[Span], out: &mut Vec<u8>) -> Result<(), AllocError>
    ensures { OnOk result (out.new.items ≡ out.old.items ++ histogram_head work.now t spans.now) }
{
    put_title(work, t, scale(spans), out)?;
    put_bar_head(out)
}

// From the least to the greatest, where there are responses.
fn put_between(
    work: &Work,
    t: usize,
    spans: &[Span],
    from: Option<u32>,
    to: Option<Span>,
    out: &mut Vec<u8>,
) -> Result<(), AllocError>
    ensures { OnOk result (out.new.items ≡ out.old.items ++ histogram_by work.now t spans.now from to) }
{
    match (from, to) {
        (Some(from), Some(to)) => {
            put_head(work, t, spans, out)?;
            put_bars(spans, from, ticks_of(to), out)
        }
        _ => Ok(()),
    }
}

fn put_histogram(work: &Work, t: usize, spans: &[Span], out: &mut Vec<u8>) -> Result<(), AllocError>
    ensures { OnOk result (out.new.items ≡ out.old.items ++ histogram work.now t spans.now) }
{
    put_between(work, t, spans, least(spans), summary_of(spans).longest, out)
}

fn put_task(
    alloc: Global,
    work: &Work,
    history: &ByThread,
    end: &State,
    x: Task,
    out: &mut Vec<u8>,
) -> Result<(), AllocError>
    ensures { OnOk result (out.new.items ≡ out.old.items ++ task_histogram work.now history.now end.now x) }
{
    let jobs = set_jobs(alloc, work, history, end, x)?;
    let spans = responses(alloc, x.thread, &jobs)?;
    put_histogram(work, x.thread, &spans, out)
}

/// The histograms of these tasks; a task without a complete job has none.
#[tactic(auto, unfolding(crate::specs::Histograms::histograms))]
pub(crate) fn put_histograms(
    alloc: Global,
    work: &Work,
    history: &ByThread,
    end: &State,
    tasks: &[Task],
    out: &mut Vec<u8>,
) -> Result<(), AllocError>
    ensures { OnOk result (out.new.items ≡ out.old.items ++ histograms work.now history.now end.now tasks.now) }
{
    for x in tasks {
        put_task(alloc, work, history, end, *x, out)?;
    }
    Ok(())
}
