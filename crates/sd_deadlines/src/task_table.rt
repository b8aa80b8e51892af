//! The task table: of each task of a task set, how many jobs it had, how soon they were complete, which missed their deadlines, and
//! how long the worst was blocked.
//!
//! Source: response-time analysis (responses, deadlines, blocking); the table is this project's own.

ghost use Rattle.std.specs.Prelude.{◌≡◌, IfOk, ◌+◌, count_by, nat_le, nat_lt};
ghost use Rattle.sd_deadlines.specs.TaskTable.{blocked_in, blocked_ticks, first_miss, is_blocked, is_late, jobs_by, least, lesser, line_from, line_of, misses, release_in, set_jobs, task_line, ticks_between, worst_blocked};

use sd_state::State;
use sd_statistics::{
    Job, Point, Span, Summary, kind_of, responses, summary_of, task_jobs, ticks_of,
};
use sd_stretches::{ByThread, Doing, Stretch, Track, pieces};
use sd_types::{ChanId, ChanKind, Work};
use std::alloc::{AllocError, Global};

/// A task: its thread and its semaphore, by number, and, where it has a deadline, within how many ticks of its release a job is to be
/// complete.
#[derive(Clone, Copy)]
pub struct Task {
    pub thread: usize,
    pub sema: ChanId,
    pub deadline: Option<u64>,
}

/// What the table says of a task: how many jobs were released; the responses of those that are complete; the least of these; how many
/// missed their deadline, and at which tick the first of these was released; and the ticks over which the thread waited or spun for a
/// lock between release and completion of the job with the greatest response, of several the first.
#[derive(Clone, Copy)]
pub struct TaskLine {
    pub task: Task,
    pub released: u64,
    pub responses: Summary,
    pub least: Option<u32>,
    pub misses: u64,
    pub first_miss: Option<u32>,
    pub blocked: Option<u64>,
}

fn jobs_by(
    alloc: Global,
    work: &Work,
    history: &ByThread,
    end: &State,
    x: Task,
    kind: Option<ChanKind>,
) -> Result<Vec<Job>, AllocError>
    ensures { IfOk result (λ v. v.items ≡ jobs_by work.now history.now end.now x kind) }
{
    match kind {
        Some(ChanKind::Sema { count }) => task_jobs(
            alloc,
            work,
            &history.history,
            end,
            x.sema.0,
            count,
            x.thread,
        ),
        _ => Ok(Vec::new(alloc)),
    }
}

// The tick is behind one that is so many ticks behind the release.
#[tactic(auto, using(crate::proofs::DueLemmas::behind_due))]
fn is_behind(release: u32, ticks: u64, tick: u32) -> bool
    ensures { result ≡ nat_lt (release + ticks) tick }
{
    ticks < u64::from(tick.saturating_sub(release))
}

// The run has come to the tick that is so many ticks behind the release.
#[tactic(auto, using(crate::proofs::DueLemmas::come_to_due))]
fn is_reached(release: u32, ticks: u64, end: u32) -> bool
    ensures { result ≡ nat_le (release + ticks) end }
{
    release <= end && ticks <= u64::from(end.saturating_sub(release))
}

// A job that is due so many ticks behind its release, in a run that ends at this tick.
fn is_late(release: u32, ticks: u64, end: u32, completion: Option<Point>) -> bool
    ensures { result ≡ is_late (release + ticks) end completion }
{
    match completion {
        Some(point) => is_behind(release, ticks, point.tick),
        None => is_reached(release, ticks, end),
    }
}

/// The job misses its deadline, so many ticks behind its release, in a run of so many ticks.
pub fn misses(deadline: Option<u64>, end: u32, x: &Job) -> bool
    ensures { result ≡ misses deadline end x.now }
{
    match deadline {
        Some(ticks) => is_late(x.release.tick, ticks, end, x.completion),
        None => false,
    }
}

// How many miss their deadline.
fn all_misses(deadline: Option<u64>, end: u32, jobs: &[Job]) -> usize
    ensures { result ≡ count_by (misses deadline end) jobs.now }
{
    jobs.iter().filter(|x| misses(deadline, end, x)).count()
}

// The tick of release of the first of them.
fn first_miss(deadline: Option<u64>, end: u32, jobs: &[Job]) -> Option<u32>
    ensures { result ≡ first_miss deadline end jobs.now }
{
    for x in jobs {
        if misses(deadline, end, x) {
            return Some(x.release.tick);
        }
    }
    None
}

fn lesser(least: Option<u32>, ticks: u32) -> Option<u32>
    ensures { result ≡ lesser least ticks }
{
    match least {
        Some(n) => Some(n.min(ticks)),
        None => Some(ticks),
    }
}

/// The ticks of the shortest.
#[tactic(auto, unfolding(crate::specs::TaskTable::least))]
pub fn least(spans: &[Span]) -> Option<u32>
    ensures { result ≡ least spans.now }
{
    let mut best = None;
    let mut left = spans;
    while let Some((x, rest)) = left.split_first() {
        best = lesser(best, ticks_of(*x));
        left = rest;
    }
    best
}

// It waits for a lock, or spins for one.
fn is_blocked(doing: Doing) -> bool
    ensures { result ≡ is_blocked doing }
{
    matches!(doing, Doing::Waiting(_) | Doing::Spinning(_, _))
}

// The ticks of a piece that lie between two ticks.
fn ticks_between(from: u32, to: u32, x: &Stretch) -> u32
    ensures { result ≡ ticks_between from to x.now }
{
    x.to.min(to).saturating_sub(x.from.max(from))
}

fn blocked_in(from: u32, to: u32, x: &Stretch) -> u32
    ensures { result ≡ blocked_in from to x.now }
{
    if is_blocked(x.doing) {
        ticks_between(from, to, x)
    } else {
        0
    }
}

// The ticks between two ticks over which a thread is blocked; `own` are the pieces of its stretches.
fn blocked_ticks(from: u32, to: u32, own: &[Stretch]) -> u64
    ensures { result ≡ blocked_ticks from to own.now }
{
    let mut ticks = 0u64;
    for x in own {
        ticks = ticks.saturating_add(u64::from(blocked_in(from, to, x)));
    }
    ticks
}

fn worst_blocked(own: &[Stretch], worst: Option<Span>) -> Option<u64>
    ensures { result ≡ worst_blocked own.now worst }
{
    match worst {
        Some(x) => Some(blocked_ticks(x.from, x.to, own)),
        None => None,
    }
}

/// The jobs of a task in a run of the workload, of which this is the history, and which ends in this state.
pub fn set_jobs(
    alloc: Global,
    work: &Work,
    history: &ByThread,
    end: &State,
    x: Task,
) -> Result<Vec<Job>, AllocError>
    ensures { IfOk result (λ v. v.items ≡ set_jobs work.now history.now end.now x) }
{
    jobs_by(alloc, work, history, end, x, kind_of(work, x.sema.0))
}

fn line_of(x: Task, end: u32, jobs: &[Job], spans: &[Span], own: &[Stretch]) -> TaskLine
    ensures { result ≡ line_of x end jobs.now spans.now own.now }
{
    let summary = summary_of(spans);
    TaskLine {
        task: x,
        released: jobs.len() as u64,
        responses: summary,
        least: least(spans),
        misses: all_misses(x.deadline, end, jobs) as u64,
        first_miss: first_miss(x.deadline, end, jobs),
        blocked: worst_blocked(own, summary.longest),
    }
}

fn line_from(
    alloc: Global,
    work: &Work,
    history: &ByThread,
    x: Task,
    jobs: &[Job],
) -> Result<TaskLine, AllocError>
    ensures { IfOk result (λ line. line ≡ line_from work.now history.now x jobs.now) }
{
    let spans = responses(alloc, x.thread, jobs)?;
    let own = pieces(alloc, Track::Thread(x.thread), history, work.limit)?;
    Ok(line_of(x, work.limit, jobs, &spans, &own))
}

/// What the task table says of a task of the set, in a run of the workload, of which this is the history, and which ends in this state.
/// A job misses its deadline where it is complete behind it, or is not complete though the run has come to it.
#[tactic(auto, unfolding(crate::specs::TaskTable::task_line))]
pub fn task_line(
    alloc: Global,
    work: &Work,
    history: &ByThread,
    end: &State,
    x: Task,
) -> Result<TaskLine, AllocError>
    ensures { IfOk result (λ line. line ≡ task_line work.now history.now end.now x) }
{
    let jobs = set_jobs(alloc, work, history, end, x)?;
    line_from(alloc, work, history, x, &jobs)
}
