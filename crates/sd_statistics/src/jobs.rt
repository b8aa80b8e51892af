//! The jobs of a task: a thread that takes a unit of a semaphore before each of its jobs.
//!
//! Source: response-time analysis (a job's response is from its release to its completion); jobs by semaphores are this project's own.

ghost use Rattle.std.specs.Prelude.{◌≡◌, ◌++◌, ◌∷◌, [], ◌+◌, ◌<◌, ◌≤◌, ◌^◌, ◌==◌, None, IfOk, OnOk, drop, slice_get, unwrap_or};
ghost use Rattle.sd_state.specs.Operations.{script_of};
ghost use Rattle.sd_statistics.specs.Jobs.{at_start, comes_back, counted_if, counted_up, has_long, is_long, is_over, is_over_in, is_ready, is_take, is_taker, is_taking, is_told, job_after, job_if, job_left, job_of, job_to, jobs_from, jobs_of, jobs_taken, jobs_untaken, opened, point_of, release_at, takers, takes, taken_after, taken_in, ticked, told_entries, unit, untaken_at, untaken_from, untaken_job};

use crate::spans::state_after;
use sd_state::{Place, State, ThreadState};
use sd_stretches::Happening;
use sd_types::{Event, Op, ThreadDecl, Work};
use std::alloc::{AllocError, Global};

/// When a unit of a semaphore was released, and with it a job: at this tick, and `first` is the number of the state after it.
#[derive(Clone, Copy)]
pub struct Release {
    pub first: u64,
    pub tick: u32,
}

/// An entry, by its number, and the count of its processor after it.
#[derive(Clone, Copy)]
pub struct Point {
    pub entry: u64,
    pub tick: u32,
}

/// A job: its release, where its thread took it, and where it was complete. A job that waits to be taken has neither.
#[derive(Clone, Copy)]
pub struct Job {
    pub release: Release,
    pub taken: Option<Point>,
    pub completion: Option<Point>,
}

/// A job that was taken and has not come back, with the last of its ticks and spins so far.
#[derive(Clone, Copy)]
pub struct OpenJob {
    pub release: Release,
    pub taken: Point,
    pub ticked: Option<Point>,
}

fn is_take(k: u16, op: Op) -> bool
    ensures { result ≡ is_take k op }
{
    match op {
        Op::SemaP(j) => j.0 == k,
        _ => false,
    }
}

/// The script takes units of semaphore `k`.
pub fn takes(k: u16, ops: &[Op]) -> bool
    ensures { result ≡ takes k ops.now }
{
    ops.iter().any(|op| is_take(k, *op))
}

fn is_taker(k: u16, decl: &ThreadDecl) -> bool
    ensures { result ≡ is_taker k decl.now }
{
    takes(k, decl.script.ops())
}

// How many threads take units of the semaphore.
fn takers(work: &Work, k: u16) -> usize
    ensures { result ≡ takers work.now k }
{
    work.threads
        .items()
        .iter()
        .filter(|decl| is_taker(k, decl))
        .count()
}

fn is_told(t: usize, k: u16, event: &Event) -> bool
    ensures { result ≡ is_told t k event.now }
{
    match *event {
        Event::SemaP { k: j, .. } | Event::SemaWait { k: j, .. } => j.0 == k,
        Event::SemaVWake { k: j, .. } | Event::SemaVCount { k: j, .. } => j.0 == k,
        Event::Tick { t: u } | Event::Spin { t: u, .. } | Event::Done { t: u } => {
            u.0 as usize == t
        }
        _ => false,
    }
}

#[tactic(auto, unfolding(crate::specs::Jobs::told_entries))]
fn push_told(t: usize, k: u16, x: &Happening, told: &mut Vec<Happening>) -> Result<(), AllocError>
    ensures { OnOk result (told.new.items ≡ told.old.items ++ told_entries t k (x.now ∷ [])) }
{
    if is_told(t, k, &x.event) {
        told.push(*x)?;
    }
    Ok(())
}

/// The entries that tell the jobs of thread `t` by semaphore `k`: those of the semaphore, and the ticks, the spins and the end of
/// the thread.
#[tactic(auto, unfolding(crate::specs::Jobs::told_entries))]
pub fn told_entries(
    alloc: Global,
    t: usize,
    k: u16,
    happenings: &[Happening],
) -> Result<Vec<Happening>, AllocError>
    ensures { IfOk result (λ v. v.items ≡ told_entries t k happenings.now) }
{
    let mut told = Vec::new(alloc);
    for x in happenings {
        push_told(t, k, x, &mut told)?;
    }
    Ok(told)
}

fn release_at(x: &Happening) -> Release
    ensures { result ≡ release_at x.now }
{
    Release {
        first: state_after(x.entry),
        tick: x.tick,
    }
}

fn point_of(x: &Happening) -> Point
    ensures { result ≡ point_of x.now }
{
    Point {
        entry: x.entry,
        tick: x.tick,
    }
}

// The release, where the semaphore counts up.
fn push_counted(x: &Happening, out: &mut Vec<Release>) -> Result<(), AllocError>
    ensures { OnOk result (out.new.items ≡ out.old.items ++ counted_if x.now) }
{
    if let Event::SemaVCount { .. } = x.event {
        out.push(release_at(x))?;
    }
    Ok(())
}

// When the units were released that the semaphore counted up.
#[tactic(auto, unfolding(crate::specs::Jobs::counted_up))]
fn counted_up(alloc: Global, told: &[Happening]) -> Result<Vec<Release>, AllocError>
    ensures { IfOk result (λ v. v.items ≡ counted_up told.now) }
{
    let mut units = Vec::new(alloc);
    for x in told {
        push_counted(x, &mut units)?;
    }
    Ok(units)
}

// The unit at this place among those that were counted up.
fn unit_at(units: &[Release], at: usize) -> Release
    ensures { result ≡ unwrap_or (slice_get units.now at) at_start }
{
    match units.get(at) {
        Some(r) => *r,
        None => Release { first: 0, tick: 0 },
    }
}

// The unit behind so many others.
fn unit(count: u16, units: &[Release], n: usize) -> Release
    ensures { result ≡ unit count units.now n }
{
    if n < count as usize {
        Release { first: 0, tick: 0 }
    } else {
        unit_at(units, n - count as usize)
    }
}

#[tactic(auto, unfolding(crate::specs::Jobs::is_taking))]
fn is_taking(event: &Event) -> bool
    ensures { result ≡ is_taking event.now }
{
    match event {
        Event::SemaP { .. } => true,
        _ => false,
    }
}

fn taken_after(taken: usize, event: &Event) -> usize
    requires { taken + 1 < 2 ^ 64 }
    ensures value { result ≡ taken_after taken event.now }
    ensures bound { result ≤ taken + 1 }
{
    if is_taking(event) { taken + 1 } else { taken }
}

// How many units that were there were taken.
fn taken_in(told: &[Happening]) -> usize
    ensures { result ≡ taken_in told.now }
{
    let mut taken = 0;
    for x in told {
        taken = taken_after(taken, &x.event);
    }
    taken
}

fn opened(release: Release, x: &Happening) -> OpenJob
    ensures { result ≡ opened release x.now }
{
    OpenJob {
        release,
        taken: point_of(x),
        ticked: None,
    }
}

fn ticked(x: &Happening, current: Option<OpenJob>) -> Option<OpenJob>
    ensures { result ≡ ticked x.now current }
{
    match current {
        Some(o) => Some(OpenJob {
            release: o.release,
            taken: o.taken,
            ticked: Some(point_of(x)),
        }),
        None => None,
    }
}

// The job of the thread that is there after an entry.
fn job_after(t: usize, next: Release, current: Option<OpenJob>, x: &Happening) -> Option<OpenJob>
    ensures { result ≡ job_after t next current x.now x.now.event }
{
    match x.event {
        Event::SemaP { t: u, .. } if u.0 as usize == t => Some(opened(next, x)),
        Event::SemaVWake { u, .. } if u.0 as usize == t => Some(opened(release_at(x), x)),
        Event::SemaWait { t: u, .. } | Event::Done { t: u } if u.0 as usize == t => None,
        Event::Tick { t: u } | Event::Spin { t: u, .. } if u.0 as usize == t => ticked(x, current),
        _ => current,
    }
}

fn comes_back(t: usize, event: &Event) -> bool
    ensures { result ≡ comes_back t event.now }
{
    match event {
        Event::SemaP { t: u, .. } | Event::SemaWait { t: u, .. } | Event::Done { t: u } => {
            u.0 as usize == t
        }
        _ => false,
    }
}

fn job_of(o: OpenJob, completion: Option<Point>) -> Job
    ensures { result ≡ job_of o completion }
{
    Job {
        release: o.release,
        taken: Some(o.taken),
        completion,
    }
}

// The job that comes back by the entry.
fn push_job_to(
    x: &Happening,
    current: Option<OpenJob>,
    out: &mut Vec<Job>,
) -> Result<(), AllocError>
    ensures { OnOk result (out.new.items ≡ out.old.items ++ job_to x.now current) }
{
    if let Some(o) = current {
        let completion = o.ticked.unwrap_or(point_of(x));
        out.push(job_of(o, Some(completion)))?;
    }
    Ok(())
}

// The same, where the thread comes back.
fn push_job(
    t: usize,
    current: Option<OpenJob>,
    x: &Happening,
    out: &mut Vec<Job>,
) -> Result<(), AllocError>
    ensures { OnOk result (out.new.items ≡ out.old.items ++ job_if t current x.now) }
{
    if comes_back(t, &x.event) {
        push_job_to(x, current, out)?;
    }
    Ok(())
}

// The job that has not come back by the end of the run.
fn push_left(is_over: bool, current: Option<OpenJob>, out: &mut Vec<Job>) -> Result<(), AllocError>
    ensures { OnOk result (out.new.items ≡ out.old.items ++ job_left is_over current) }
{
    if let Some(o) = current {
        let completion = if is_over { o.ticked } else { None };
        out.push(job_of(o, completion))?;
    }
    Ok(())
}

// The jobs that the thread takes.
#[tactic(auto, unfolding(crate::specs::Jobs::jobs_from))]
fn jobs_taken(
    alloc: Global,
    is_over: bool,
    t: usize,
    count: u16,
    units: &[Release],
    told: &[Happening],
) -> Result<Vec<Job>, AllocError>
    ensures { IfOk result (λ v. v.items ≡ jobs_from is_over t count units.now 0 None told.now) }
{
    let mut found = Vec::new(alloc);
    let mut taken = 0;
    let mut current = None;
    let mut left = told;
    while let Some((x, rest)) = left.split_first() {
        push_job(t, current, x, &mut found)?;
        current = job_after(t, unit(count, units, taken), current, x);
        taken = taken_after(taken, &x.event);
        left = rest;
    }
    push_left(is_over, current, &mut found)?;
    Ok(found)
}

fn push_untaken(
    count: u16,
    units: &[Release],
    n: usize,
    out: &mut Vec<Job>,
) -> Result<(), AllocError>
    ensures { OnOk result (out.new.items ≡ out.old.items ++ untaken_job (unit count units.now n) ∷ []) }
{
    out.push(Job {
        release: unit(count, units, n),
        taken: None,
        completion: None,
    })?;
    Ok(())
}

// The jobs of the units behind those that were taken.
#[tactic(auto, unfolding(crate::specs::Jobs::untaken_from))]
fn push_all_untaken(
    count: u16,
    units: &[Release],
    taken: usize,
    out: &mut Vec<Job>,
) -> Result<(), AllocError>
    ensures { OnOk result (out.new.items ≡ out.old.items ++ untaken_from count units.now taken) }
{
    let many = (count as usize + units.len()).saturating_sub(taken);
    for i in 0..many {
        push_untaken(count, units, taken + i, out)?;
    }
    Ok(())
}

#[tactic(auto, unfolding(crate::specs::Jobs::jobs_untaken, crate::specs::Jobs::counted_up))]
fn push_own_untaken(
    is_only: bool,
    count: u16,
    units: &[Release],
    told: &[Happening],
    out: &mut Vec<Job>,
) -> Result<(), AllocError>
    ensures { OnOk result (units.now ≡ counted_up told.now → out.new.items ≡ out.old.items ++ jobs_untaken is_only count told.now) }
{
    if is_only {
        push_all_untaken(count, units, taken_in(told), out)?;
    }
    Ok(())
}

fn is_long(op: Op) -> bool
    ensures { result ≡ is_long op }
{
    match op {
        Op::Run(_) | Op::Nap(_) | Op::Sleep(_) | Op::CvWait(_, _) => true,
        Op::SemaP(_) | Op::Enter(_) | Op::Read(_) | Op::Write(_) => true,
        _ => false,
    }
}

// Of these operations of a job by the semaphore one takes time.
fn has_long(k: u16, ops: &[Op]) -> bool
    ensures { result ≡ has_long k ops.now }
{
    ops.iter()
        .take_while(|op| !is_take(k, **op))
        .any(|op| is_long(*op))
}

// The operations from this number on.
fn ops_from(ops: &[Op], at: u16) -> &[Op]
    ensures { result.now ≡ drop at ops.now }
{
    &ops[ops.len().min(at as usize)..]
}

fn is_ready(place: Place) -> bool
    ensures { result ≡ is_ready place }
{
    matches!(
        place,
        Place::Running(_) | Place::Queued(_, _) | Place::RealTime(_, _)
    )
}

fn is_over_in(k: u16, ops: &[Op], x: &ThreadState) -> bool
    ensures { result ≡ is_over_in k ops.now x.now }
{
    is_ready(x.place) && !has_long(k, ops_from(ops, x.body.op))
}

/// The operations of a thread.
pub fn script_of(work: &Work, t: usize) -> &[Op]
    ensures { result.now ≡ script_of work.now t }
{
    match work.threads.items().get(t) {
        Some(decl) => decl.script.ops(),
        None => &[],
    }
}

// In the last state the thread has nothing left in a job by the semaphore that takes time.
fn is_over(work: &Work, end: &State, k: u16, t: usize) -> bool
    ensures { result ≡ is_over work.now end.now k t }
{
    match end.threads.items().get(t) {
        Some(x) => is_over_in(k, script_of(work, t), x),
        None => false,
    }
}

/// The jobs of thread `t` by semaphore `k`, which begins with `count` units, in a run that ends in this state; `told` are the entries
/// that tell them. A job is complete at its last tick or spin before its thread asks for the next unit or ends; one that has none,
/// where it does so. At the end of the run one is complete too that has ticked, is not waiting, and has nothing left that takes
/// time. The jobs of units that nobody has taken are the thread's where no other takes units of the semaphore.
#[tactic(auto, unfolding(crate::specs::Jobs::jobs_of, crate::specs::Jobs::jobs_taken))]
pub(crate) fn jobs_of(
    alloc: Global,
    work: &Work,
    end: &State,
    k: u16,
    count: u16,
    t: usize,
    told: &[Happening],
) -> Result<Vec<Job>, AllocError>
    ensures { IfOk result (λ v. v.items ≡ jobs_of work.now end.now k count t told.now) }
{
    let units = counted_up(alloc, told)?;
    let mut jobs = jobs_taken(alloc, is_over(work, end, k, t), t, count, &units, told)?;
    push_own_untaken(takers(work, k) == 1, count, &units, told, &mut jobs)?;
    Ok(jobs)
}
