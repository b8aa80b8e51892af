//! What is told of each job of a task: when it started, and who preempted and blocked it.
//!
//! Source: response-time analysis (preemption, blocking); the lines are this project's own.

ghost use Rattle.std.specs.Prelude.{◌≡◌, ◌++◌, filter, IfOk, OnOk};
ghost use Rattle.sd_stretches.specs.Rows.{next_of};
ghost use Rattle.sd_deadlines.specs.JobLines.{block, blocks, delay_by, delayers, delayers_from, is_among, is_preempted, is_start, is_stopped, is_thread, is_up_to, is_within, is_within_of, preempted_for, preemption, preemptions, start, tick_before, ticker, ticks_on, with_delay, with_thread};

use sd_statistics::{Job, Point};
use sd_stretches::Happening;
use sd_types::{Event, ThreadId};
use std::alloc::{AllocError, Global};

/// From this entry on a thread is delayed by another.
#[derive(Clone, Copy)]
pub struct Delay {
    pub entry: u64,
    pub by: ThreadId,
}

// Whose tick an entry is.
fn ticker(event: &Event) -> Option<ThreadId>
    ensures { result ≡ ticker event.now }
{
    match *event {
        Event::Tick { t } | Event::Spin { t, .. } => Some(t),
        _ => None,
    }
}

fn is_thread(t: usize, thread: Option<ThreadId>) -> bool
    ensures { result ≡ is_thread t thread }
{
    match thread {
        Some(u) => u.0 as usize == t,
        None => false,
    }
}

fn push_delay_by(
    t: usize,
    entry: u64,
    by: Option<ThreadId>,
    out: &mut Vec<Delay>,
) -> Result<(), AllocError>
    ensures { OnOk result (out.new.items ≡ out.old.items ++ delay_by t entry by) }
{
    let Some(by) = by else {
        return Ok(());
    };
    if by.0 as usize != t {
        out.push(Delay { entry, by })?;
    }
    Ok(())
}

fn ticks_on(c: u16, x: &Happening) -> bool
    ensures { result ≡ ticks_on c x.now }
{
    x.cpu.0 == c && ticker(&x.event).is_some()
}

// The first entry of these that takes a tick of the processor.
fn next_tick(c: u16, rest: &[Happening]) -> Option<Happening>
    ensures { result ≡ next_of (filter (ticks_on c) rest.now) }
{
    for x in rest {
        if ticks_on(c, x) {
            return Some(*x);
        }
    }
    None
}

fn is_preempted(t: usize, event: &Event) -> bool
    ensures { result ≡ is_preempted t event.now }
{
    match event {
        Event::Preempt { t: u, .. } => u.0 as usize == t,
        _ => false,
    }
}

fn push_preempted_for(
    t: usize,
    entry: u64,
    next: Option<Happening>,
    out: &mut Vec<Delay>,
) -> Result<(), AllocError>
    ensures { OnOk result (out.new.items ≡ out.old.items ++ preempted_for t entry next) }
{
    match next {
        Some(y) => push_delay_by(t, entry, ticker(&y.event), out),
        None => Ok(()),
    }
}

// Who takes the next tick of the processor that the thread loses.
fn push_preemption(
    t: usize,
    x: &Happening,
    rest: &[Happening],
    out: &mut Vec<Delay>,
) -> Result<(), AllocError>
    ensures { OnOk result (out.new.items ≡ out.old.items ++ preemption t x.now rest.now) }
{
    if !is_preempted(t, &x.event) {
        return Ok(());
    }
    push_preempted_for(t, x.entry, next_tick(x.cpu.0, rest), out)
}

/// The preemptions of thread `t`: where it loses its processor, and who takes the next tick of this one.
#[tactic(auto, unfolding(crate::specs::JobLines::preemptions))]
pub fn preemptions(
    alloc: Global,
    t: usize,
    happenings: &[Happening],
) -> Result<Vec<Delay>, AllocError>
    ensures { IfOk result (λ v. v.items ≡ preemptions t happenings.now) }
{
    let mut found = Vec::new(alloc);
    let mut left = happenings;
    while let Some((x, rest)) = left.split_first() {
        push_preemption(t, x, rest, &mut found)?;
        left = rest;
    }
    Ok(found)
}

fn is_stopped(t: usize, event: &Event) -> bool
    ensures { result ≡ is_stopped t event.now }
{
    match event {
        Event::Spin { t: u, .. } | Event::Block { t: u, .. } => u.0 as usize == t,
        _ => false,
    }
}

fn push_block(t: usize, x: &Happening, out: &mut Vec<Delay>) -> Result<(), AllocError>
    ensures { OnOk result (out.new.items ≡ out.old.items ++ block t x.now) }
{
    if !is_stopped(t, &x.event) {
        return Ok(());
    }
    push_delay_by(t, x.entry, x.owner, out)
}

/// Where thread `t` spins or begins to wait for a lock, and who owns it.
#[tactic(auto, unfolding(crate::specs::JobLines::blocks))]
pub fn blocks(alloc: Global, t: usize, happenings: &[Happening]) -> Result<Vec<Delay>, AllocError>
    ensures { IfOk result (λ v. v.items ≡ blocks t happenings.now) }
{
    let mut found = Vec::new(alloc);
    for x in happenings {
        push_block(t, x, &mut found)?;
    }
    Ok(found)
}

fn is_up_to(completion: Option<Point>, entry: u64) -> bool
    ensures { result ≡ is_up_to completion entry }
{
    match completion {
        Some(point) => entry <= point.entry,
        None => true,
    }
}

// From where the job was taken to where it was complete, or to the end of the run.
fn is_within(job: &Job, entry: u64) -> bool
    ensures { result ≡ is_within job.now entry }
{
    match job.taken {
        Some(point) => point.entry < entry && is_up_to(job.completion, entry),
        None => false,
    }
}

fn is_start(t: usize, job: &Job, x: &Happening) -> bool
    ensures { result ≡ is_start t job.now x.now }
{
    is_within(job, x.entry) && is_thread(t, ticker(&x.event))
}

/// The tick at which the job started to run, where it did; `told` are the entries that tell the jobs of its task.
pub fn start(t: usize, job: &Job, told: &[Happening]) -> Option<u32>
    ensures { result ≡ start t job.now told.now }
{
    for x in told {
        if is_start(t, job, x) {
            return Some(x.tick.saturating_sub(1));
        }
    }
    None
}

fn is_among(u: ThreadId, seen: &[ThreadId]) -> bool
    ensures { result ≡ is_among u seen.now }
{
    seen.iter().any(|v| v.0 == u.0)
}

fn add_thread(u: ThreadId, seen: &mut Vec<ThreadId>) -> Result<(), AllocError>
    ensures { OnOk result (seen.new.items ≡ with_thread seen.old.items u) }
{
    if !is_among(u, seen) {
        seen.push(u)?;
    }
    Ok(())
}

fn add_delay(job: &Job, d: &Delay, seen: &mut Vec<ThreadId>) -> Result<(), AllocError>
    ensures { OnOk result (seen.new.items ≡ with_delay job.now seen.old.items d.now) }
{
    if is_within(job, d.entry) {
        add_thread(d.by, seen)?;
    }
    Ok(())
}

/// Who delays the job, each once, in the order in which they first do.
#[tactic(auto, unfolding(crate::specs::JobLines::delayers))]
pub fn delayers(alloc: Global, job: &Job, delays: &[Delay]) -> Result<Vec<ThreadId>, AllocError>
    ensures { IfOk result (λ v. v.items ≡ delayers job.now delays.now) }
{
    let mut seen = Vec::new(alloc);
    let mut left = delays;
    while let Some((d, rest)) = left.split_first() {
        add_delay(job, d, &mut seen)?;
        left = rest;
    }
    Ok(seen)
}
