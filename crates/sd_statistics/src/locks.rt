//! The rows of locks: who holds each and how long, who waits and spins for it, and how often it hands priority on.
//!
//! Source: Solaris Internals (mutexes, readers-writer locks, turnstiles), lockstat(1M); the rows are this project's own.

ghost use Rattle.std.specs.Prelude.{◌≡◌, ◌++◌, ◌∷◌, [], IfOk, OnOk, filter};
ghost use Rattle.sd_statistics.specs.Locks.{all_pieces, contended_of, gives, giving, hand_overs, held_rows, hold_by, hold_to, holds_of, is_about, is_lock, lock_count, lock_entries, lock_of, lock_part, lock_row, lock_rows, taking, trying, wait_by, wait_rows, wait_to, wants};
ghost use Rattle.sd_statistics.specs.Nexts.{AreNexts};
ghost use Rattle.sd_stretches.specs.Rows.{next_of};
ghost use Rattle.sd_stretches.specs.SpinPieces.{pieces};
ghost use Rattle.sd_stretches.specs.declared.spin_pieces.Track.TheVariants as track;

use crate::activities::{Activity, spans_of};
use crate::nexts::{no_nexts, note};
use crate::rows::{Measure, Row, Subject, all_of, count_figures, push_row};
use crate::spans::{Span, state_after, summary_of};
use sd_stretches::{ByThread, HandOver, Happening, Stretch, Track, is_that_thread, pieces};
use sd_types::{Event, LockId, ThreadId, Work};
use std::alloc::{AllocError, Global};

// Who takes a lock.
fn taking(event: &Event) -> Option<ThreadId>
    ensures { result ≡ taking event.now }
{
    match *event {
        Event::Enter { t, .. } | Event::Read { t, .. } | Event::Write { t, .. } => Some(t),
        Event::Grant { u, .. } => Some(u),
        _ => None,
    }
}

// Who gives a lock up.
fn giving(event: &Event) -> Option<ThreadId>
    ensures { result ≡ giving event.now }
{
    match *event {
        Event::Exit { t, .. } | Event::CvWait { t, .. } => Some(t),
        _ => None,
    }
}

// Who spins or begins to wait for a lock.
fn trying(event: &Event) -> Option<ThreadId>
    ensures { result ≡ trying event.now }
{
    match *event {
        Event::Spin { t, .. } | Event::Block { t, .. } => Some(t),
        _ => None,
    }
}

// The lock of which an entry of these three kinds is.
fn lock_of(event: &Event) -> Option<LockId>
    ensures { result ≡ lock_of event.now }
{
    match *event {
        Event::Enter { l, .. } | Event::Read { l, .. } | Event::Write { l, .. } => Some(l),
        Event::Grant { l, .. } | Event::Exit { l, .. } | Event::CvWait { l, .. } => Some(l),
        Event::Spin { l, .. } | Event::Block { l, .. } => Some(l),
        _ => None,
    }
}

fn is_lock(l: u16, lock: Option<LockId>) -> bool
    ensures { result ≡ is_lock l lock }
{
    match lock {
        Some(m) => m.0 == l,
        None => false,
    }
}

#[tactic(auto, unfolding(crate::specs::Locks::lock_entries))]
fn push_own(l: u16, x: &Happening, own: &mut Vec<Happening>) -> Result<(), AllocError>
    ensures { OnOk result (own.new.items ≡ own.old.items ++ lock_entries l (x.now ∷ [])) }
{
    if is_lock(l, lock_of(&x.event)) {
        own.push(*x)?;
    }
    Ok(())
}

// The entries of one lock.
#[tactic(auto, unfolding(crate::specs::Locks::lock_entries))]
fn lock_entries(
    alloc: Global,
    l: u16,
    happenings: &[Happening],
) -> Result<Vec<Happening>, AllocError>
    ensures { IfOk result (λ v. v.items ≡ lock_entries l happenings.now) }
{
    let mut own = Vec::new(alloc);
    for x in happenings {
        push_own(l, x, &mut own)?;
    }
    Ok(own)
}

fn gives(t: ThreadId, x: &Happening) -> bool
    ensures { result ≡ gives t x.now }
{
    is_that_thread(t, giving(&x.event))
}

fn first_giving(t: ThreadId, rest: &[Happening]) -> Option<Happening>
    ensures { result ≡ next_of (filter (gives t) rest.now) }
{
    for x in rest {
        if gives(t, x) {
            return Some(*x);
        }
    }
    None
}

// The first entry by which the thread gives the lock up, as it was noted.
fn next_giving(t: ThreadId, rest: &[Happening], nexts: &[Option<Happening>]) -> Option<Happening>
    requires { AreNexts (λ u. next_of (filter (gives u) rest.now)) nexts.now }
    ensures { result ≡ next_of (filter (gives t) rest.now) }
{
    match nexts.get(t.0 as usize) {
        Some(next) => *next,
        None => first_giving(t, rest),
    }
}

fn hold_to(entries: u64, end: u32, x: &Happening, t: ThreadId, next: Option<Happening>) -> Span
    ensures { result ≡ hold_to entries end x.now t next }
{
    let (last, to) = match next {
        Some(y) => (y.entry, y.tick),
        None => (entries, end),
    };
    Span {
        thread: t.0 as usize,
        first: state_after(x.entry),
        last,
        from: x.tick,
        to,
    }
}

// From the entry, where it takes the lock, up to the one by which the thread gives it up.
fn push_hold(
    entries: u64,
    end: u32,
    x: &Happening,
    rest: &[Happening],
    nexts: &[Option<Happening>],
    out: &mut Vec<Span>,
) -> Result<(), AllocError>
    requires { AreNexts (λ u. next_of (filter (gives u) rest.now)) nexts.now }
    ensures { OnOk result (out.new.items ≡ out.old.items ++ hold_by entries end x.now rest.now (taking x.now.event)) }
{
    if let Some(t) = taking(&x.event) {
        out.push(hold_to(entries, end, x, t, next_giving(t, rest, nexts)))?;
    }
    Ok(())
}

// Who holds the lock from when to when, from its entries, the last first.
#[tactic(auto, unfolding(crate::specs::Locks::holds_of))]
fn holds_of(
    alloc: Global,
    entries: u64,
    end: u32,
    threads: usize,
    own: &[Happening],
) -> Result<Vec<Span>, AllocError>
    ensures { IfOk result (λ v. v.items ≡ holds_of entries end own.now) }
{
    let mut nexts = no_nexts(alloc, threads)?;
    let mut found = Vec::new(alloc);
    let mut i = own.len();
    while i > 0 {
        i -= 1;
        let x = own[i];
        push_hold(entries, end, &x, &own[i + 1..], &nexts, &mut found)?;
        note(giving(&x.event), &x, &mut nexts);
    }
    found.reverse();
    Ok(found)
}

fn wants(t: ThreadId, x: &Happening) -> bool
    ensures { result ≡ wants t x.now }
{
    is_that_thread(t, taking(&x.event)) || is_that_thread(t, trying(&x.event))
}

fn first_wanting(t: ThreadId, rest: &[Happening]) -> Option<Happening>
    ensures { result ≡ next_of (filter (wants t) rest.now) }
{
    for x in rest {
        if wants(t, x) {
            return Some(*x);
        }
    }
    None
}

// The first entry by which the thread takes the lock, or spins or begins to wait for it, as it was noted.
fn next_wanting(t: ThreadId, rest: &[Happening], nexts: &[Option<Happening>]) -> Option<Happening>
    requires { AreNexts (λ u. next_of (filter (wants u) rest.now)) nexts.now }
    ensures { result ≡ next_of (filter (wants t) rest.now) }
{
    match nexts.get(t.0 as usize) {
        Some(next) => *next,
        None => first_wanting(t, rest),
    }
}

fn push_wait_to(
    x: &Happening,
    t: ThreadId,
    next: Option<Happening>,
    out: &mut Vec<Span>,
) -> Result<(), AllocError>
    ensures { OnOk result (out.new.items ≡ out.old.items ++ wait_to x.now t next) }
{
    let Some(y) = next else {
        return Ok(());
    };
    if is_that_thread(t, taking(&y.event)) {
        out.push(Span {
            thread: t.0 as usize,
            first: state_after(x.entry),
            last: y.entry,
            from: x.tick,
            to: y.tick,
        })?;
    }
    Ok(())
}

// From the entry, where it finds the lock taken, up to the one by which the thread takes it, where this is its next of the lock.
fn push_wait(
    x: &Happening,
    rest: &[Happening],
    nexts: &[Option<Happening>],
    out: &mut Vec<Span>,
) -> Result<(), AllocError>
    requires { AreNexts (λ u. next_of (filter (wants u) rest.now)) nexts.now }
    ensures { OnOk result (out.new.items ≡ out.old.items ++ wait_by x.now rest.now (trying x.now.event)) }
{
    match trying(&x.event) {
        Some(t) => push_wait_to(x, t, next_wanting(t, rest, nexts), out),
        None => Ok(()),
    }
}

// One for each contended taking, from the entries of one lock, the last first.
#[tactic(auto, unfolding(crate::specs::Locks::contended_of))]
fn contended_of(alloc: Global, threads: usize, own: &[Happening]) -> Result<Vec<Span>, AllocError>
    ensures { IfOk result (λ v. v.items ≡ contended_of own.now) }
{
    let mut nexts = no_nexts(alloc, threads)?;
    let mut found = Vec::new(alloc);
    let mut i = own.len();
    while i > 0 {
        i -= 1;
        let x = own[i];
        push_wait(&x, &own[i + 1..], &nexts, &mut found)?;
        note(taking(&x.event), &x, &mut nexts);
        note(trying(&x.event), &x, &mut nexts);
    }
    found.reverse();
    Ok(found)
}

fn push_spans(
    l: u16,
    measure: Measure,
    spans: &[Span],
    out: &mut Vec<Row>,
) -> Result<(), AllocError>
    ensures { OnOk result (out.new.items ≡ out.old.items ++ lock_row l measure spans.now) }
{
    push_row(
        Row {
            subject: Subject::Lock(LockId(l)),
            measure,
            figures: all_of(summary_of(spans)),
        },
        out,
    )
}

fn push_count(l: u16, measure: Measure, number: usize, out: &mut Vec<Row>) -> Result<(), AllocError>
    ensures { OnOk result (out.new.items ≡ out.old.items ++ lock_count l measure number) }
{
    push_row(
        Row {
            subject: Subject::Lock(LockId(l)),
            measure,
            figures: count_figures(number as u64),
        },
        out,
    )
}

// How often the lock is taken and how long held, and how often it had to be waited for.
#[tactic(auto, unfolding(crate::specs::Locks::held_rows))]
fn push_held(
    alloc: Global,
    work: &Work,
    entries: u64,
    l: u16,
    own: &[Happening],
    out: &mut Vec<Row>,
) -> Result<(), AllocError>
    ensures { OnOk result (out.new.items ≡ out.old.items ++ held_rows work.now entries l own.now) }
{
    let threads = work.threads.items().len();
    let holds = holds_of(alloc, entries, work.limit, threads, own)?;
    push_spans(l, Measure::Held, &holds, out)?;
    let contended = contended_of(alloc, threads, own)?;
    push_count(l, Measure::Contended, contended.len(), out)
}

// How long threads wait and spin for it, from the pieces of all their stretches.
#[tactic(auto, unfolding(crate::specs::Locks::wait_rows))]
fn push_waits(alloc: Global, l: u16, all: &[Stretch], out: &mut Vec<Row>) -> Result<(), AllocError>
    ensures { OnOk result (out.new.items ≡ out.old.items ++ wait_rows l all.now) }
{
    let waits = spans_of(alloc, Activity::WaitingFor(LockId(l)), all)?;
    push_spans(l, Measure::Does(Activity::Waiting), &waits, out)?;
    let spins = spans_of(alloc, Activity::SpinningFor(LockId(l)), all)?;
    push_spans(l, Measure::Does(Activity::Spinning), &spins, out)
}

// How often the owner is given the priority of those who wait.
fn hand_overs(l: u16, all: &[HandOver]) -> usize
    ensures { result ≡ hand_overs l all.now }
{
    all.iter().filter(|x| x.lock.0 == l).count()
}

#[tactic(auto, unfolding(crate::specs::Locks::lock_part))]
fn push_lock(
    alloc: Global,
    work: &Work,
    history: &ByThread,
    all: &[Stretch],
    l: u16,
    out: &mut Vec<Row>,
) -> Result<(), AllocError>
    ensures { OnOk result (out.new.items ≡ out.old.items ++ lock_part work.now history.now all.now l) }
{
    let own = lock_entries(alloc, l, &history.history.happenings)?;
    push_held(alloc, work, history.history.entries, l, &own, out)?;
    push_waits(alloc, l, all, out)?;
    push_count(
        l,
        Measure::HandsOn,
        hand_overs(l, &history.history.hand_overs),
        out,
    )
}

// The pieces of the stretches of thread `t`, behind those that were found before.
fn push_pieces(
    alloc: Global,
    work: &Work,
    history: &ByThread,
    t: usize,
    all: &mut Vec<Stretch>,
) -> Result<(), AllocError>
    ensures { OnOk result (all.new.items ≡ all.old.items ++ pieces (track.Thread t) history.now work.now.limit) }
{
    let own = pieces(alloc, Track::Thread(t), history, work.limit)?;
    all.extend_from_slice(&own)
}

// The pieces of the stretches of all threads.
#[tactic(auto, unfolding(crate::specs::Locks::all_pieces))]
fn all_pieces(alloc: Global, work: &Work, history: &ByThread) -> Result<Vec<Stretch>, AllocError>
    ensures { IfOk result (λ v. v.items ≡ all_pieces work.now history.now) }
{
    let mut all = Vec::new(alloc);
    for t in 0..work.threads.items().len() {
        push_pieces(alloc, work, history, t, &mut all)?;
    }
    Ok(all)
}

/// The rows of the locks of a run of the workload, of which this is the history: how often each is taken and how long held, the
/// longest with its holder; how often a thread had to spin or wait before it took the lock; how long threads wait and spin for it; and
/// how often its owner is given the priority of those who wait. A row that would have nothing to count is left out.
#[tactic(auto, unfolding(crate::specs::Locks::lock_rows))]
pub fn lock_rows(alloc: Global, work: &Work, history: &ByThread) -> Result<Vec<Row>, AllocError>
    ensures { IfOk result (λ v. v.items ≡ lock_rows work.now history.now) }
{
    let mut rows = Vec::new(alloc);
    if work.locks.items().is_empty() {
        return Ok(rows);
    }
    let all = all_pieces(alloc, work, history)?;
    for l in 0..work.locks.items().len() {
        push_lock(alloc, work, history, &all, l as u16, &mut rows)?;
    }
    Ok(rows)
}
