//! Circles of wants: at the end of a run threads wait or spin for locks that others of them hold, so none of them gets on. Those in a
//! blocking cycle are a deadlock. In the others a thread spins, or waits for one that reads, so the machine reports no cycle.

ghost use Rattle.std.specs.Prelude.{◌≡◌, ◌++◌, ◌∷◌, [], IfOk, OnOk, filter, flat_map, map, if◌then◌else◌};
ghost use Rattle.std.specs.List.{list_any};
ghost use Rattle.sd_timeline.specs.Circles.{all_of, circle, dead_threads, does_want, holds_lock, is_among, is_held_by, is_last_want, is_wanted, last_wants, ring_at, ring_text, ring_words, rings_text, stays, trimmed, trimmed_by, wants_of, wants_one};

use crate::arrows::has_row;
use crate::legend::Drawn;
use crate::pieces::put_word_label;
use sd_holds::Hold;
use sd_layout::{Layout, Row};
use sd_stretches::{Doing, Stretch};
use sd_types::Work;
use std::alloc::{AllocError, Global};

fn is_held_by(t: usize, l: u16, x: &Hold) -> bool
    ensures { result ≡ is_held_by t l x.now }
{
    x.given.is_none() && usize::from(x.thread.0) == t && x.lock.0 == l
}

// The thread holds the lock at the end of the run.
fn holds_lock(holds: &[Hold], t: usize, l: u16) -> bool
    ensures { result ≡ holds_lock holds.now t l }
{
    holds.iter().any(|x| is_held_by(t, l, x))
}

// Who does this wants a lock that the thread holds.
fn wants_of(holds: &[Hold], t: usize, doing: Doing) -> bool
    ensures { result ≡ wants_of holds.now t doing }
{
    match doing {
        Doing::Spinning(_, l) => holds_lock(holds, t, l.0),
        Doing::Waiting(l) => holds_lock(holds, t, l.0),
        _ => false,
    }
}

fn does_want(doing: Doing) -> bool
    ensures { result ≡ does_want doing }
{
    matches!(doing, Doing::Spinning(_, _) | Doing::Waiting(_))
}

// The piece is a thread's last, over which it wants a lock, and the thread has a row.
fn is_last_want(work: &Work, layout: &Layout, x: &Stretch) -> bool
    ensures { result ≡ is_last_want work.now layout.now x.now }
{
    does_want(x.doing) && x.to == work.limit && has_row(layout, x.thread)
}

fn push_want(
    work: &Work,
    layout: &Layout,
    x: &Stretch,
    found: &mut Vec<Stretch>,
) -> Result<(), AllocError>
    ensures { OnOk result (found.new.items ≡ found.old.items ++ (if is_last_want work.now layout.now x.now then x.now ∷ [] else [])) }
{
    if is_last_want(work, layout, x) {
        found.push(*x)?;
    }
    Ok(())
}

#[tactic(auto, unfolding(crate::specs::Circles::last_wants))]
fn last_wants(
    alloc: Global,
    work: &Work,
    layout: &Layout,
    pieces: &[Stretch],
) -> Result<Vec<Stretch>, AllocError>
    ensures { IfOk result (λ v. v.items ≡ last_wants work.now layout.now pieces.now) }
{
    let mut found = Vec::new(alloc);
    for x in pieces {
        push_want(work, layout, x, &mut found)?;
    }
    Ok(found)
}

// It wants a lock of one of these.
fn wants_one(holds: &[Hold], all: &[Stretch], x: &Stretch) -> bool
    ensures { result ≡ wants_one holds.now all.now x.now }
{
    all.iter().any(|y| wants_of(holds, y.thread, x.doing))
}

// One of these wants a lock of it.
fn is_wanted(holds: &[Hold], all: &[Stretch], x: &Stretch) -> bool
    ensures { result ≡ is_wanted holds.now all.now x.now }
{
    all.iter().any(|y| wants_of(holds, x.thread, y.doing))
}

fn stays(holds: &[Hold], all: &[Stretch], x: &Stretch) -> bool
    ensures { result ≡ stays holds.now all.now x.now }
{
    wants_one(holds, all, x) && is_wanted(holds, all, x)
}

fn push_staying(
    holds: &[Hold],
    all: &[Stretch],
    x: &Stretch,
    found: &mut Vec<Stretch>,
) -> Result<(), AllocError>
    ensures { OnOk result (found.new.items ≡ found.old.items ++ (if stays holds.now all.now x.now then x.now ∷ [] else [])) }
{
    if stays(holds, all, x) {
        found.push(*x)?;
    }
    Ok(())
}

// Those of which both is so.
#[tactic(auto, unfolding(crate::specs::Circles::trimmed))]
fn trimmed(alloc: Global, holds: &[Hold], all: &[Stretch]) -> Result<Vec<Stretch>, AllocError>
    ensures { IfOk result (λ v. v.items ≡ trimmed holds.now all.now) }
{
    let mut found = Vec::new(alloc);
    for x in all {
        push_staying(holds, all, x, &mut found)?;
    }
    Ok(found)
}

// The most of them of which both is so.
fn circle(alloc: Global, holds: &[Hold], wants: Vec<Stretch>) -> Result<Vec<Stretch>, AllocError>
    ensures { IfOk result (λ v. v.items ≡ circle holds.now wants.items) }
{
    let mut left = wants.len();
    let mut found = wants;
    while left > 0 {
        found = trimmed(alloc, holds, &found)?;
        left -= 1;
    }
    Ok(found)
}

#[tactic(auto, unfolding(crate::specs::Circles::all_of))]
fn push_threads(threads: &[usize], out: &mut Vec<usize>) -> Result<(), AllocError>
    ensures { OnOk result (out.new.items ≡ out.old.items ++ all_of threads.now) }
{
    out.extend_from_slice(threads)
}

// The threads of blocking cycles.
#[tactic(auto, unfolding(crate::specs::Circles::dead_threads))]
fn dead_threads(alloc: Global, cycles: &[Vec<usize>]) -> Result<Vec<usize>, AllocError>
    ensures { IfOk result (λ v. v.items ≡ dead_threads (map (λ v. v.items) cycles.now)) }
{
    let mut found = Vec::new(alloc);
    for threads in cycles {
        push_threads(threads, &mut found)?;
    }
    Ok(found)
}

fn is_among(threads: &[usize], t: usize) -> bool
    ensures { result ≡ is_among threads.now t }
{
    threads.iter().any(|u| *u == t)
}

fn ring_words(doing: Doing) -> &'static [u8]
    ensures { result.now ≡ ring_words doing }
{
    match doing {
        Doing::Spinning(_, _) => b"spins in a circle",
        _ => b"waits in a circle",
    }
}

fn put_ring_at(
    layout: &Layout,
    doing: Doing,
    row: Option<u16>,
    out: &mut Vec<u8>,
) -> Result<(), AllocError>
    ensures { OnOk result (out.new.items ≡ out.old.items ++ ring_at layout.now doing row) }
{
    match row {
        Some(row) => put_word_label(
            b"ring",
            layout.inside(layout.to),
            layout.base(Row::Thread(row)),
            ring_words(doing),
            out,
        ),
        None => Ok(()),
    }
}

// The mark of a thread that is in such a circle, and not among those of blocking cycles.
fn put_ring(
    layout: &Layout,
    dead: &[usize],
    x: &Stretch,
    out: &mut Vec<u8>,
) -> Result<(), AllocError>
    ensures { OnOk result (out.new.items ≡ out.old.items ++ ring_text layout.now dead.now x.now) }
{
    if is_among(dead, x.thread) {
        Ok(())
    } else {
        put_ring_at(layout, x.doing, layout.row_of(x.thread), out)
    }
}

fn put_all_rings(
    layout: &Layout,
    dead: &[usize],
    circle: &[Stretch],
    out: &mut Vec<u8>,
) -> Result<(), AllocError>
    ensures { OnOk result (out.new.items ≡ out.old.items ++ flat_map (ring_text layout.now dead.now) circle.now) }
{
    for x in circle {
        put_ring(layout, dead, x, out)?;
    }
    Ok(())
}

/// The marks of threads that are in a circle of wants at the end of the run, and in none of these blocking cycles.
#[tactic(auto, unfolding(crate::specs::Circles::rings_text))]
pub(crate) fn put_rings(
    alloc: Global,
    work: &Work,
    layout: &Layout,
    drawn: &Drawn,
    cycles: &[Vec<usize>],
    out: &mut Vec<u8>,
) -> Result<(), AllocError>
    ensures { OnOk result (out.new.items ≡ out.old.items ++ rings_text work.now layout.now drawn.now.holds drawn.now.pieces (map (λ v. v.items) cycles.now)) }
{
    let dead = dead_threads(alloc, cycles)?;
    let wants = last_wants(alloc, work, layout, &drawn.pieces)?;
    let found = circle(alloc, &drawn.holds, wants)?;
    put_all_rings(layout, &dead, &found, out)
}
