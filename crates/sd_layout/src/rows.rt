//! Which threads have a row, and in which order.

ghost use Rattle.std.specs.Prelude.{◌≡◌, ◌++◌, ◌∷◌, [], IfOk, OnOk, filter, length, map, not, if◌then◌else◌};
ghost use Rattle.std.specs.List.{list_any, range_with_len};
ghost use Rattle.sd_state.specs.States.{thread_numbers};
ghost use Rattle.sd_layout.specs.Rows.{acts, begins_in, is_deed, lanes_of, layout_of, ordered, rows_of, runs_in};

use crate::folds::{folds, scale_of};
use crate::frames::Frame;
use crate::layouts::Layout;
use sd_holds::{Hold, bands, most_lanes};
use sd_stretches::{ByThread, Stretch, does_run, stretches};
use sd_types::Work;
use std::alloc::{AllocError, Global};

// The thread runs in the ticks that are drawn.
fn runs_in(frame: Frame, x: &Stretch) -> bool
    ensures { result ≡ runs_in frame x.now }
{
    does_run(x.doing) && x.from <= frame.to && frame.from <= x.to
}

// It comes there from doing one thing to doing another.
fn begins_in(frame: Frame, x: &Stretch) -> bool
    ensures { result ≡ begins_in frame x.now }
{
    0 < x.first && frame.from <= x.from && x.from <= frame.to
}

fn is_deed(frame: Frame, x: &Stretch) -> bool
    ensures { result ≡ is_deed frame x.now }
{
    runs_in(frame, x) || begins_in(frame, x)
}

fn any_deed(frame: Frame, own: &[Stretch]) -> bool
    ensures { result ≡ list_any (is_deed frame) own.now }
{
    own.iter().any(|x| is_deed(frame, x))
}

// Whether the thread does something in the ticks that are drawn.
fn acts(
    alloc: Global,
    work: &Work,
    frame: Frame,
    history: &ByThread,
    t: usize,
) -> Result<bool, AllocError>
    ensures { IfOk result (λ b. b ≡ acts work.now frame history.now t) }
{
    let own = stretches(alloc, history, t, work.limit)?;
    Ok(any_deed(frame, &own))
}

// Where a thread stands: among those that are to come first, or among the others.
fn push_thread(
    is_first: bool,
    t: usize,
    first: &mut Vec<usize>,
    others: &mut Vec<usize>,
) -> Result<(), AllocError>
    ensures first { OnOk result (first.new.items ≡ first.old.items ++ (if is_first then t ∷ [] else [])) }
    ensures others { OnOk result (others.new.items ≡ others.old.items ++ (if not is_first then t ∷ [] else [])) }
{
    if is_first {
        first.push(t)?;
    } else {
        others.push(t)?;
    }
    Ok(())
}

// The threads that act in the ticks that are drawn, and behind them the others.
fn acting_first(
    alloc: Global,
    work: &Work,
    frame: Frame,
    history: &ByThread,
) -> Result<Vec<usize>, AllocError>
    ensures { IfOk result (λ v. v.items ≡ ordered (acts work.now frame history.now) (thread_numbers work.now)) }
{
    let mut first = Vec::new(alloc);
    let mut others = Vec::new(alloc);
    for t in 0..work.threads.items().len() {
        let is_first = acts(alloc, work, frame, history, t)?;
        push_thread(is_first, t, &mut first, &mut others)?;
    }
    first.extend_from_slice(&others)?;
    Ok(first)
}

fn thread_numbers(alloc: Global, work: &Work) -> Result<Vec<usize>, AllocError>
    ensures { IfOk result (λ v. v.items ≡ thread_numbers work.now) }
{
    let mut threads = Vec::new(alloc);
    for t in 0..work.threads.items().len() {
        threads.push(t)?;
    }
    Ok(threads)
}

// All threads where there is room for all, else those that act first, as far as there is room.
#[tactic(auto, unfolding(crate::specs::Rows::rows_of))]
fn rows_of(
    alloc: Global,
    work: &Work,
    frame: Frame,
    history: &ByThread,
) -> Result<Vec<usize>, AllocError>
    ensures { IfOk result (λ v. v.items ≡ rows_of work.now frame history.now) }
{
    let room = usize::from(frame.threads);
    if work.threads.items().len() <= room {
        return thread_numbers(alloc, work);
    }
    let mut rows = acting_first(alloc, work, frame, history)?;
    rows.truncate(room);
    Ok(rows)
}

// How many lanes the holds of a thread need.
fn lanes_of(alloc: Global, frame: Frame, holds: &[Hold], t: usize) -> Result<u16, AllocError>
    ensures { IfOk result (λ n. n ≡ lanes_of frame holds.now t) }
{
    let own = bands(alloc, holds, t, frame.from, frame.to)?;
    Ok(most_lanes(&own))
}

// Those of these threads.
fn all_lanes(
    alloc: Global,
    frame: Frame,
    holds: &[Hold],
    threads: &[usize],
) -> Result<Vec<u16>, AllocError>
    ensures { IfOk result (λ v. v.items ≡ map (lanes_of frame holds.now) threads.now) }
{
    let mut lanes = Vec::new(alloc);
    for t in threads {
        lanes.push(lanes_of(alloc, frame, holds, *t)?)?;
    }
    Ok(lanes)
}

/// What is drawn of a run of the workload, with these holds of locks.
pub fn layout_of(
    alloc: Global,
    work: &Work,
    frame: Frame,
    history: &ByThread,
    holds: &[Hold],
) -> Result<Layout, AllocError>
    ensures { IfOk result (λ layout. layout ≡ layout_of work.now frame history.now holds.now) }
{
    let rows = rows_of(alloc, work, frame, history)?;
    let lanes = all_lanes(alloc, frame, holds, &rows)?;
    let folds = folds(alloc, frame, &history.history)?;
    let scale = scale_of(frame, &folds);
    Ok(Layout {
        from: frame.from,
        to: frame.to,
        cpus: frame.cpus,
        threads: frame.threads,
        rows,
        lanes,
        sets: !work.sets.items().is_empty(),
        scale,
        folds,
    })
}
