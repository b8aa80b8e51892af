//! All states that were found, one after another, and in each the turn of every processor.

ghost use Rattle.std.specs.Prelude.{◌≡◌, ◌+◌, ◌<◌, ◌↔◌, length, IsTrue, IfOk};
ghost use Rattle.sd_extremes.specs.Marks.{EndsNow, IsBefore, IsBelow, Spans};
ghost use Rattle.sd_search.specs.Graphs.{Gathers, IsAt, packed};
ghost use Rattle.sd_invariants.specs.Laws.{IsFit};

use crate::marks::{Mark, Span, ended, with_mark};
use sd_flat::cpu_of;
use sd_replay::serial_next;
use sd_search::Graph;
use sd_state::State;
use sd_types::{CpuId, ThreadId, Work};
use std::alloc::{AllocError, Global};

/// The turn of processor `c` ends the thread.
fn ends_now(work: &Work, state: &State, c: CpuId, thread: ThreadId) -> bool
    requires fit { IsFit work.now state.now }
    requires cpu { c.0 < work.now.cpus }
    ensures { IsTrue result ↔ EndsNow work.now state.now c thread }
{
    let (_, event) = serial_next(work, state, c);
    match ended(event) {
        Some(other) => other == thread,
        None => false,
    }
}

/// The span with state number `i` and processor `c`.
fn look(
    graph: &Graph,
    work: &Work,
    i: usize,
    state: &State,
    c: CpuId,
    thread: ThreadId,
    span: Option<Span>,
) -> Option<Span>
    requires gathered { Gathers work.now graph.now }
    requires at { IsAt (packed graph.now) i state.now }
    requires cpu { c.0 < work.now.cpus }
    requires spans { Spans work.now (packed graph.now) thread (IsBefore i c.0) span }
    ensures { Spans work.now (packed graph.now) thread (IsBefore i (c.0 + 1)) result }
{
    if ends_now(work, state, c, thread) {
        let mark = Mark {
            tick: cpu_of(state, c).count,
            state: i,
            cpu: c,
        };
        Some(with_mark(span, mark))
    } else {
        span
    }
}

/// The span with state number `i`.
fn look_at(
    graph: &Graph,
    work: &Work,
    i: usize,
    state: &State,
    thread: ThreadId,
    so_far: Option<Span>,
) -> Option<Span>
    requires gathered { Gathers work.now graph.now }
    requires at { IsAt (packed graph.now) i state.now }
    requires spans { Spans work.now (packed graph.now) thread (IsBelow i) so_far }
    ensures { Spans work.now (packed graph.now) thread (IsBelow (i + 1)) result }
{
    let mut span = so_far;
    for c in 0..work.cpus {
        span = look(graph, work, i, state, CpuId(c), thread, span);
    }
    span
}

/// Where the thread ends first and last in the states that were found, and by which turns.
pub(crate) fn scan(
    alloc: Global,
    work: &Work,
    graph: &Graph,
    thread: ThreadId,
) -> Result<Option<Span>, AllocError>
    requires gathered { Gathers work.now graph.now }
    ensures { IfOk result (Spans work.now (packed graph.now) thread (IsBelow (length (packed graph.now)))) }
{
    let mut span = None;
    for i in 0..graph.len() {
        let state = graph.state(alloc, work, i)?;
        span = look_at(graph, work, i, &state, thread, span);
    }
    Ok(span)
}
