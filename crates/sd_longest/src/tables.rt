//! The turns from the states that were found, as edges of a graph: each with its tick, and what it does to the waits of a thread.

ghost use Rattle.std.specs.Prelude.{◌≡◌, ◌++◌, ◌<◌, ◌≤◌, length, IfOk, OnOk};
ghost use Rattle.sd_longest.specs.Tables.{AreRows, HasTurns, edges_of};
ghost use Rattle.sd_search.specs.Graphs.{Gathers, IsAt, packed};
ghost use Rattle.sd_longest.specs.Edges.{rows_of};

use crate::Edge;
use crate::effects::effect_of;
use sd_flat::cpu_of;
use sd_search::{Graph, Turn};
use sd_state::State;
use sd_types::{CpuId, ThreadId, Work};
use std::alloc::{AllocError, Global};

/// The greatest number of a state that an edge has room for (this project's own): memory is taken to run out behind it.
const MOST_NUMBER: usize = 0xffff_ffff;

/// The turn of processor `c` goes behind those so far, where it has one.
fn note(
    row: &mut Vec<Edge>,
    state: &State,
    c: CpuId,
    thread: ThreadId,
    turn: Option<Turn>,
) -> Result<(), AllocError>
    ensures { OnOk result (row.new.items ≡ row.old.items ++ edges_of state.now c thread turn) }
{
    if let Some(turn) = turn {
        if turn.to > MOST_NUMBER {
            return Err(AllocError);
        }
        row.push(Edge {
            cpu: c,
            tick: cpu_of(state, c).count,
            effect: effect_of(thread, &turn.event),
            to: turn.to as u32,
        })?;
    }
    Ok(())
}

/// The turns from state number `i`.
fn row_of(
    alloc: Global,
    work: &Work,
    graph: &Graph,
    i: usize,
    thread: ThreadId,
) -> Result<Vec<Edge>, AllocError>
    requires gathered { Gathers work.now graph.now }
    requires expanded { i < graph.now.done }
    ensures { IfOk result (λ row. HasTurns work.now (packed graph.now) thread i work.now.cpus row.items) }
{
    let state = graph.state(alloc, work, i)?;
    let mut row = Vec::new(alloc);
    for c in 0..work.cpus {
        let turn = graph.turn(alloc, work, i, &state, CpuId(c))?;
        note(&mut row, &state, CpuId(c), thread, turn)?;
    }
    row.shrink_to_fit();
    Ok(row)
}

/// The turns from each state, of a search that expanded all, as edges with what they do to the waits of a thread. Memory is taken to
/// run out where there are more than 2^32 states.
pub(crate) fn rows(
    alloc: Global,
    work: &Work,
    graph: &Graph,
    thread: ThreadId,
) -> Result<Vec<Vec<Edge>>, AllocError>
    requires gathered { Gathers work.now graph.now }
    requires closed { length (packed graph.now) ≤ graph.now.done }
    ensures { IfOk result (λ rows. AreRows work.now (packed graph.now) thread (length (packed graph.now)) (rows_of rows.items)) }
{
    let mut rows = Vec::new(alloc);
    for i in 0..graph.len() {
        let row = row_of(alloc, work, graph, i, thread)?;
        rows.push(row)?;
    }
    Ok(rows)
}
