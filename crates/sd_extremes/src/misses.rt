//! Whether there are runs in which a thread does not end.

ghost use Rattle.std.specs.Prelude.{◌≡◌, ◌↔◌, ◌<◌, ℕ, length, IsTrue, IfOk};
ghost use Rattle.sd_extremes.specs.Misses.{IsFound, IsLeft, IsMiss, IsMissed, IsMissedAt, IsMissedOpen};
ghost use Rattle.sd_machine.specs.Threads.{has_ended};
ghost use Rattle.sd_state.specs.declared.states.State.{State as StateOf};
ghost use Rattle.sd_search.specs.Finals.{AreFinals};
ghost use Rattle.sd_search.specs.Graphs.{Gathers, IsAt, packed};

use sd_flat::place_of;
use sd_search::{Graph, witness};
use sd_state::Place;
use sd_types::{Entry, ThreadId, Work};
use std::alloc::{AllocError, Global};

/// Whether a thread may be left, over all orders in which the processors can act, where each reads the numbers of the state.
#[derive(Drop)]
pub enum Missed {
    /// In this run the thread has not ended when no processor can make a further entry.
    Run { entries: Vec<Entry> },

    /// In each run that goes to its end the thread has ended.
    Never,

    /// Not all states were reached: nothing is known.
    More,
}

fn has_ended(place: Place) -> bool
    ensures { result ≡ has_ended place }
{
    matches!(place, Place::Ended)
}

/// The thread has not ended in state number `i`.
fn is_left(
    alloc: Global,
    work: &Work,
    graph: &Graph,
    i: usize,
    thread: ThreadId,
) -> Result<bool, AllocError>
    requires gathered { Gathers work.now graph.now }
    requires inside { i < length (packed graph.now) }
    ensures { IfOk result (λ r. (x : StateOf) → IsAt (packed graph.now) i x → (IsTrue r ↔ IsLeft thread x)) }
{
    let state = graph.state(alloc, work, i)?;
    Ok(!has_ended(place_of(&state, thread)))
}

/// The first state in which a run ends without the thread.
fn first_left(
    alloc: Global,
    work: &Work,
    graph: &Graph,
    finals: &[usize],
    thread: ThreadId,
) -> Result<Option<usize>, AllocError>
    requires gathered { Gathers work.now graph.now }
    requires finals { AreFinals work.now (packed graph.now) (length (packed graph.now)) finals.now }
    ensures { IfOk result (IsFound work.now (packed graph.now) thread) }
{
    for i in finals {
        if is_left(alloc, work, graph, *i, thread)? {
            return Ok(Some(*i));
        }
    }
    Ok(None)
}

/// The run that leads to state number `i`.
fn run_to(
    alloc: Global,
    work: &Work,
    graph: &Graph,
    i: usize,
    thread: ThreadId,
) -> Result<Vec<Entry>, AllocError>
    requires gathered { Gathers work.now graph.now }
    requires missed { IsMissedAt work.now (packed graph.now) thread i }
    ensures { IfOk result (λ entries. IsMiss work.now thread entries.items) }
{
    let path = graph.path(alloc, work, i)?;
    witness(alloc, work, &path)
}

/// What it means that no run was found that ends without the thread.
fn none_left(_work: &Work, graph: &Graph, _thread: ThreadId) -> Missed
    requires gathered { Gathers _work.now graph.now }
    requires none { (i : ℕ) → IsMissedAt _work.now (packed graph.now) _thread i → ⊥ }
    ensures missed { IsMissed _work.now _thread result }
    ensures open { IsMissedOpen graph.now result }
{
    if graph.is_closed() {
        Missed::Never
    } else {
        Missed::More
    }
}

/// A run that goes to its end and in which the thread does not end, by the numbers of the states in which runs end; or that there
/// is none. `More` only where not all states were reached, and the thread has ended in all that were and in which runs end.
pub fn run_without(
    alloc: Global,
    work: &Work,
    graph: &Graph,
    finals: &[usize],
    thread: ThreadId,
) -> Result<Missed, AllocError>
    requires gathered { Gathers work.now graph.now }
    requires finals { AreFinals work.now (packed graph.now) (length (packed graph.now)) finals.now }
    ensures missed { IfOk result (IsMissed work.now thread) }
    ensures open { IfOk result (IsMissedOpen graph.now) }
{
    match first_left(alloc, work, graph, finals, thread)? {
        Some(i) => {
            let entries = run_to(alloc, work, graph, i, thread)?;
            Ok(Missed::Run { entries })
        }
        None => Ok(none_left(work, graph, thread)),
    }
}
