//! The search from the initial state on.

ghost use Rattle.std.specs.Prelude.{◌≡◌, ◌+◌, ◌≤◌, ◌⊎◌, length, IfOk, OnOk};
ghost use Rattle.sd_search.specs.Graphs.{AreApart, Gathers, HasEveryRun, packed};

use crate::graph::{Graph, Step};
use crate::packing::pack;
use crate::room::Room;
use crate::store::insert;
use indexmap::IndexSet;
use sd_opening::opening;
use sd_types::{CpuId, Work};
use std::alloc::{AllocError, Global};

/// The initial state alone: a search that has expanded none yet.
pub fn begin(alloc: Global, work: &Work) -> Result<Graph, AllocError>
    ensures gathered { IfOk result (Gathers work.now) }
    ensures one { IfOk result (λ g. length (packed g) ≡ 1) }
    ensures none { IfOk result (λ g. g.done ≡ 0) }
{
    let state = opening(alloc, work)?;
    let bytes = pack(&state, Vec::new(alloc))?;
    let mut states = IndexSet::new(alloc);
    insert(alloc, &mut states, &bytes)?;
    let mut steps = Vec::new(alloc);
    steps.push(Step {
        before: 0,
        cpu: CpuId(0),
    })?;
    Ok(Graph {
        states,
        steps,
        done: 0,
    })
}

/// Goes on with a search, until so many states more are expanded, or all are, or `most` were found, and no more than that: so that
/// a caller can tell between two calls how far it has come. Memory is taken to run out where 2^32 states are expanded and one
/// more leads to a state. After out of memory the graph is not to be used.
pub fn explore_more(
    alloc: Global,
    work: &Work,
    graph: &mut Graph,
    most: usize,
    states: usize,
) -> Result<(), AllocError>
    requires { Gathers work.now graph.old }
    ensures gathered { OnOk result (Gathers work.now graph.new) }
    ensures apart { OnOk result (AreApart (packed graph.new)) }
    ensures all { OnOk result (length (packed graph.new) ≤ graph.new.done → HasEveryRun work.now (packed graph.new)) }
    ensures ends { OnOk result ((graph.new.done ≡ graph.old.done + states) ⊎ (length (packed graph.new) ≤ graph.new.done) ⊎ (most ≤ length (packed graph.new))) }
    ensures few { OnOk result ((length (packed graph.new) ≤ most) ⊎ (packed graph.new ≡ packed graph.old)) }
{
    let mut room = Room::new(alloc);
    let mut left = states;
    'states: while left > 0 && graph.done < graph.len() && graph.len() < most {
        graph.expand(alloc, work, most, &mut room)?;
        left -= 1;
    }
    Ok(())
}
