//! How many entries a run has at most.

ghost use Rattle.std.specs.Prelude.{◌≡◌, ◌<◌, length, slice_index, IfOk};
ghost use Rattle.sd_longest.specs.LongestRuns.{IsLongestFound};
ghost use Rattle.sd_search.specs.Graphs.{Gathers};

use crate::heights::heights;
use crate::tables::rows;
use sd_search::Graph;
use sd_types::{ThreadId, Work};
use std::alloc::{AllocError, Global};

fn first(heights: &[u32]) -> u32
    requires { 0 < length heights.now }
    ensures { result ≡ slice_index heights.now 0 }
{
    heights[0]
}

/// How many entries a run has at most, over all orders in which the processors can act, where each reads the numbers of the
/// state, by the states that a search has found. None where not all states were reached, or where runs have 2^32 - 1 entries or
/// more, or could go on without end. Each state is read once; what the turns do to the waits of a thread is noted and not looked at.
pub fn longest_run(alloc: Global, work: &Work, graph: &Graph) -> Result<Option<u32>, AllocError>
    requires { Gathers work.now graph.now }
    ensures { IfOk result (IsLongestFound work.now graph.now) }
{
    if !graph.is_closed() {
        return Ok(None);
    }
    let rows = rows(alloc, work, graph, ThreadId(0))?;
    match heights(alloc, &rows)? {
        Some(heights) => Ok(Some(first(&heights))),
        None => Ok(None),
    }
}
