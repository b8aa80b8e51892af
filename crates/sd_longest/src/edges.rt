//! A graph: the edges from each state.

ghost use Rattle.std.specs.Prelude.{◌≡◌, ◌<◌, length, slice_get, Some};
ghost use Rattle.sd_longest.specs.Edges.{rows_of};

use sd_types::CpuId;

/// What an edge does to a wait.
#[derive(Clone, Copy, Debug, PartialEq, Eq)]
pub enum Effect {
    /// From here on one is open, whatever was before.
    Opens,

    /// Each that was open has ended.
    Ends,

    /// Each goes on.
    Passes,
}

/// An edge from one state to another: the turn of a processor, at a tick.
#[derive(Clone, Copy)]
pub struct Edge {
    pub cpu: CpuId,
    pub tick: u32,
    pub effect: Effect,
    pub to: u32,
}

/// The edges from state `i`.
pub(crate) fn row_of(rows: &[Vec<Edge>], i: usize) -> &[Edge]
    requires { i < length (rows_of rows.now) }
    ensures { slice_get (rows_of rows.now) i ≡ Some result.now }
{
    rows[i].as_slice()
}
