//! The longest wait of a thread that was woken, and a run in which it comes.

ghost use Rattle.std.specs.Prelude.{◌≡◌, ◌++◌, ◌≤◌, length, IfOk, OnOk};
ghost use Rattle.sd_longest.specs.Tables.{AreRows};
ghost use Rattle.sd_longest.specs.Waits.{IsLongest, IsLongWait, IsOpenLongest};
ghost use Rattle.sd_search.specs.Graphs.{Gathers, packed};
ghost use Rattle.sd_longest.specs.Edges.{IsFound, rows_of};

use crate::tables::rows;
use crate::{Edge, Wait};
use sd_extremes::whole_run;
use sd_search::Graph;
use sd_types::{CpuId, Entry, ThreadId, Work};
use std::alloc::{AllocError, Global};

/// The longest time from a wakeup of a thread to its running, over all orders in which the processors can act, where each reads
/// the numbers of the state.
#[derive(Drop)]
pub enum Longest {
    /// So many ticks: the count of the processor that makes the thread run less that of the one whose entry wakes it, 0 where it
    /// is behind. With them a run that goes to its end and in which such a wait comes.
    Wait { ticks: u32, entries: Vec<Entry> },

    /// In no run does the thread run after a wakeup.
    Never,

    /// Not all states were reached: nothing is known.
    More,
}

fn append(path: &mut Vec<CpuId>, cpus: &[CpuId]) -> Result<(), AllocError>
    ensures { OnOk result (path.new.items ≡ path.old.items ++ cpus.now) }
{
    path.extend_from_slice(cpus)
}

/// The run in which the wait comes, as far as it goes.
fn run_of(
    alloc: Global,
    work: &Work,
    graph: &Graph,
    thread: ThreadId,
    _rows: &[Vec<Edge>],
    wait: &Wait,
) -> Result<Vec<Entry>, AllocError>
    requires gathered { Gathers work.now graph.now }
    requires rows { AreRows work.now (packed graph.now) thread (length (packed graph.now)) (rows_of _rows.now) }
    requires found { IsFound (rows_of _rows.now) wait.now }
    ensures { IfOk result (λ entries. IsLongWait work.now thread wait.now.ticks entries.items) }
{
    let mut path = graph.path(alloc, work, wait.from)?;
    append(&mut path, &wait.cpus)?;
    whole_run(alloc, work, &path)
}

/// The longest time from a wakeup of the thread to its running, by the states that a search has found, with a run in which it
/// comes. `More` only where not all states were reached. Each state is read once, and a few numbers are kept of each turn.
pub fn longest_wait(
    alloc: Global,
    work: &Work,
    graph: &Graph,
    thread: ThreadId,
) -> Result<Longest, AllocError>
    requires gathered { Gathers work.now graph.now }
    ensures longest { IfOk result (IsLongest work.now thread) }
    ensures open { IfOk result (IsOpenLongest graph.now) }
{
    if !graph.is_closed() {
        return Ok(Longest::More);
    }
    let rows = rows(alloc, work, graph, thread)?;
    match crate::longest::longest_wait(alloc, &rows)? {
        Some(wait) => {
            let entries = run_of(alloc, work, graph, thread, &rows, &wait)?;
            Ok(Longest::Wait {
                ticks: wait.ticks,
                entries,
            })
        }
        None => Ok(Longest::Never),
    }
}
