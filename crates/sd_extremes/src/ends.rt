//! When a thread ends, at the earliest and at the latest.

ghost use Rattle.std.specs.Prelude.{◌≡◌, length, IfOk};
ghost use Rattle.sd_extremes.specs.Ends.{IsEnding, IsOpenWhen, IsWhen};
ghost use Rattle.sd_extremes.specs.Marks.{IsMark};
ghost use Rattle.sd_search.specs.Graphs.{Gathers, packed};

use crate::marks::Mark;
use crate::scanning::scan;
use crate::whole::whole_run;
use sd_search::Graph;
use sd_types::{Entry, ThreadId, Work};
use std::alloc::{AllocError, Global};

/// A run that goes to its end, and the tick at which the thread ends in it: the count of the processor that makes its entry
/// `done`.
#[derive(Drop)]
pub struct Ending {
    pub tick: u32,
    pub entries: Vec<Entry>,
}

/// When a thread ends, over all orders in which the processors can act, where each reads the numbers of the state.
#[derive(Drop)]
pub enum When {
    /// At these ticks at the earliest and at the latest, each with a run in which it does.
    Between { earliest: Ending, latest: Ending },

    /// The thread ends in no run.
    Never,

    /// Not all states were reached: nothing is known.
    More,
}

/// The run in which the thread ends there, as far as it goes.
fn ending_at(
    alloc: Global,
    work: &Work,
    graph: &Graph,
    thread: ThreadId,
    mark: Mark,
) -> Result<Ending, AllocError>
    requires gathered { Gathers work.now graph.now }
    requires mark { IsMark work.now (packed graph.now) thread mark }
    ensures ending { IfOk result (IsEnding work.now thread) }
    ensures tick { IfOk result (λ e. e.tick ≡ mark.tick) }
{
    let mut path = graph.path(alloc, work, mark.state)?;
    path.push(mark.cpu)?;
    let entries = whole_run(alloc, work, &path)?;
    Ok(Ending {
        tick: mark.tick,
        entries,
    })
}

/// When the thread ends, by the states that a search has found: at the earliest and at the latest, with a run for each. `More`
/// only where not all states were reached. The time is that of reading each state once.
pub fn when_ended(
    alloc: Global,
    work: &Work,
    graph: &Graph,
    thread: ThreadId,
) -> Result<When, AllocError>
    requires gathered { Gathers work.now graph.now }
    ensures when { IfOk result (IsWhen work.now thread) }
    ensures open { IfOk result (IsOpenWhen graph.now) }
{
    if !graph.is_closed() {
        return Ok(When::More);
    }
    match scan(alloc, work, graph, thread)? {
        Some(span) => {
            let earliest = ending_at(alloc, work, graph, thread, span.first)?;
            let latest = ending_at(alloc, work, graph, thread, span.last)?;
            Ok(When::Between { earliest, latest })
        }
        None => Ok(When::Never),
    }
}
