//! When a thread ends, over every order in which the processors of a workload can act.

ghost use Rattle.std.specs.Prelude.{◌≡◌, ◌↔◌, ◌≤◌, length, IsTrue, IfOk};
ghost use Rattle.sd_state.specs.Texts.{thread_name};
ghost use Rattle.sd_search.specs.Graphs.{Gathers, packed};
ghost use Rattle.sd_search_answers.specs.Timings.{IsInEvery, IsNamed, IsTiming};

use sd_extremes::{Ending, Missed, When, run_without, when_ended};
use sd_search::Graph;
use sd_stretches::thread_name;
use sd_types::{ThreadId, Work};
use std::alloc::{AllocError, Global};

/// When a thread ends.
#[derive(Drop)]
pub enum Timing {
    /// At these ticks at the earliest and at the latest, each with a run in which it does; and whether it does in every run that
    /// goes to its end.
    Between {
        earliest: Ending,
        latest: Ending,
        in_every: bool,
    },

    /// In no run.
    Never,

    /// Not all states were searched: nothing is known.
    More,
}

/// The name is that of thread `t`.
fn is_named(work: &Work, t: usize, name: &[u8]) -> bool
    ensures { IsTrue result ↔ (thread_name work.now t ≡ name.now) }
{
    thread_name(work, t) == name
}

/// The thread of a name; None where no thread of the workload has it.
pub(crate) fn thread_named(work: &Work, name: &[u8]) -> Option<ThreadId>
    ensures { IsNamed work.now name.now result }
{
    for t in 0..work.threads.items().len() {
        if is_named(work, t, name) {
            return Some(ThreadId(t as u16));
        }
    }
    None
}

/// The thread has ended at the end of every run that goes to its end.
fn is_in_every(
    alloc: Global,
    work: &Work,
    graph: &Graph,
    thread: ThreadId,
) -> Result<bool, AllocError>
    requires gathered { Gathers work.now graph.now }
    requires closed { length (packed graph.now) ≤ graph.now.done }
    ensures { IfOk result (IsInEvery work.now thread) }
{
    let finals = graph.finals(alloc, work)?;
    match run_without(alloc, work, graph, &finals, thread)? {
        Missed::Run { .. } => Ok(false),
        Missed::Never => Ok(true),
        Missed::More => unreachable!(),
    }
}

/// When the thread ends, by the states that a search has found.
pub(crate) fn timing_of(
    alloc: Global,
    work: &Work,
    graph: &Graph,
    thread: ThreadId,
) -> Result<Timing, AllocError>
    requires { Gathers work.now graph.now }
    ensures { IfOk result (IsTiming work.now thread graph.now) }
{
    if !graph.is_closed() {
        return Ok(Timing::More);
    }
    match when_ended(alloc, work, graph, thread)? {
        When::Between { earliest, latest } => {
            let in_every = is_in_every(alloc, work, graph, thread)?;
            Ok(Timing::Between {
                earliest,
                latest,
                in_every,
            })
        }
        When::Never => Ok(Timing::Never),
        When::More => Ok(Timing::More),
    }
}
