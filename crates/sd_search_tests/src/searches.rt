//! Searches of workloads, and what is seen of them. One function owns the workload for all tests, and one the states, since a function that
//! drops such values takes long to prove.

ghost use Rattle.std.specs.Prelude.{IfOk};
ghost use Rattle.sd_search.specs.Graphs.{Gathers};

use crate::counts::counted;
use crate::extremes::{entries_without, in_slices, ticks};
use crate::latency::longest_wait_of;
use sd_longest::longest_run;
use sd_search::{Graph, Question, begin, explore_more};
use sd_types::Work;
use sd_workload::read_work;
use std::alloc::{AllocError, Global};
use std::process::Abort;

/// What is asked of a search: of a thread by its number.
#[derive(Clone, Copy)]
pub(crate) enum Asked {
    /// How many states there are, in how many of them runs end, and how many entries a run has that ends so.
    Counts(Question),
    /// When the thread ends.
    Ends(u16),
    /// How many entries a run has in which the thread does not end.
    Without(u16),
    /// How many entries a run has at most.
    Longest,
    /// How long the thread waits at most.
    Waits(u16),
    /// How many states a search in slices has expanded, and whether it is over.
    Slices,
}

/// What is seen of an answer.
#[derive(Clone, Copy, PartialEq, Eq)]
pub(crate) enum Seen {
    NoWork,
    Never,
    More,
    Counts {
        states: usize,
        finals: usize,
        entries: Option<usize>,
    },
    Ticks(u32, u32),
    Entries(Option<usize>),
    Longest(Option<u32>),
    Wait(u32),
    Slices(usize, bool),
}

/// What is wanted of an answer.
#[derive(Clone, Copy)]
pub(crate) enum Wanted {
    This(Seen),
    /// So many states, and none of a run that ends so.
    Unfound { least: usize, most: usize },
    /// Each state but the last has one behind it.
    OneOrder,
}

/// A workload, the most states, what is asked, and what is wanted.
pub(crate) type Row = (&'static [u8], usize, Asked, Wanted);

/// All states, or `most`.
fn explored(alloc: Global, work: &Work, most: usize) -> Result<Graph, AllocError>
    ensures { IfOk result (Gathers work.now) }
{
    let mut graph = begin(alloc, work)?;
    explore_more(alloc, work, &mut graph, most, usize::MAX)?;
    Ok(graph)
}

fn states_of(alloc: Global, work: &Work, most: usize, asked: Asked) -> Result<Graph, AllocError>
    ensures { IfOk result (Gathers work.now) }
{
    match asked {
        Asked::Slices => in_slices(alloc, work, most),
        _ => explored(alloc, work, most),
    }
}

fn longest_of(alloc: Global, work: &Work, graph: &Graph) -> Result<Seen, AllocError>
    requires { Gathers work.now graph.now }
{
    match longest_run(alloc, work, graph) {
        Ok(entries) => Ok(Seen::Longest(entries)),
        Err(fault) => Err(fault),
    }
}

fn seen_by(
    alloc: Global,
    work: &Work,
    most: usize,
    graph: &Graph,
    asked: Asked,
) -> Result<Seen, AllocError>
    requires { Gathers work.now graph.now }
{
    match asked {
        Asked::Counts(question) => counted(alloc, work, graph, question),
        Asked::Ends(t) => ticks(alloc, work, graph, t),
        Asked::Without(t) => entries_without(alloc, work, graph, t),
        Asked::Longest => longest_of(alloc, work, graph),
        Asked::Waits(t) => longest_wait_of(alloc, work, graph, t),
        Asked::Slices => Ok(Seen::Slices(graph.expanded(), graph.is_over(most))),
    }
}

fn seen_of(alloc: Global, work: &Work, most: usize, asked: Asked) -> Result<Seen, AllocError> {
    let graph = states_of(alloc, work, most, asked)?;
    seen_by(alloc, work, most, &graph, asked)
}

/// What is seen of a search of this workload.
fn seen_in(alloc: Global, text: &[u8], most: usize, asked: Asked) -> Result<Seen, AllocError> {
    if 10_000 <= text.len() {
        return Ok(Seen::NoWork);
    }
    match read_work(alloc, text) {
        Ok(work) => seen_of(alloc, &work, most, asked),
        Err(_) => Ok(Seen::NoWork),
    }
}

fn is_unfound(seen: Seen, least: usize, most: usize) -> bool {
    match seen {
        Seen::Counts {
            states,
            entries,
            ..
        } => least <= states && states <= most && entries.is_none(),
        _ => false,
    }
}

fn is_one_order(seen: Seen) -> bool {
    match seen {
        Seen::Counts {
            states,
            finals,
            entries,
        } => finals == 1 && entries == states.checked_sub(1),
        _ => false,
    }
}

fn is_wanted(seen: Seen, wanted: Wanted) -> bool {
    match wanted {
        Wanted::This(this) => seen == this,
        Wanted::Unfound { least, most } => is_unfound(seen, least, most),
        Wanted::OneOrder => is_one_order(seen),
    }
}

/// The first search that is not as wanted.
fn wrong_row(alloc: Global, rows: &[Row]) -> Result<Option<usize>, AllocError> {
    for (index, row) in rows.iter().enumerate() {
        let (text, most, asked, wanted) = *row;
        if !is_wanted(seen_in(alloc, text, most, asked)?, wanted) {
            return Ok(Some(index));
        }
    }
    Ok(None)
}

/// Each search is as wanted.
pub(crate) fn judge<R: Abort + AllocGlobal>(rt: &R, rows: &[Row]) {
    let wrong = wrong_row(rt.alloc(), rows);
    assert!(rt; matches!(wrong, Ok(None)), "search {wrong:?}");
}
