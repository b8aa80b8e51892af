//! When threads end, and a search in slices.

ghost use Rattle.std.specs.Prelude.{IfOk};
ghost use Rattle.sd_search.specs.Graphs.{Gathers};

use crate::counts::LATE_RACE;
use crate::searches::{Asked, Row, Seen, Wanted, judge};
use sd_extremes::{Missed, When, run_without, when_ended};
use sd_search::{Graph, begin, explore_more};
use sd_types::{ThreadId, Work};
use std::alloc::{AllocError, Global};

/// A thread that runs for three ticks.
const ALONE: &[u8] = b"limit 10\nthread a sys 60\nscript a\nrun 3\nend\n";

/// The same, where the limit comes first.
const CUT_OFF: &[u8] = b"limit 2\nthread a sys 60\nscript a\nrun 3\nend\n";

/// Two threads on two processors, each of which runs for two ticks with the same mutex.
const TAKING_TURNS: &[u8] = b"cpus 2\nlimit 10\nmutex l\nthread a sys 60\nthread b sys 60\n\
script a\nenter l\nrun 2\nexit l\nend\nscript b\nenter l\nrun 2\nexit l\nend\n";

/// When the thread ends at the earliest and at the latest.
pub(crate) fn ticks(alloc: Global, work: &Work, graph: &Graph, t: u16) -> Result<Seen, AllocError>
    requires { Gathers work.now graph.now }
{
    match when_ended(alloc, work, graph, ThreadId(t))? {
        When::Between { earliest, latest } => Ok(Seen::Ticks(earliest.tick, latest.tick)),
        When::Never => Ok(Seen::Never),
        When::More => Ok(Seen::More),
    }
}

/// How many entries a run has in which the thread does not end; None where it ends in each.
pub(crate) fn entries_without(
    alloc: Global,
    work: &Work,
    graph: &Graph,
    t: u16,
) -> Result<Seen, AllocError>
    requires { Gathers work.now graph.now }
{
    let finals = graph.finals(alloc, work)?;
    match run_without(alloc, work, graph, &finals, ThreadId(t))? {
        Missed::Run { entries } => Ok(Seen::Entries(Some(entries.len()))),
        Missed::Never | Missed::More => Ok(Seen::Entries(None)),
    }
}

/// A search that goes on by ten states at a time, at most a hundred times.
pub(crate) fn in_slices(alloc: Global, work: &Work, most: usize) -> Result<Graph, AllocError>
    ensures { IfOk result (Gathers work.now) }
{
    let mut graph = begin(alloc, work)?;
    for _slice in 0..100 {
        explore_more(alloc, work, &mut graph, most, 10)?;
    }
    Ok(graph)
}

const ENDING: [Row; 2] = [
    (ALONE, 1000, Asked::Ends(0), Wanted::This(Seen::Ticks(3, 3))),
    (CUT_OFF, 1000, Asked::Ends(0), Wanted::This(Seen::Never)),
];

#[test]
fn a_thread_ends_after_its_ticks(rt: HostRuntime) {
    judge(&rt, &ENDING);
}

// A dispatch and two ticks, then the limit.
const LEFT: [Row; 2] = [
    (
        CUT_OFF,
        1000,
        Asked::Without(0),
        Wanted::This(Seen::Entries(Some(3))),
    ),
    (
        ALONE,
        1000,
        Asked::Without(0),
        Wanted::This(Seen::Entries(None)),
    ),
];

#[test]
fn a_thread_may_be_left(rt: HostRuntime) {
    judge(&rt, &LEFT);
}

// The one that takes the mutex first ends at tick 2. The other spins for two ticks or, where it ticks before that one gives
// the mutex up, for three.
const EARLY_OR_LATE: [Row; 3] = [
    (
        TAKING_TURNS,
        10_000,
        Asked::Ends(0),
        Wanted::This(Seen::Ticks(2, 5)),
    ),
    (
        TAKING_TURNS,
        10_000,
        Asked::Ends(1),
        Wanted::This(Seen::Ticks(2, 5)),
    ),
    (TAKING_TURNS, 10, Asked::Ends(1), Wanted::This(Seen::More)),
];

#[test]
fn a_thread_ends_early_or_late(rt: HostRuntime) {
    judge(&rt, &EARLY_OR_LATE);
}

const IN_SLICES: [Row; 1] = [(
    LATE_RACE,
    10_000,
    Asked::Slices,
    Wanted::This(Seen::Slices(215, true)),
)];

#[test]
fn a_search_goes_on_in_slices(rt: HostRuntime) {
    judge(&rt, &IN_SLICES);
}
