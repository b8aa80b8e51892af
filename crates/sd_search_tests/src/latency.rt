//! The longest wait of a thread that was woken.

ghost use Rattle.sd_search.specs.Graphs.{Gathers};

use crate::searches::{Asked, Row, Seen, Wanted, judge};
use sd_longest::{Longest, longest_wait};
use sd_search::Graph;
use sd_types::{ThreadId, Work};
use std::alloc::{AllocError, Global};

/// Two threads of one processor, both of which nap up to tick 1. Then the second, of higher priority, runs for three ticks.
const BUSY: &[u8] =
    b"limit 10\nthread a sys 60\nthread b sys 80\nscript a\nnap 1\nrun 1\nend\nscript b\nnap 1\nrun 3\nend\n";

/// The same, where the limit comes first.
const CUT_OFF: &[u8] =
    b"limit 3\nthread a sys 60\nthread b sys 80\nscript a\nnap 1\nrun 1\nend\nscript b\nnap 1\nrun 3\nend\n";

/// How many ticks the thread waits at most.
pub(crate) fn longest_wait_of(
    alloc: Global,
    work: &Work,
    graph: &Graph,
    t: u16,
) -> Result<Seen, AllocError>
    requires { Gathers work.now graph.now }
{
    match longest_wait(alloc, work, graph, ThreadId(t))? {
        Longest::Wait { ticks, .. } => Ok(Seen::Wait(ticks)),
        Longest::Never => Ok(Seen::Never),
        Longest::More => Ok(Seen::More),
    }
}

// The first is woken at tick 1 and runs at tick 4, when the second has ended; the second runs at once.
const WAITING: [Row; 3] = [
    (BUSY, 1000, Asked::Waits(0), Wanted::This(Seen::Wait(3))),
    (BUSY, 1000, Asked::Waits(1), Wanted::This(Seen::Wait(0))),
    (BUSY, 5, Asked::Waits(0), Wanted::This(Seen::More)),
];

#[test]
fn a_thread_waits_for_another(rt: HostRuntime) {
    judge(&rt, &WAITING);
}

// It is woken at tick 1, and the second runs to the end.
const NOT_RUNNING: [Row; 1] = [(CUT_OFF, 1000, Asked::Waits(0), Wanted::This(Seen::Never))];

#[test]
fn a_thread_that_does_not_run_has_no_wait(rt: HostRuntime) {
    judge(&rt, &NOT_RUNNING);
}
