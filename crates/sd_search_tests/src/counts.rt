//! Numbers of states, and answers.

ghost use Rattle.sd_search.specs.Graphs.{Gathers};

use crate::searches::{Asked, Row, Seen, Wanted, judge};
use sd_search::{Finding, Graph, Question};
use sd_types::Work;
use std::alloc::{AllocError, Global};

/// Two threads that take two mutexes in opposite orders, one of them after four calls of `wake`.
pub(crate) const LATE_RACE: &[u8] =
    b"cpus 2\nlimit 3\nmutex l\nmutex r\nchan c\nthread a ts 30 0 0\nthread b ts 30 0 0\n\
script a\nenter l\nenter r\nexit r\nexit l\nend\nscript b\nwake c\nwake c\nwake c\nwake c\nenter r\nenter l\nexit l\nexit r\nend\n";

/// The same at once.
const RACE: &[u8] = b"cpus 2\nlimit 3\nmutex l\nmutex r\nthread a ts 30 0 0\nthread b ts 30 0 0\n\
script a\nenter l\nenter r\nexit r\nexit l\nend\nscript b\nenter r\nenter l\nexit l\nexit r\nend\n";

/// Two threads of one processor, each of which waits for the mutex of the other.
const CIRCLE: &[u8] = b"limit 3\nmutex l\nmutex r\nthread a ts 30 0 0\nthread b ts 30 0 0\n\
script a\nenter l\nyield\nenter r\nexit r\nexit l\nend\nscript b\nenter r\nenter l\nexit l\nexit r\nend\n";

/// Five philosophers on five processors, who all take the left fork first.
const DINING: &[u8] =
    b"cpus 5\nlimit 10\nmutex f0\nmutex f1\nmutex f2\nmutex f3\nmutex f4\nthread p0 ts 29 0 0\nthread p1 ts 29 0 0\nthread p2 ts 29 0 0\nthread p3 ts 29 0 0\nthread p4 ts 29 0 0\n\
script p0\nrun 1\nenter f0\nrun 3\nenter f1\nrun 2\nexit f1\nexit f0\nend\n\
script p1\nrun 1\nenter f1\nrun 3\nenter f2\nrun 2\nexit f2\nexit f1\nend\n\
script p2\nrun 1\nenter f2\nrun 3\nenter f3\nrun 2\nexit f3\nexit f2\nend\n\
script p3\nrun 1\nenter f3\nrun 3\nenter f4\nrun 2\nexit f4\nexit f3\nend\n\
script p4\nrun 1\nenter f4\nrun 3\nenter f0\nrun 2\nexit f0\nexit f4\nend\n";

/// How many states there are, in how many of them runs end, and how many entries a run has that ends so; None where none was found.
pub(crate) fn counted(
    alloc: Global,
    work: &Work,
    graph: &Graph,
    question: Question,
) -> Result<Seen, AllocError>
    requires { Gathers work.now graph.now }
{
    let finals = graph.finals(alloc, work)?;
    let entries = match graph.finding(alloc, work, &finals, question)? {
        Finding::Found { entries } => Some(entries.len()),
        Finding::Never | Finding::More => None,
    };
    Ok(Seen::Counts {
        states: graph.len(),
        finals: finals.len(),
        entries,
    })
}

const RACES: [Row; 2] = [
    (
        LATE_RACE,
        1000,
        Asked::Counts(Question::Stuck),
        Wanted::This(Seen::Counts {
            states: 215,
            finals: 6,
            entries: Some(14),
        }),
    ),
    (
        RACE,
        1000,
        Asked::Counts(Question::Blocked),
        Wanted::This(Seen::Counts {
            states: 175,
            finals: 6,
            entries: None,
        }),
    ),
];

#[test]
fn races_are_searched(rt: HostRuntime) {
    judge(&rt, &RACES);
}

const PHILOSOPHERS: [Row; 1] = [(
    DINING,
    10_000,
    Asked::Counts(Question::Blocked),
    Wanted::Unfound {
        least: 1483,
        most: 1483,
    },
)];

#[test]
fn philosophers_are_searched(rt: HostRuntime) {
    judge(&rt, &PHILOSOPHERS);
}

const ONE_PROCESSOR: [Row; 1] = [(
    CIRCLE,
    1000,
    Asked::Counts(Question::Blocked),
    Wanted::OneOrder,
)];

#[test]
fn one_processor_has_one_order(rt: HostRuntime) {
    judge(&rt, &ONE_PROCESSOR);
}

const PART: [Row; 1] = [(
    LATE_RACE,
    100,
    Asked::Counts(Question::Stuck),
    Wanted::Unfound {
        least: 100,
        most: 100,
    },
)];

#[test]
fn a_search_ends_where_enough_is_found(rt: HostRuntime) {
    judge(&rt, &PART);
}
