//! How many entries a run has at most.

use crate::searches::{Asked, Row, Seen, Wanted, judge};

/// A thread that runs for three ticks: a dispatch, three ticks, its end, and seven ticks without it.
const ALONE: &[u8] = b"limit 10\nthread a sys 60\nscript a\nrun 3\nend\n";

/// Two processors that idle for two ticks each, in whatever order.
const IDLE: &[u8] = b"cpus 2\nlimit 2\n";

const MOST_ENTRIES: [Row; 3] = [
    (
        ALONE,
        1000,
        Asked::Longest,
        Wanted::This(Seen::Longest(Some(12))),
    ),
    (
        IDLE,
        1000,
        Asked::Longest,
        Wanted::This(Seen::Longest(Some(4))),
    ),
    (ALONE, 5, Asked::Longest, Wanted::This(Seen::Longest(None))),
];

#[test]
fn runs_have_so_many_entries_at_most(rt: HostRuntime) {
    judge(&rt, &MOST_ENTRIES);
}
