//! Journals of the smallest run, whole and with a line changed, worked out by hand.
ghost use Rattle.std.specs.Prelude.{◌<◌, ◌^◌, length};

use crate::given::{Judged, judge};
use sd_audit::{AuditFault, audit};
use sd_types::{CpuId, Work};
use std::alloc::Global;

pub(crate) const WORK: &[u8] = b"limit 5\nthread a ts 29 0 0\nscript a\nrun 3\nend\n";

const JOURNAL: &str =
    "0 c0 dispatch a 29\n1 c0 tick a\n2 c0 tick a\n3 c0 tick a\n4 c0 done a\n5 c0 idle\n6 c0 idle\naccounts\nthread a ticks 3 dispatches 1 preempts 0 wakes 0 ended\ncpu 0 ticks 5 idle 2\n";

const OTHER_EVENT: &str =
    "0 c0 dispatch a 29\n1 c0 tick a\n2 c0 tick a\n3 c0 tick a\n4 c0 tick a\n5 c0 idle\n6 c0 idle\naccounts\nthread a ticks 3 dispatches 1 preempts 0 wakes 0 ended\ncpu 0 ticks 5 idle 2\n";

const OTHER_NUMBER: &str = "0 c0 dispatch a 29\n2 c0 tick a\n";

const NO_LAST_ENTRY: &str =
    "0 c0 dispatch a 29\n1 c0 tick a\n2 c0 tick a\n3 c0 tick a\n4 c0 done a\n5 c0 idle\naccounts\nthread a ticks 3 dispatches 1 preempts 0 wakes 0 ended\ncpu 0 ticks 5 idle 2\n";

const OTHER_COUNT: &str =
    "0 c0 dispatch a 29\n1 c0 tick a\n2 c0 tick a\n3 c0 tick a\n4 c0 done a\n5 c0 idle\n6 c0 idle\naccounts\nthread a ticks 4 dispatches 1 preempts 0 wakes 0 ended\ncpu 0 ticks 5 idle 2\n";

const NO_ENTRY: &str = "0 c0 dispatch b 29\n1 c0 tick a\naccounts\n";

const NO_ACCOUNTS: &str = "0 c0 dispatch a 29\n1 c0 tick a";

const TOO_MUCH: &str =
    "0 c0 dispatch a 29\n1 c0 tick a\n2 c0 tick a\n3 c0 tick a\n4 c0 done a\n5 c0 idle\n6 c0 idle\naccounts\nthread a ticks 3 dispatches 1 preempts 0 wakes 0 ended\ncpu 0 ticks 5 idle 2\n\n";

const TOO_LITTLE: &str =
    "0 c0 dispatch a 29\n1 c0 tick a\n2 c0 tick a\n3 c0 tick a\n4 c0 done a\n5 c0 idle\n6 c0 idle\naccounts\nthread a ticks 3 dispatches 1 preempts 0 wakes 0 ended\n";

const NO_NEWLINE: &str =
    "0 c0 dispatch a 29\n1 c0 tick a\n2 c0 tick a\n3 c0 tick a\n4 c0 done a\n5 c0 idle\n6 c0 idle\naccounts";

/// A text that is no journal of the run, and what is at fault.
#[derive(Clone, Copy)]
struct Faulty {
    text: &'static str,
    fault: AuditFault,
}

const REFUSED: [Faulty; 9] = [
    Faulty {
        text: OTHER_EVENT,
        fault: AuditFault::Illegal { number: 4 },
    },
    Faulty {
        text: OTHER_NUMBER,
        fault: AuditFault::Illegal { number: 1 },
    },
    Faulty {
        text: NO_LAST_ENTRY,
        fault: AuditFault::Incomplete { cpu: CpuId(0) },
    },
    Faulty {
        text: OTHER_COUNT,
        fault: AuditFault::Tail { line: 9 },
    },
    Faulty {
        text: NO_ENTRY,
        fault: AuditFault::NotAnEntry { line: 1 },
    },
    Faulty {
        text: NO_ACCOUNTS,
        fault: AuditFault::NotAnEntry { line: 3 },
    },
    Faulty {
        text: TOO_MUCH,
        fault: AuditFault::Tail { line: 11 },
    },
    Faulty {
        text: TOO_LITTLE,
        fault: AuditFault::Tail { line: 10 },
    },
    Faulty {
        text: NO_NEWLINE,
        fault: AuditFault::Tail { line: 8 },
    },
];

/// The number of entries of the complete run of which the text is the journal, or what is at fault.
fn verdict(alloc: Global, work: &Work, text: &[u8]) -> Result<u64, AuditFault>
    requires { length text.now < 2 ^ 31 }
{
    match audit(alloc, work, text) {
        Ok((_, count)) => Ok(count),
        Err(fault) => Err(fault),
    }
}

/// The text is the journal of a complete run of so many entries.
fn is_legal(alloc: Global, work: &Work, text: &[u8], count: u64) -> bool {
    text.len() < 1000 && matches!(verdict(alloc, work, text), Ok(number) if number == count)
}

/// The text is none, and this is at fault.
fn is_refused(alloc: Global, work: &Work, text: &[u8], fault: AuditFault) -> bool {
    text.len() < 1000 && matches!(verdict(alloc, work, text), Err(found) if found == fault)
}

/// The first text that is judged otherwise.
pub(crate) fn wrong_verdict(alloc: Global, work: &Work) -> Option<&'static str> {
    if !is_legal(alloc, work, JOURNAL.as_bytes(), 7) {
        return Some(JOURNAL);
    }
    for row in &REFUSED {
        if !is_refused(alloc, work, row.text.as_bytes(), row.fault) {
            return Some(row.text);
        }
    }
    None
}

#[test]
fn journals_judged(rt: HostRuntime) {
    judge(&rt, Judged::Journals);
}
