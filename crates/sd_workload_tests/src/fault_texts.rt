//! The words of a refusal as the error types derive them, which no clause sees: those of `docs/WORKLOADS.md`, but for a wait without its
//! `enter`, which no text spells. The faults of tables, and of reads and writes, have theirs in `tables.rt` and `streams.rt`.

use crate::judging::{is_so, judge};
use sd_dispadmin::TableFault;
use sd_script::ScriptFault;
use sd_workload::{WorkCause, WorkFault};
use std::alloc::{AllocError, Global};

/// Each cause of a refusal, and the words of a fault of line 7 that has it.
const CAUSES: [(WorkCause, &str); 16] = [
    (WorkCause::Syntax, "line 7: syntax"),
    (WorkCause::Unknown, "line 7: unknown"),
    (WorkCause::Twice, "line 7: twice"),
    (WorkCause::Range, "line 7: range"),
    (
        WorkCause::Table(TableFault::NotANumber { line: 1 }),
        "line 7: table: not a number",
    ),
    (
        WorkCause::Table(TableFault::Range { line: 1, column: 3 }),
        "line 7: table: range in column 3",
    ),
    (
        WorkCause::Table(TableFault::Rows { found: 61 }),
        "line 7: table: rows: 61",
    ),
    (
        WorkCause::Table(TableFault::Resolution { line: 1 }),
        "line 7: table: resolution",
    ),
    (
        WorkCause::Script(ScriptFault::Unbalanced { op: 1 }),
        "line 7: script: unbalanced",
    ),
    (
        WorkCause::Script(ScriptFault::TooManyHeld { op: 1 }),
        "line 7: script: too many held",
    ),
    (
        WorkCause::Script(ScriptFault::HeldAtExit),
        "line 7: script: held at exit",
    ),
    (
        WorkCause::Script(ScriptFault::TooLong),
        "line 7: script: too long",
    ),
    (
        WorkCause::Script(ScriptFault::AlreadyHeld { op: 1 }),
        "line 7: script: already held",
    ),
    (
        WorkCause::Script(ScriptFault::Unpaired { op: 1 }),
        "line 7: script: unpaired",
    ),
    (WorkCause::Sets, "line 7: sets"),
    (WorkCause::Limits, "line 7: limits"),
];

fn has_cause(alloc: Global, cause: WorkCause, text: &str) -> Result<bool, AllocError> {
    let fault = WorkFault::At { line: 7, cause };
    Ok(format!(in alloc; "{fault}")?.as_str() == text)
}

/// The first cause that has other words.
fn wrong_cause(alloc: Global) -> Result<Option<usize>, AllocError> {
    for (index, row) in CAUSES.iter().enumerate() {
        let (cause, text) = *row;
        if !has_cause(alloc, cause, text)? {
            return Ok(Some(index));
        }
    }
    Ok(None)
}

fn memory_has_words(alloc: Global) -> Result<bool, AllocError> {
    let fault = WorkFault::Memory { line: 7 };
    Ok(format!(in alloc; "{fault}")?.as_str() == "out of memory")
}

#[test]
fn causes_have_their_words(rt: HostRuntime) {
    judge(&rt, wrong_cause(rt.alloc()));
    is_so(&rt, memory_has_words(rt.alloc()));
}
