//! The three programs from their start: the status, the output and the error output that the arguments of each kind are answered
//! with, as one table. The journals and the ticks were worked out by hand.

use crate::judging::judge;
use crate::runs::{SMALLEST, SMALLEST_JOURNAL, USAGE, start_over};
use crate::streams::{Streams, holds, plain, streams_of, words_of};
use sd_find::Progress;
use sd_text::MemorySink;
use std::alloc::{AllocError, Global};
use std::io;
use std::io::ErrorKind;
use std::marker::Sync;
use std::sync::Wait;
use std::thread::Threads;

const VIEW_USAGE: &str =
    "usage: dispview timeline [FROM TO] | trace | list [FROM TO] | list NAME | report [--csv | --jobs] | --help\n";

const VIEW_HELP: &str =
    "dispview reads a workload or a task set, the line journal, and a journal, and judges it:\n(cat W; echo journal; dispsim run < W) | dispview FORM\ntimeline          the run as a picture (SVG)\ntimeline FROM TO  the ticks from FROM to TO of it\ntrace             the run for chrome://tracing and Perfetto (JSON)\nlist              each entry with a sentence on it\nlist FROM TO      those of the ticks from FROM to TO\nlist NAME         those that name the thread NAME\nreport            statistics of threads, tasks, locks and processors\nreport --csv      the same for a spreadsheet (CSV)\nreport --jobs     each job of each task\n--help            these lines\n";

const FIND_USAGE: &str =
    "usage: dispfind (blocked | stuck | states | ends NAME | waits NAME) [--most N] [--quiet] | --help\n";

const FIND_HELP: &str =
    "dispfind reads a workload or a task set, and searches every order in which its processors can act:\ndispfind FORM [--most N] [--quiet] < W\nblocked    a run at whose end threads block each other in a circle\nstuck      a run at whose end a thread that has operations left has not ended\nstates     how many states there are, and in how many of them runs end\nends NAME  at which tick thread NAME ends at the earliest and at the latest\nwaits NAME how many ticks thread NAME waits at most from a wakeup to its running\n--most N   ends with N states; 1000000 where it is not given\n--quiet    no lines of progress on the error output of a terminal\n--help     these lines\nExit status: 9 found, its journal behind the line states; 10 never; 11 not all searched\n(cat W; echo journal; dispfind FORM < W | sed '1,/^states /d') | dispsim audit\nOf ends two journals stand behind the lines earliest and latest\n";

const FIND_ENDS: &str =
    "found\nthread a ends in every run\nstates 8\nearliest 3\n0 c0 dispatch a 29\n1 c0 tick a\n2 c0 tick a\n3 c0 tick a\n4 c0 done a\n5 c0 idle\n6 c0 idle\naccounts\nthread a ticks 3 dispatches 1 preempts 0 wakes 0 ended\ncpu 0 ticks 5 idle 2\nlatest 3\n0 c0 dispatch a 29\n1 c0 tick a\n2 c0 tick a\n3 c0 tick a\n4 c0 done a\n5 c0 idle\n6 c0 idle\naccounts\nthread a ticks 3 dispatches 1 preempts 0 wakes 0 ended\ncpu 0 ticks 5 idle 2\n";

/// A thread is woken two ticks before it runs again.
const WOKEN: &str =
    "limit 3\nchan k\nthread a fx 60 20 inf\nthread b fx 60 20 inf\nscript a\nsleep k\nend\nscript b\nwake k\nrun 2\nend\n";

const FIND_WAITS: &str =
    "found\nlongest 2\nstates 11\n0 c0 dispatch a 20\n1 c0 sleep a k\n2 c0 dispatch b 20\n3 c0 wake b k a to c0\n4 c0 tick b\n5 c0 tick b\n6 c0 done b\n7 c0 dispatch a 20\n8 c0 done a\n9 c0 idle\naccounts\nthread a ticks 0 dispatches 2 preempts 0 wakes 1 ended\nthread b ticks 2 dispatches 1 preempts 0 wakes 0 ended\ncpu 0 ticks 3 idle 1\n";

/// A task set that expands to a workload with the journal of the smallest one: the thread runs a tick three times.
const SMALLEST_SET: &str = "limit 5\nthread a ts 29 0 0\nscript a\nrepeat 3\nrun 1\nend\nend\n";

/// A set whose second round takes a mutex again: the fault is told at the operation.
const FAULTY_SET: &str =
    "limit 5\nmutex m\nthread a ts 29 0 0\nscript a\nrepeat 2\nenter m\nend\nend\njournal\n";

/// The set, and the journal of its expansion.
const JUDGED_SET: &str =
    "limit 5\nthread a ts 29 0 0\nscript a\nrepeat 3\nrun 1\nend\nend\njournal\n0 c0 dispatch a 29\n1 c0 tick a\n2 c0 tick a\n3 c0 tick a\n4 c0 done a\n5 c0 idle\n6 c0 idle\naccounts\nthread a ticks 3 dispatches 1 preempts 0 wakes 0 ended\ncpu 0 ticks 5 idle 2\n";

/// The set, and a journal whose first entry the expansion does not make.
const MISJUDGED_SET: &str =
    "limit 5\nthread a ts 29 0 0\nscript a\nrepeat 3\nrun 1\nend\nend\njournal\n0 c0 idle\n";

#[derive(Clone, Copy)]
enum Program {
    Dispsim,
    Dispview,
    Dispfind,
}

/// A call of a program: its arguments, and its input; and what it is to answer: the status, the output and the error output. Arguments
/// that no words spell could not be read as text.
type Row = (
    Program,
    Option<&'static str>,
    &'static str,
    u8,
    &'static str,
    &'static str,
);

fn arguments(alloc: Global, words: Option<&str>) -> io::Result<Vec<String>> {
    match words {
        Some(words) => Ok(words_of(alloc, words)?),
        None => Err(io::Error::from(ErrorKind::InvalidData)),
    }
}

fn view_over(alloc: Global, arguments: io::Result<Vec<String>>, streams: &mut Streams) -> u8 {
    let Streams { input, out, err } = streams;
    sd_viewer::start(alloc, arguments, input, out, err)
}

fn find_over(alloc: Global, arguments: io::Result<Vec<String>>, streams: &mut Streams) -> u8 {
    let Streams { input, out, err } = streams;
    let mut progress: Progress<MemorySink> = Progress::new(alloc, None);
    sd_find::start(alloc, arguments, input, out, err, &mut progress)
}

/// The status of a start of the program.
fn status_over<R: Threads + Wait + Sync + AllocGlobal>(
    rt: &R,
    program: Program,
    arguments: io::Result<Vec<String>>,
    streams: &mut Streams,
) -> u8 {
    match program {
        Program::Dispsim => start_over(rt, arguments, streams),
        Program::Dispview => view_over(rt.alloc(), arguments, streams),
        Program::Dispfind => find_over(rt.alloc(), arguments, streams),
    }
}

/// The call over these streams answers as it is to.
fn is_answered_over<R: Threads + Wait + Sync + AllocGlobal>(
    rt: &R,
    row: &Row,
    streams: &mut Streams,
) -> bool {
    let (program, words, _, status, out, err) = *row;
    let found = status_over(rt, program, arguments(rt.alloc(), words), streams);
    found == status && holds(streams, out.as_bytes(), err.as_bytes())
}

/// The call answers as it is to.
fn is_answered<R: Threads + Wait + Sync + AllocGlobal>(
    rt: &R,
    row: &Row,
) -> Result<bool, AllocError> {
    let mut streams = streams_of(rt.alloc(), plain(row.2.as_bytes(), 7))?;
    Ok(is_answered_over(rt, row, &mut streams))
}

/// The same streams, with an output that takes every line and whose flush fails.
fn failing_to_flush(streams: Streams) -> Streams {
    let Streams { input, out, err } = streams;
    Streams {
        input,
        out: out.failing_to_flush(),
        err,
    }
}

/// The call answers as it is to, where the flush of its output fails.
fn is_answered_without_flush<R: Threads + Wait + Sync + AllocGlobal>(
    rt: &R,
    row: &Row,
) -> Result<bool, AllocError> {
    let streams = streams_of(rt.alloc(), plain(row.2.as_bytes(), 7))?;
    Ok(is_answered_over(rt, row, &mut failing_to_flush(streams)))
}

const CALLS: [Row; 20] = [
    (
        Program::Dispsim,
        Some("run"),
        SMALLEST,
        0,
        SMALLEST_JOURNAL,
        "",
    ),
    (
        Program::Dispsim,
        Some("run --seed 7 more"),
        SMALLEST,
        1,
        "",
        USAGE,
    ),
    (
        Program::Dispsim,
        Some("run"),
        "limit 0\n",
        2,
        "",
        "refused: line 1: range\n",
    ),
    (Program::Dispsim, None, SMALLEST, 1, "", USAGE),
    (Program::Dispview, Some("--help"), "", 0, VIEW_HELP, ""),
    (
        Program::Dispview,
        Some("timeline 0 5 more"),
        "",
        1,
        "",
        VIEW_USAGE,
    ),
    (
        Program::Dispview,
        Some("timeline"),
        "limit 5\n",
        2,
        "",
        "refused: no journal\n",
    ),
    (Program::Dispview, None, "", 1, "", VIEW_USAGE),
    (
        Program::Dispview,
        Some("list b"),
        JUDGED_SET,
        0,
        "tick    entry                         what happens\n",
        "list: no thread has this name\n",
    ),
    (
        Program::Dispview,
        Some("trace"),
        MISJUDGED_SET,
        7,
        "",
        "journal: entry 0: illegal\n",
    ),
    (
        Program::Dispview,
        Some("report"),
        FAULTY_SET,
        2,
        "",
        "refused: line 6: script: already held\n",
    ),
    (Program::Dispfind, Some("--help"), "", 0, FIND_HELP, ""),
    (
        Program::Dispfind,
        Some("ends a"),
        SMALLEST,
        9,
        FIND_ENDS,
        "",
    ),
    (
        Program::Dispfind,
        Some("ends a"),
        SMALLEST_SET,
        9,
        FIND_ENDS,
        "",
    ),
    (
        Program::Dispfind,
        Some("states"),
        FAULTY_SET,
        2,
        "",
        "refused: line 6: script: already held\n",
    ),
    (Program::Dispfind, Some("waits a"), WOKEN, 9, FIND_WAITS, ""),
    (
        Program::Dispfind,
        Some("stuck"),
        SMALLEST,
        10,
        "never\nstates 8\n",
        "",
    ),
    (
        Program::Dispfind,
        Some("states --most 100 more"),
        "",
        1,
        "",
        FIND_USAGE,
    ),
    (
        Program::Dispfind,
        Some("blocked"),
        "limit 5\nthread a xx 29 0 0\n",
        2,
        "",
        "refused: line 2: syntax\n",
    ),
    (Program::Dispfind, None, "", 1, "", FIND_USAGE),
];

/// The first call that is answered otherwise.
fn wrong_call<R: Threads + Wait + Sync + AllocGlobal>(rt: &R) -> Result<Option<usize>, AllocError> {
    for (index, row) in CALLS.iter().enumerate() {
        if !is_answered(rt, row)? {
            return Ok(Some(index));
        }
    }
    Ok(None)
}

#[test]
fn calls_of_each_program(rt: HostRuntime) {
    judge(&rt, wrong_call(&rt));
}

/// Where the flush fails a call that printed ends with a write fault, and one that printed nothing as it does otherwise.
const FLUSHES: [Row; 6] = [
    (
        Program::Dispsim,
        Some("run"),
        SMALLEST,
        4,
        SMALLEST_JOURNAL,
        "write fault\n",
    ),
    (
        Program::Dispsim,
        Some("run"),
        "limit 0\n",
        2,
        "",
        "refused: line 1: range\n",
    ),
    (
        Program::Dispview,
        Some("--help"),
        "",
        4,
        VIEW_HELP,
        "write fault\n",
    ),
    (
        Program::Dispview,
        Some("timeline"),
        "limit 5\n",
        2,
        "",
        "refused: no journal\n",
    ),
    (
        Program::Dispfind,
        Some("stuck"),
        SMALLEST,
        4,
        "never\nstates 8\n",
        "write fault\n",
    ),
    (Program::Dispfind, None, "", 1, "", FIND_USAGE),
];

/// The first call that is answered otherwise where the flush fails.
fn wrong_flush<R: Threads + Wait + Sync + AllocGlobal>(
    rt: &R,
) -> Result<Option<usize>, AllocError> {
    for (index, row) in FLUSHES.iter().enumerate() {
        if !is_answered_without_flush(rt, row)? {
            return Ok(Some(index));
        }
    }
    Ok(None)
}

#[test]
fn each_program_flushes(rt: HostRuntime) {
    judge(&rt, wrong_flush(&rt));
}
