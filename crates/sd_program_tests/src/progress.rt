//! What is shown of a search that goes on, on a sink of its own. A processor without threads has one turn in each state, which leads to the
//! next one. So each state but the first has been found by as many turns as it has states before it, and behind 50,000 states that were
//! expanded 50,001 are found.

use crate::judging::judge;
use crate::streams::{Streams, holds, plain, sink_of, streams_of, words_of};
use sd_find::{Progress, find};
use sd_text::MemorySink;
use std::alloc::{AllocError, Global};

/// A search: its arguments, its workload, and which writes of the progress fail; and what it is to write and to show.
type Row = (
    &'static str,
    &'static str,
    &'static [u64],
    &'static str,
    &'static str,
);

const SEARCHES: [Row; 6] = [
    ("stuck", "limit 49999\n", &[], "never\nstates 50000\n", ""),
    (
        "stuck",
        "limit 50000\n",
        &[],
        "never\nstates 50001\n",
        "states 50001 depth 50000\n",
    ),
    (
        "stuck --quiet",
        "limit 50000\n",
        &[],
        "never\nstates 50001\n",
        "",
    ),
    (
        "stuck",
        "limit 100000\n",
        &[],
        "never\nstates 100001\n",
        "states 50001 depth 50000\nstates 100001 depth 100000\n",
    ),
    (
        "stuck",
        "limit 100000\n",
        &[1],
        "never\nstates 100001\n",
        "states 100001 depth 100000\n",
    ),
    (
        "stuck --most 60000 --quiet",
        "limit 50000\n",
        &[],
        "never\nstates 50001\n",
        "",
    ),
];

fn status_over(
    alloc: Global,
    arguments: &[String],
    streams: &mut Streams,
    progress: &mut Progress<MemorySink>,
) -> u8 {
    let Streams { input, out, err } = streams;
    find(alloc, arguments, input, out, err, progress)
}

fn has_shown(progress: &Progress<MemorySink>, lines: &str) -> bool {
    match progress.sink() {
        Some(sink) => sink.bytes() == lines.as_bytes(),
        None => false,
    }
}

/// The search writes and shows what it is to.
fn is_shown_over(
    alloc: Global,
    row: &Row,
    streams: &mut Streams,
    progress: &mut Progress<MemorySink>,
) -> Result<bool, AllocError> {
    let (words, _, _, out, lines) = *row;
    let arguments = words_of(alloc, words)?;
    let status = status_over(alloc, &arguments, streams, progress);
    Ok(status == 10 && holds(streams, out.as_bytes(), b"") && has_shown(progress, lines))
}

fn is_shown(alloc: Global, row: &Row) -> Result<bool, AllocError> {
    let mut streams = streams_of(alloc, plain(row.1.as_bytes(), 7))?;
    let sink = sink_of(alloc, 4096, row.2)?;
    let mut progress = Progress::new(alloc, Some(sink));
    is_shown_over(alloc, row, &mut streams, &mut progress)
}

/// The first search that writes or shows something else.
fn wrong_search(alloc: Global) -> Result<Option<usize>, AllocError> {
    for (index, row) in SEARCHES.iter().enumerate() {
        if !is_shown(alloc, row)? {
            return Ok(Some(index));
        }
    }
    Ok(None)
}

#[test]
fn progress_is_shown(rt: HostRuntime) {
    judge(&rt, wrong_search(rt.alloc()));
}
