//! Worked runs, and streams that fail. Each expected text was worked out by hand from the rules of the machine.

use crate::judging::{is_so, judge};
use crate::streams::{
    Given, Program, Streams, Wanted, answers, holds, plain, streams_of, words_of,
};
use sd_log::EntryLog;
use sd_program::{OpenGate, start};
use sd_replay::replay;
use sd_rounds::{RoundOrder, run_rounds};
use sd_text::{MemorySource, read_all};
use sd_types::{Entry, Work};
use sd_workload::read_work;
use std::alloc::{AllocError, Global};
use std::io;
use std::io::ErrorKind;
use std::marker::Sync;
use std::sync::Wait;
use std::thread::Threads;

pub(crate) const SMALLEST: &str = "limit 5\nthread a ts 29 0 0\nscript a\nrun 3\nend\n";

pub(crate) const SMALLEST_JOURNAL: &str =
    "0 c0 dispatch a 29\n1 c0 tick a\n2 c0 tick a\n3 c0 tick a\n4 c0 done a\n5 c0 idle\n6 c0 idle\naccounts\nthread a ticks 3 dispatches 1 preempts 0 wakes 0 ended\ncpu 0 ticks 5 idle 2\n";

/// The smallest workload and its journal, as `audit` reads them.
pub(crate) const CERTIFICATE: &str =
    "limit 5\nthread a ts 29 0 0\nscript a\nrun 3\nend\njournal\n0 c0 dispatch a 29\n1 c0 tick a\n2 c0 tick a\n3 c0 tick a\n4 c0 done a\n5 c0 idle\n6 c0 idle\naccounts\nthread a ticks 3 dispatches 1 preempts 0 wakes 0 ended\ncpu 0 ticks 5 idle 2\n";

const EXPIRY: &str =
    "limit 22\nthread a ts 0 0 0\nthread b ts 0 0 0\nscript a\nrun 20\nend\nscript b\nrun 1\nend\n";

/// Three mutexes in a chain of owners: the greatest priority passes along all of it.
const CHAIN_OF_THREE: &str =
    "limit 5\nmutex m0\nmutex m1\nmutex m2\nthread a fx 60 10 inf\nthread b fx 60 20 inf\nthread d fx 60 30 inf\nthread r rt 10 inf\nscript a\nenter m2\nnap 3\nrun 2\nexit m2\nend\nscript b\nnap 1\nenter m1\nenter m2\nexit m2\nexit m1\nend\nscript d\nnap 2\nenter m0\nenter m1\nexit m1\nexit m0\nend\nscript r\nnap 4\nenter m0\nexit m0\nend\n";

const CHAIN_OF_THREE_JOURNAL: &str =
    "0 c0 dispatch r 110\n1 c0 nap r\n2 c0 dispatch d 30\n3 c0 nap d\n4 c0 dispatch b 20\n5 c0 nap b\n6 c0 dispatch a 10\n7 c0 enter a m2\n8 c0 nap a\n9 c0 idle\n10 c0 napend b to c0\n11 c0 dispatch b 20\n12 c0 enter b m1\n13 c0 block b m2\n14 c0 will m2 a 20\n15 c0 idle\n16 c0 napend d to c0\n17 c0 dispatch d 30\n18 c0 enter d m0\n19 c0 block d m1\n20 c0 will m1 b 30\n21 c0 will m2 a 30\n22 c0 idle\n23 c0 napend a to c0\n24 c0 dispatch a 30\n25 c0 tick a\n26 c0 napend r rt c0\n27 c0 preempt a front\n28 c0 dispatch r 110\n29 c0 block r m0\n30 c0 will m0 d 110\n31 c0 will m1 b 110\n32 c0 will m2 a 110 rt c0\n33 c0 dispatch a 110\n34 c0 tick a\n35 c0 exit a m2\n36 c0 unblock m2 b rt c0\n37 c0 preempt a front\n38 c0 dispatch b 110\n39 c0 enter b m2\n40 c0 exit b m2\n41 c0 exit b m1\n42 c0 unblock m1 d rt c0\n43 c0 preempt b front\n44 c0 dispatch d 110\n45 c0 enter d m1\n46 c0 exit d m1\n47 c0 exit d m0\n48 c0 unblock m0 r rt c0\n49 c0 preempt d front\n50 c0 dispatch r 110\n51 c0 enter r m0\n52 c0 exit r m0\n53 c0 done r\n54 c0 dispatch d 30\n55 c0 done d\n56 c0 dispatch b 20\n57 c0 done b\n58 c0 dispatch a 10\n59 c0 done a\naccounts\nthread a ticks 2 dispatches 4 preempts 2 wakes 1 ended\nthread b ticks 0 dispatches 4 preempts 1 wakes 2 ended\nthread d ticks 0 dispatches 4 preempts 1 wakes 2 ended\nthread r ticks 0 dispatches 3 preempts 0 wakes 2 ended\ncpu 0 ticks 5 idle 3\n";

/// A waiter whose own priority falls: what the owner had inherited from it falls too.
const WALK_DOWNWARDS: &str =
    "limit 2\nmutex m\nthread a fx 60 10 inf\nthread b fx 60 30 inf\nthread x fx 60 5 inf priv\nscript a\nenter m\nnap 2\nexit m\nend\nscript b\nnap 1\nenter m\nexit m\nend\nscript x\nnap 1\npriocntl b fx 60 3 inf\nend\n";

const WALK_DOWNWARDS_JOURNAL: &str =
    "0 c0 dispatch b 30\n1 c0 nap b\n2 c0 dispatch a 10\n3 c0 enter a m\n4 c0 nap a\n5 c0 dispatch x 5\n6 c0 nap x\n7 c0 idle\n8 c0 napend b to c0\n9 c0 napend x to c0\n10 c0 dispatch b 30\n11 c0 block b m\n12 c0 will m a 30\n13 c0 dispatch x 5\n14 c0 prio x b ok 3\n15 c0 will m a 10\n16 c0 done x\n17 c0 idle\n18 c0 napend a to c0\n19 c0 dispatch a 10\n20 c0 exit a m\n21 c0 unblock m b to c0\n22 c0 done a\n23 c0 dispatch b 3\n24 c0 enter b m\n25 c0 exit b m\n26 c0 done b\naccounts\nthread a ticks 0 dispatches 2 preempts 0 wakes 1 ended\nthread b ticks 0 dispatches 3 preempts 0 wakes 2 ended\nthread x ticks 0 dispatches 2 preempts 0 wakes 1 ended\ncpu 0 ticks 2 idle 2\n";

/// A reader that waits behind a writer, though other readers hold the lock.
const READER_BEHIND_WRITER: &str =
    "limit 3\nrwlock w\nthread a fx 60 10 inf\nthread v fx 60 30 inf\nthread q fx 60 20 inf\nscript a\nread w\nnap 2\nexit w\nend\nscript v\nnap 1\nwrite w\nexit w\nend\nscript q\nnap 1\nread w\nexit w\nend\n";

const READER_BEHIND_WRITER_JOURNAL: &str =
    "0 c0 dispatch v 30\n1 c0 nap v\n2 c0 dispatch q 20\n3 c0 nap q\n4 c0 dispatch a 10\n5 c0 read a w\n6 c0 nap a\n7 c0 idle\n8 c0 napend v to c0\n9 c0 napend q to c0\n10 c0 dispatch v 30\n11 c0 block v w\n12 c0 end w\n13 c0 dispatch q 20\n14 c0 block q w\n15 c0 end w\n16 c0 idle\n17 c0 napend a to c0\n18 c0 dispatch a 10\n19 c0 exit a w\n20 c0 grant w v to c0\n21 c0 preempt a front\n22 c0 dispatch v 30\n23 c0 exit v w\n24 c0 grant w q to c0\n25 c0 passed w\n26 c0 done v\n27 c0 dispatch q 20\n28 c0 exit q w\n29 c0 done q\n30 c0 dispatch a 10\n31 c0 done a\n32 c0 idle\naccounts\nthread a ticks 0 dispatches 3 preempts 1 wakes 1 ended\nthread v ticks 0 dispatches 3 preempts 0 wakes 2 ended\nthread q ticks 0 dispatches 3 preempts 0 wakes 2 ended\ncpu 0 ticks 3 idle 3\n";

/// A broadcast that wakes the sleepers one after another.
const BROADCAST: &str =
    "limit 1\nchan k\nthread a fx 60 20 inf\nthread b fx 60 20 inf\nthread d fx 60 10 inf\nscript a\nsleep k\nend\nscript b\nsleep k\nend\nscript d\nwakeall k\nend\n";

const BROADCAST_JOURNAL: &str =
    "0 c0 dispatch a 20\n1 c0 sleep a k\n2 c0 dispatch b 20\n3 c0 sleep b k\n4 c0 dispatch d 10\n5 c0 wakeall d k\n6 c0 rouse k a to c0\n7 c0 rouse k b to c0\n8 c0 preempt d front\n9 c0 dispatch a 20\n10 c0 done a\n11 c0 dispatch b 20\n12 c0 done b\n13 c0 dispatch d 10\n14 c0 done d\n15 c0 idle\naccounts\nthread a ticks 0 dispatches 2 preempts 0 wakes 1 ended\nthread b ticks 0 dispatches 2 preempts 0 wakes 1 ended\nthread d ticks 0 dispatches 2 preempts 1 wakes 0 ended\ncpu 0 ticks 1 idle 1\n";

/// A thread that is bound to a processor, and goes there.
const BOUND: &str =
    "cpus 2\nlimit 1\nthread x fx 60 30 inf priv\nthread a fx 60 20 inf\nscript x\npbind a 0\nend\nscript a\nrun 1\nend\n";

const BOUND_JOURNAL: &str =
    "0 c0 dispatch x 30\n1 c1 dispatch a 20\n2 c0 pbind x a c0 ok\n3 c1 preempt a away c0\n4 c0 done x\n5 c1 idle h 0\n6 c0 dispatch a 20\n7 c0 tick a\n8 c0 done a\naccounts\nthread x ticks 0 dispatches 1 preempts 0 wakes 0 ended\nthread a ticks 1 dispatches 2 preempts 1 wakes 0 ended\ncpu 0 ticks 1 idle 0\ncpu 1 ticks 1 idle 1\n";

/// A wakeup of a channel on which nobody sleeps.
const NOBODY_ASLEEP: &str =
    "limit 1\nchan k\nthread a fx 60 20 inf\nthread b fx 60 10 inf\nscript a\nwake k\nend\nscript b\nsleep k\nend\n";

const NOBODY_ASLEEP_JOURNAL: &str =
    "0 c0 dispatch a 20\n1 c0 wake a k none\n2 c0 done a\n3 c0 dispatch b 10\n4 c0 sleep b k\n5 c0 idle\naccounts\nthread a ticks 0 dispatches 1 preempts 0 wakes 0 ended\nthread b ticks 0 dispatches 1 preempts 0 wakes 0 asleep k\ncpu 0 ticks 1 idle 1\n";

/// A thread spins for a mutex, and then blocks.
pub(crate) const SPINNING: &str =
    "cpus 2\nlimit 4\nmutex m\nthread a fx 60 10 inf\nthread b fx 60 20 inf\nscript a\nenter m\nrun 2\nnap 1\nexit m\nend\nscript b\nenter m\nexit m\nend\n";

/// A thread yields to another.
pub(crate) const YIELD: &str =
    "limit 2\nthread a fx 60 10 inf\nthread b fx 60 10 inf\nscript a\nyield\nrun 1\nend\nscript b\nrun 1\nend\n";

/// The run of the workload ends well, and prints this journal.
fn is_run<R: Threads + Wait + Sync + AllocGlobal>(
    rt: &R,
    input: &str,
    journal: &str,
) -> Result<bool, AllocError> {
    let wanted = Wanted::All {
        status: 0,
        out: journal.as_bytes(),
        err: b"",
    };
    let given = plain(input.as_bytes(), 7);
    answers(rt, Program::Dispsim, "run", given, wanted)
}

/// Workloads and the journals of their runs.
const WORKED: [(&str, &str); 10] = [
    (SMALLEST, SMALLEST_JOURNAL),
    (
        "limit 2\n",
        "0 c0 idle\n1 c0 idle\naccounts\ncpu 0 ticks 2 idle 2\n",
    ),
    (
        EXPIRY,
        "0 c0 dispatch a 0\n1 c0 tick a\n2 c0 tick a\n3 c0 tick a\n4 c0 tick a\n5 c0 tick a\n6 c0 tick a\n7 c0 tick a\n8 c0 tick a\n9 c0 tick a\n10 c0 tick a\n11 c0 tick a\n12 c0 tick a\n13 c0 tick a\n14 c0 tick a\n15 c0 tick a\n16 c0 tick a\n17 c0 tick a\n18 c0 tick a\n19 c0 tick a\n20 c0 tick a\n21 c0 preempt a back\n22 c0 dispatch b 0\n23 c0 tick b\n24 c0 done b\n25 c0 dispatch a 0\n26 c0 done a\n27 c0 idle\naccounts\nthread a ticks 20 dispatches 2 preempts 1 wakes 0 ended\nthread b ticks 1 dispatches 1 preempts 0 wakes 0 ended\ncpu 0 ticks 22 idle 1\n",
    ),
    (
        "limit 1\nthread a ts 5 0 -60\nscript a\nrun 1\nend\n",
        "0 c0 dispatch a 0\n1 c0 tick a\n2 c0 done a\naccounts\nthread a ticks 1 dispatches 1 preempts 0 wakes 0 ended\ncpu 0 ticks 1 idle 0\n",
    ),
    (CHAIN_OF_THREE, CHAIN_OF_THREE_JOURNAL),
    (WALK_DOWNWARDS, WALK_DOWNWARDS_JOURNAL),
    (READER_BEHIND_WRITER, READER_BEHIND_WRITER_JOURNAL),
    (BROADCAST, BROADCAST_JOURNAL),
    (BOUND, BOUND_JOURNAL),
    (NOBODY_ASLEEP, NOBODY_ASLEEP_JOURNAL),
];

/// The first run that is not so.
fn wrong_run<R: Threads + Wait + Sync + AllocGlobal>(rt: &R) -> Result<Option<usize>, AllocError> {
    for (index, row) in WORKED.iter().enumerate() {
        let (input, journal) = *row;
        if !is_run(rt, input, journal)? {
            return Ok(Some(index));
        }
    }
    Ok(None)
}

#[test]
fn worked_runs(rt: HostRuntime) {
    judge(&rt, wrong_run(&rt));
}

pub(crate) const USAGE: &str =
    "usage: dispsim run | run --seed N | run --threads | sum | gen N | tables | audit\n";

const SUMMARY: &str =
    "entries 7\nticks 5\nidle 2\ndispatches 1\nsteals 0\npreempts 0\nwakes 0\nblocks 0\nwills 0\nended 1\n";

/// Two threads of which each waits for the mutex that the other owns.
const CLOSED_CHAIN: &str =
    "limit 3\nmutex p\nmutex q\nthread a fx 60 10 inf\nthread b fx 60 10 inf\nthread d fx 60 5 inf\nscript a\nenter p\nnap 1\nenter q\nexit q\nexit p\nend\nscript b\nenter q\nnap 1\nenter p\nexit p\nexit q\nend\nscript d\nnap 2\nenter p\nexit p\nend\n";

const CLOSED_CHAIN_JOURNAL: &str =
    "0 c0 dispatch a 10\n1 c0 enter a p\n2 c0 nap a\n3 c0 dispatch b 10\n4 c0 enter b q\n5 c0 nap b\n6 c0 dispatch d 5\n7 c0 nap d\n8 c0 idle\n9 c0 napend a to c0\n10 c0 napend b to c0\n11 c0 dispatch a 10\n12 c0 block a q\n13 c0 will q b 10\n14 c0 dispatch b 10\n15 c0 block b p\n16 c0 will p a 10\n17 c0 will q b 10\n18 c0 idle\n19 c0 napend d to c0\n20 c0 dispatch d 5\n21 c0 block d p\n22 c0 will p a 10\n23 c0 will q b 10\n24 c0 idle\naccounts\nthread a ticks 0 dispatches 2 preempts 0 wakes 1 waiting q\nthread b ticks 0 dispatches 2 preempts 0 wakes 1 waiting p\nthread d ticks 0 dispatches 2 preempts 0 wakes 1 waiting p\ncpu 0 ticks 3 idle 3\ncycle a q b p\n";

/// A call: the arguments, the input, the reads that fail, the room of the output and the writes that fail; and what it is to
/// answer: the status, the output and the error output.
type Case = (
    &'static str,
    &'static str,
    &'static [u64],
    usize,
    &'static [u64],
    u8,
    &'static str,
    &'static str,
);

/// The call answers as it is to.
fn is_answered<R: Threads + Wait + Sync + AllocGlobal>(
    rt: &R,
    x: &Case,
) -> Result<bool, AllocError> {
    let (arguments, input, reads, room, writes, status, out, err) = *x;
    let given = Given {
        input: input.as_bytes(),
        chunk: 4,
        reads,
        room,
        writes,
        err_room: 200,
    };
    let wanted = Wanted::All {
        status,
        out: out.as_bytes(),
        err: err.as_bytes(),
    };
    answers(rt, Program::Dispsim, arguments, given, wanted)
}

const CASES: [Case; 22] = [
    ("", SMALLEST, &[], 4096, &[], 1, "", USAGE),
    ("run fast", SMALLEST, &[], 4096, &[], 1, "", USAGE),
    ("fast", SMALLEST, &[1], 4096, &[1], 1, "", USAGE),
    (
        "run",
        "",
        &[],
        4096,
        &[],
        2,
        "",
        "refused: line 1: syntax\n",
    ),
    (
        "run",
        "limit 100001\n",
        &[],
        4096,
        &[],
        2,
        "",
        "refused: line 1: range\n",
    ),
    (
        "tables",
        "limit 1\nthread a rt 60 def\n",
        &[],
        4096,
        &[],
        2,
        "",
        "refused: line 2: range\n",
    ),
    (
        "run --seed 7",
        SMALLEST,
        &[],
        4096,
        &[],
        0,
        SMALLEST_JOURNAL,
        "",
    ),
    ("sum", SMALLEST, &[], 4096, &[], 0, SUMMARY, ""),
    (
        "run",
        CLOSED_CHAIN,
        &[],
        4096,
        &[],
        6,
        CLOSED_CHAIN_JOURNAL,
        "blocking cycle\n",
    ),
    ("run", SMALLEST, &[2], 4096, &[], 3, "", "read fault\n"),
    // The read that fails is the one behind the last byte.
    ("run", SMALLEST, &[13], 4096, &[], 3, "", "read fault\n"),
    ("audit", CERTIFICATE, &[1], 4096, &[], 3, "", "read fault\n"),
    (
        "run",
        SMALLEST,
        &[],
        4096,
        &[2],
        4,
        "0 c0 dispatch a 29\n",
        "write fault\n",
    ),
    ("run", SMALLEST, &[], 5, &[], 4, "0 c0 ", "write fault\n"),
    ("audit", CERTIFICATE, &[], 4096, &[], 0, "legal 7\n", ""),
    (
        "audit",
        SMALLEST,
        &[],
        4096,
        &[],
        2,
        "",
        "refused: no journal\n",
    ),
    (
        "audit",
        "limit 100001\njournal\n",
        &[],
        4096,
        &[],
        2,
        "",
        "refused: line 1: range\n",
    ),
    (
        "audit",
        "limit 1\njournal\n",
        &[],
        4096,
        &[],
        7,
        "",
        "journal: line 1: not an entry\n",
    ),
    (
        "audit",
        "limit 1\njournal\n1 c0 idle\n",
        &[],
        4096,
        &[],
        7,
        "",
        "journal: entry 0: illegal\n",
    ),
    (
        "audit",
        "limit 1\njournal\naccounts\n",
        &[],
        4096,
        &[],
        7,
        "",
        "journal: incomplete: c0\n",
    ),
    (
        "audit",
        "limit 1\njournal\n0 c0 idle\naccounts\ncpu 0 ticks 1 idle 0\n",
        &[],
        4096,
        &[],
        7,
        "",
        "journal: line 3: accounts\n",
    ),
    (
        "audit",
        CERTIFICATE,
        &[],
        5,
        &[],
        4,
        "legal",
        "write fault\n",
    ),
];

/// The first call that is answered otherwise.
fn wrong_case<R: Threads + Wait + Sync + AllocGlobal>(rt: &R) -> Result<Option<usize>, AllocError> {
    for (index, case) in CASES.iter().enumerate() {
        if !is_answered(rt, case)? {
            return Ok(Some(index));
        }
    }
    Ok(None)
}

#[test]
fn refusals_and_failing_streams(rt: HostRuntime) {
    judge(&rt, wrong_case(&rt));
}

/// The error output has room for a prefix of its line, which changes no status.
fn is_too_large<R: Threads + Wait + Sync + AllocGlobal>(
    rt: &R,
    input: &[u8],
) -> Result<bool, AllocError> {
    let given = Given {
        input,
        chunk: 65_536,
        reads: &[],
        room: 16,
        writes: &[],
        err_room: 8,
    };
    let wanted = Wanted::All {
        status: 2,
        out: b"",
        err: b"refused:",
    };
    answers(rt, Program::Dispsim, "run", given, wanted)
}

fn is_refused<R: Threads + Wait + Sync + AllocGlobal>(rt: &R) -> Result<bool, AllocError> {
    let input = vec![in rt.alloc(); b'#'; 1_048_577]?;
    is_too_large(rt, &input)
}

#[test]
fn an_input_too_large(rt: HostRuntime) {
    is_so(&rt, is_refused(&rt));
}

/// The status of a start of `dispsim`.
pub(crate) fn start_over<R: Threads + Wait + Sync + AllocGlobal>(
    rt: &R,
    arguments: io::Result<Vec<String>>,
    streams: &mut Streams,
) -> u8 {
    let Streams { input, out, err } = streams;
    start(rt, rt.alloc(), arguments, input, out, err, &OpenGate)
}

/// Nothing was read of the smallest workload. False also where memory runs out.
fn is_all_left(alloc: Global, input: &mut MemorySource) -> bool {
    match read_all(alloc, input) {
        Ok(left) => left.as_slice() == SMALLEST.as_bytes(),
        Err(_) => false,
    }
}

/// Arguments that could not be read are answered so, and nothing is read of the input.
fn is_unread<R: Threads + Wait + Sync + AllocGlobal>(
    rt: &R,
    kind: ErrorKind,
    status: u8,
    line: &str,
) -> Result<bool, AllocError> {
    let mut streams = streams_of(rt.alloc(), plain(SMALLEST.as_bytes(), 7))?;
    let found = start_over(rt, Err(io::Error::from(kind)), &mut streams);
    let is_told = found == status && holds(&streams, b"", line.as_bytes());
    Ok(is_told && is_all_left(rt.alloc(), &mut streams.input))
}

#[test]
fn arguments_that_were_not_read(rt: HostRuntime) {
    is_so(
        &rt,
        is_unread(&rt, ErrorKind::OutOfMemory, 5, "out of memory\n"),
    );
    is_so(&rt, is_unread(&rt, ErrorKind::InvalidData, 1, USAGE));
}

/// A start with the argument that asks for a run prints the smallest journal.
fn is_started<R: Threads + Wait + Sync + AllocGlobal>(rt: &R) -> Result<bool, AllocError> {
    let mut streams = streams_of(rt.alloc(), plain(SMALLEST.as_bytes(), 7))?;
    let arguments = words_of(rt.alloc(), "run")?;
    let status = start_over(rt, Ok(arguments), &mut streams);
    Ok(status == 0 && holds(&streams, SMALLEST_JOURNAL.as_bytes(), b""))
}

#[test]
fn arguments_that_were_read(rt: HostRuntime) {
    is_so(&rt, is_started(&rt));
}

/// The entries of a log, one by one.
fn put_entries(log: &EntryLog, entries: &mut Vec<Entry>) -> Result<(), AllocError> {
    for i in 0..log.len() {
        entries.push(log.entry(i))?;
    }
    Ok(())
}

fn replays(alloc: Global, work: &Work, entries: &[Entry]) -> bool {
    replay(alloc, work, entries).is_ok()
}

/// There are 28 entries, which are replayed, and not without the first.
fn are_replayed(alloc: Global, work: &Work, entries: &[Entry]) -> bool {
    if entries.len() != 28 {
        return false;
    }
    replays(alloc, work, entries) && !replays(alloc, work, &entries[1..])
}

fn is_log_replayed(alloc: Global, work: &Work, log: &EntryLog) -> Result<bool, AllocError> {
    let mut entries = Vec::new(alloc);
    put_entries(log, &mut entries)?;
    Ok(are_replayed(alloc, work, &entries))
}

/// The run of the workload is replayed.
fn is_run_replayed(alloc: Global, work: &Work) -> Result<bool, AllocError> {
    match run_rounds(alloc, work, RoundOrder::Rising, &OpenGate) {
        Ok(run) => is_log_replayed(alloc, work, &run.entries),
        Err(_) => Ok(false),
    }
}

/// The text is that of a workload whose run is replayed.
fn is_replayed(alloc: Global) -> Result<bool, AllocError> {
    match read_work(alloc, EXPIRY.as_bytes()) {
        Ok(work) => is_run_replayed(alloc, &work),
        Err(_) => Ok(false),
    }
}

#[test]
fn a_run_is_replayed(rt: HostRuntime) {
    is_so(&rt, is_replayed(rt.alloc()));
}
