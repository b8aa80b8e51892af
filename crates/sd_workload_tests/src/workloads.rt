//! What no clause says: that reading succeeds where memory is left, and that the definitions accept and refuse the
//! texts that they should. The cases were worked out by hand.
ghost use Rattle.std.specs.Prelude.{◌<◌, ◌≤◌, length};

use crate::judging::{is_so, judge};
use sd_dispadmin::TableFault;
use sd_lines::is_word;
use sd_script::ScriptFault;
use sd_text::put_number;
use sd_types::{ChanKind, ClassParms, LockKind, Op, Quantum, Work};
use sd_workload::{WorkCause, WorkFault, read_work};
use std::alloc::{AllocError, Global};

// Whether that is the fault of a text, or it has none.
fn has_fault(alloc: Global, text: &[u8], fault: Option<WorkFault>) -> bool {
    text.len() < 1_000_000 && read_work(alloc, text).err() == fault
}

// Texts that are accepted: blanks and comments of any bytes, no newline at the end, keywords as names,
// minus zero, a script of no operation, a limit of ticks for all processors.
const ACCEPTED: [&[u8]; 8] = [
    b"limit 5#x",
    b"\t limit\t5 #\r\n \t \n",
    b"# \x00\x80\xff\nlimit 0000000005",
    b"limit 1\nthread a ts 1 -0 -0",
    b"limit 1\nthread a fx 60 10 inf\nscript a\nend\n",
    b"limit 1\nthread end sys 60\nmutex end\nchan end\nscript end\nenter end\nexit end\nend\n",
    b"cpus 2\nlimit 100000\n",
    b"limit 1\nthread a sys 60\nscript a\nrun 1\n\t end # x\n",
];

// The first of the texts that is not accepted.
fn wrong_accepted(alloc: Global) -> Option<usize> {
    for (index, text) in ACCEPTED.iter().enumerate() {
        if !has_fault(alloc, *text, None) {
            return Some(index);
        }
    }
    None
}

#[test]
fn texts_are_accepted(rt: HostRuntime) {
    judge(&rt, Ok(wrong_accepted(rt.alloc())));
}

// Texts of which the last line with words is at fault.
const SYNTAX: [&[u8]; 21] = [
    b"limit",
    b"limit -5",
    b"limit 0x5",
    b"limit 00000000005",
    b"limit 5 \x80",
    b"limit 5\x0b",
    b"limit 1\nmutex mmmmmmmmmmmmmmmmm",
    b"limit 1\nmutex a.b",
    b"limit 1\nrun 1",
    b"limit 1\nend",
    b"limit 1\nthread a sys 60 in -",
    b"limit 1\nthread a sys 60 uid 1 uid 2",
    b"limit 1\nthread a ts -1 0 0",
    b"limit 1\ntable sys",
    b"limit 1\ntable TS",
    b"cpus 2\nlimit 1\nset s c1",
    b"cpus 2\nlimit 1\nset s",
    b"cpus 2\nset s 1\ncpus 99",
    b"limit 1\nthread a sys 60\nscript a\nscript a",
    b"limit 1\nthread a sys 60\nscript a\nend a",
    b"limit 1\n\x00",
];

const UNKNOWN: [&[u8]; 4] = [
    b"limit 1\nscript a",
    b"limit 1\nthread a ts 61 0 0 uid 70000 in s",
    b"limit 1\nthread a sys 60\nscript a\nenter m",
    b"limit 1\nthread a sys 60\nscript a\npriocntl b ts 40000 0",
];

const TWICE: [&[u8]; 8] = [
    b"cpus 1\ncpus 1",
    b"limit 5\nlimit 0",
    b"hz 100\nhz 7",
    b"limit 1\nmutex m\nrwlock m",
    b"chan k\nsema k 70000",
    b"thread a sys 60\nthread a sys 7",
    b"cpus 3\nset s 1\nset s 1",
    b"thread a sys 60\nscript a\nend\nscript a",
];

const RANGE: [&[u8]; 19] = [
    b"cpus 0",
    b"cpus 65",
    b"hz 1001",
    b"limit 0",
    b"limit 100001",
    b"cpus 2\nset s 2",
    b"cpus 2\nset s 2 2",
    b"sema s 65536",
    b"thread a rt 0 1000001",
    b"thread a fx 61 0 def",
    b"thread a sys 100",
    b"thread a ts 0 -61 0",
    b"thread a sys 60 uid 65536",
    b"thread a sys 60\nscript a\nrun 0",
    b"thread a sys 60\nscript a\nnap 100001",
    b"thread a sys 60\nscript a\nassign 1 -",
    b"thread a sys 60\nscript a\npbind a 1",
    b"thread a sys 60\nscript a\npriocntl a rt 5 0",
    b"thread a sys 60\nscript a\npriocntl a ts 0 32768",
];

const SETS: [&[u8]; 4] = [
    b"set s 0",
    b"cpus 3\nset s 1\nset r 0 2",
    b"cpus 3\nset s 1 1",
    b"cpus 3\nset s 1\nset r 1",
];

// The number of a text's lines, of which the last has no newline.
fn line_count(text: &[u8]) -> u32
    requires { length text.now < 1000 }
    ensures { result ≤ 1000 }
{
    text.iter().filter(|byte| **byte == b'\n').count() as u32 + 1
}

fn is_last_refused(alloc: Global, text: &[u8], cause: WorkCause) -> bool {
    if 1000 <= text.len() {
        return false;
    }
    let line = line_count(text);
    has_fault(alloc, text, Some(WorkFault::At { line, cause }))
}

// The first of the texts whose last line is not refused for this cause.
fn wrong_text(alloc: Global, texts: &[&[u8]], cause: WorkCause) -> Option<usize> {
    for (index, text) in texts.iter().enumerate() {
        if !is_last_refused(alloc, *text, cause) {
            return Some(index);
        }
    }
    None
}

#[test]
fn the_last_line_is_refused(rt: HostRuntime) {
    judge(&rt, Ok(wrong_text(rt.alloc(), &SYNTAX, WorkCause::Syntax)));
    judge(
        &rt,
        Ok(wrong_text(rt.alloc(), &UNKNOWN, WorkCause::Unknown)),
    );
    judge(&rt, Ok(wrong_text(rt.alloc(), &TWICE, WorkCause::Twice)));
    judge(&rt, Ok(wrong_text(rt.alloc(), &RANGE, WorkCause::Range)));
    judge(&rt, Ok(wrong_text(rt.alloc(), &SETS, WorkCause::Sets)));
}

// Texts that are refused on the line after the last, by an open block or without a limit.
const OPEN: [&[u8]; 8] = [
    b"",
    b"\n",
    b"# limit 5",
    b"cpus 2\nhz 100",
    b"table fx\n",
    b"limit 1\ntable rt\n10",
    b"limit 1\nthread a sys 60\nscript a\nrun 1\n",
    b"cpus 4\nlimit 100000\nthread a sys 60\nscript a\n",
];

// The number of a text's lines. A newline at the end makes no further line.
fn whole_line_count(text: &[u8]) -> u32
    requires { length text.now < 1000 }
    ensures { result ≤ 1000 }
{
    match text {
        [] => 0,
        [front @ .., b'\n'] => line_count(front),
        _ => line_count(text),
    }
}

fn is_end_refused(alloc: Global, text: &[u8]) -> bool {
    if 1000 <= text.len() {
        return false;
    }
    let line = whole_line_count(text) + 1;
    let cause = WorkCause::Syntax;
    has_fault(alloc, text, Some(WorkFault::At { line, cause }))
}

// The first of the texts that is not refused behind its end.
fn wrong_open_text(alloc: Global, texts: &[&[u8]]) -> Option<usize> {
    for (index, text) in texts.iter().enumerate() {
        if !is_end_refused(alloc, *text) {
            return Some(index);
        }
    }
    None
}

// The limit of ticks of all processors is seen at the end.
fn is_limited(alloc: Global) -> bool {
    let limits = Some(WorkFault::At {
        line: 3,
        cause: WorkCause::Limits,
    });
    has_fault(alloc, b"cpus 4\nlimit 100000", limits)
        && has_fault(alloc, b"cpus 64\nlimit 3126\n", limits)
}

#[test]
fn the_end_is_refused(rt: HostRuntime) {
    judge(&rt, Ok(wrong_open_text(rt.alloc(), &OPEN)));
    is_so(&rt, Ok(is_limited(rt.alloc())));
}

// What stands above the operations of a script: 8 lines.
const ABOVE: &[u8] =
    b"limit 1\nthread a fx 60 10 inf\nthread b fx 60 10 inf\nmutex m\nrwlock w\nchan k\nsema s 1\nscript a\n";

// Operations that name what is not declared, or is of another kind.
const UNKNOWN_OPERATIONS: [&[u8]; 17] = [
    b"enter w",
    b"enter k",
    b"enter s",
    b"read m",
    b"write m",
    b"exit z",
    b"sleep s",
    b"wake m",
    b"wakeall z",
    b"semap k",
    b"semav k",
    b"cvwait k w",
    b"cvwait s m",
    b"pbind z 0",
    b"assign 0 z",
    b"assign 7 zz",
    b"priocntl zz ts 40000 0",
];

const UNBALANCED_OPERATIONS: [&[u8]; 3] = [b"exit m", b"exit w", b"cvwait k m"];

fn put_operation(text: &mut Vec<u8>, operation: &[u8]) -> Result<(), AllocError> {
    text.extend_from_slice(operation)?;
    text.extend_from_slice(b"\nend\n")
}

fn is_operation_refused(
    alloc: Global,
    operation: &[u8],
    cause: WorkCause,
) -> Result<bool, AllocError> {
    let mut text = Vec::from_slice(alloc, ABOVE)?;
    put_operation(&mut text, operation)?;
    Ok(has_fault(alloc, &text, Some(WorkFault::At { line: 9, cause })))
}

// The first of the operations that is not refused for this cause.
fn wrong_operation(
    alloc: Global,
    operations: &[&[u8]],
    cause: WorkCause,
) -> Result<Option<usize>, AllocError> {
    for (index, operation) in operations.iter().enumerate() {
        if !is_operation_refused(alloc, *operation, cause)? {
            return Ok(Some(index));
        }
    }
    Ok(None)
}

#[test]
fn operations_are_refused(rt: HostRuntime) {
    let unbalanced = WorkCause::Script(ScriptFault::Unbalanced { op: 0 });
    judge(
        &rt,
        wrong_operation(rt.alloc(), &UNKNOWN_OPERATIONS, WorkCause::Unknown),
    );
    judge(
        &rt,
        wrong_operation(rt.alloc(), &UNBALANCED_OPERATIONS, unbalanced),
    );
}

// Appends a line this many times.
fn put_lines(text: &mut Vec<u8>, line: &[u8], count: u64) -> Result<(), AllocError> {
    for _ in 0..count {
        text.extend_from_slice(line)?;
        text.push(b'\n')?;
    }
    Ok(())
}

// Appends a script of this many lines `run 1`, and then this line and `end`.
fn put_script(text: &mut Vec<u8>, runs: u64, last: &[u8]) -> Result<(), AllocError> {
    text.extend_from_slice(b"enter m\n")?;
    put_lines(text, b"run 1", runs)?;
    text.extend_from_slice(last)?;
    text.extend_from_slice(b"\nend\n")
}

// A fault on this line.
fn fault_at(fault: Option<(u32, WorkCause)>) -> Option<WorkFault> {
    match fault {
        Some((line, cause)) => Some(WorkFault::At { line, cause }),
        None => None,
    }
}

fn has_script_fault(
    alloc: Global,
    runs: u64,
    last: &[u8],
    fault: Option<(u32, WorkCause)>,
) -> Result<bool, AllocError> {
    let mut text = Vec::from_slice(alloc, ABOVE)?;
    put_script(&mut text, runs, last)?;
    Ok(has_fault(alloc, &text, fault_at(fault)))
}

// How many lines `run 1` there are, the line behind them, and what is at fault.
const SCRIPTS: [(u64, &[u8], Option<(u32, WorkCause)>); 9] = [
    (0, b"exit m", None),
    (
        0,
        b"yield",
        Some((11, WorkCause::Script(ScriptFault::HeldAtExit))),
    ),
    (
        0,
        b"enter m",
        Some((10, WorkCause::Script(ScriptFault::AlreadyHeld { op: 1 }))),
    ),
    (254, b"exit m", None),
    (
        255,
        b"exit m",
        Some((265, WorkCause::Script(ScriptFault::TooLong))),
    ),
    (
        255,
        b"exit w",
        Some((265, WorkCause::Script(ScriptFault::TooLong))),
    ),
    (255, b"exit z", Some((265, WorkCause::Unknown))),
    (255, b"run 0", Some((265, WorkCause::Range))),
    (
        254,
        b"cvwait k m",
        Some((264, WorkCause::Script(ScriptFault::TooLong))),
    ),
];

// The first script that is judged otherwise.
fn wrong_script(alloc: Global) -> Result<Option<usize>, AllocError> {
    for (index, row) in SCRIPTS.iter().enumerate() {
        let (runs, last, fault) = *row;
        if !has_script_fault(alloc, runs, last, fault)? {
            return Ok(Some(index));
        }
    }
    Ok(None)
}

#[test]
fn scripts_are_refused(rt: HostRuntime) {
    judge(&rt, wrong_script(rt.alloc()));
}

// Appends a table of this class with this many rows, and then this line.
fn put_table(text: &mut Vec<u8>, class: &[u8], rows: u64, last: &[u8]) -> Result<(), AllocError> {
    text.extend_from_slice(class)?;
    text.push(b'\n')?;
    put_lines(text, b"10", rows)?;
    text.extend_from_slice(last)
}

fn has_table_fault(
    alloc: Global,
    class: &[u8],
    rows: u64,
    last: &[u8],
    fault: Option<(u32, TableFault)>,
) -> Result<bool, AllocError> {
    let mut text = Vec::from_slice(alloc, b"limit 1\ntable ")?;
    put_table(&mut text, class, rows, last)?;
    let want = match fault {
        Some((line, fault)) => Some((line, WorkCause::Table(fault))),
        None => None,
    };
    Ok(has_fault(alloc, &text, fault_at(want)))
}

// The class, how many rows there are, the line behind them, and what is at fault.
const TABLES: [(&[u8], u64, &[u8], Option<(u32, TableFault)>); 9] = [
    (b"fx", 60, b"end", None),
    (b"fx", 61, b" end # y\n", None),
    (
        b"rt",
        61,
        b"# x\n  end # y\n",
        Some((65, TableFault::Rows { found: 61 })),
    ),
    (b"rt", 0, b"end\n", Some((3, TableFault::Rows { found: 0 }))),
    (
        b"rt",
        60,
        b"end end\n",
        Some((63, TableFault::NotANumber { line: 61 })),
    ),
    (
        b"rt",
        0,
        b"\xff\n",
        Some((3, TableFault::NotANumber { line: 1 })),
    ),
    (
        b"rt",
        1,
        b"0\n",
        Some((4, TableFault::Range { line: 2, column: 1 })),
    ),
    (
        b"fx",
        1,
        b"RES=1000\n",
        Some((4, TableFault::Resolution { line: 2 })),
    ),
    (
        b"ts",
        0,
        b"1 59 60 99999 60\n",
        Some((3, TableFault::Range { line: 1, column: 3 })),
    ),
];

// The first table that is judged otherwise.
fn wrong_table(alloc: Global) -> Result<Option<usize>, AllocError> {
    for (index, row) in TABLES.iter().enumerate() {
        let (class, rows, last, fault) = *row;
        if !has_table_fault(alloc, class, rows, last, fault)? {
            return Ok(Some(index));
        }
    }
    Ok(None)
}

#[test]
fn tables_are_refused(rt: HostRuntime) {
    judge(&rt, wrong_table(rt.alloc()));
}

// Appends this many lines of two words, of which the second is a letter and the number.
fn put_numbered(
    text: &mut Vec<u8>,
    before: &[u8],
    count: u64,
    after: &[u8],
) -> Result<(), AllocError> {
    for number in 0..count {
        text.extend_from_slice(before)?;
        put_number(text, number)?;
        text.extend_from_slice(after)?;
    }
    Ok(())
}

fn put_many(text: &mut Vec<u8>, threads: u64, locks: u64, last: &[u8]) -> Result<(), AllocError> {
    put_numbered(text, b"thread t", threads, b" sys 60\n")?;
    put_numbered(text, b"mutex m", locks, b"\n")?;
    text.extend_from_slice(last)
}

fn has_limit(
    alloc: Global,
    threads: u64,
    locks: u64,
    last: &[u8],
    fault: Option<(u32, WorkCause)>,
) -> Result<bool, AllocError> {
    let mut text = Vec::from_slice(alloc, b"limit 1\n")?;
    put_many(&mut text, threads, locks, last)?;
    Ok(has_fault(alloc, &text, fault_at(fault)))
}

// 256 locks and no more, of which one more name that is declared is there twice; 32 threads with 2,048 locks.
const LIMITS: [(u64, u64, &[u8], Option<(u32, WorkCause)>); 6] = [
    (256, 256, b"", None),
    (256, 256, b"mutex n", Some((514, WorkCause::Limits))),
    (256, 256, b"mutex m0", Some((514, WorkCause::Twice))),
    (257, 256, b"", Some((515, WorkCause::Limits))),
    (2048, 32, b"", None),
    (
        2048,
        32,
        b"thread n sys 60",
        Some((2082, WorkCause::Limits)),
    ),
];

// The first limit that is judged otherwise.
fn wrong_limit(alloc: Global) -> Result<Option<usize>, AllocError> {
    for (index, row) in LIMITS.iter().enumerate() {
        let (threads, locks, last, fault) = *row;
        if !has_limit(alloc, threads, locks, last, fault)? {
            return Ok(Some(index));
        }
    }
    Ok(None)
}

#[test]
fn limits_have_two_sides(rt: HostRuntime) {
    judge(&rt, wrong_limit(rt.alloc()));
}

// Each line form.
const WHOLE: &[u8] =
    b"cpus 4\nhz 1000\nlimit 50\nset s 2 1\nmutex m\nrwlock w\nchan k\nsema p 3\nthread a ts 29 -5 20 uid 7 priv in s\nthread b fx 10 60 9\nthread c sys 60\nthread d rt 5 def\nscript b\nrun 2\nyield\nnap 3\nsleep k\nwake k\nwakeall k\nenter m\ncvwait k m\nexit m\nread w\nexit w\nwrite w\nexit w\npriocntl a ts -1 2\nsemap p\nsemav p\nassign 1 s\nassign 0 -\npbind a 2\npbind a -\nend\n";

fn has_settings(work: &Work) -> bool {
    (work.cpus, work.hz, work.limit) == (4, 1000, 50)
}

fn has_set(work: &Work) -> bool {
    match work.sets.items() {
        [(name, cpus)] => match cpus.items() {
            [first, second] => is_word(name.bytes(), b"s") && first.0 == 2 && second.0 == 1,
            _ => false,
        },
        _ => false,
    }
}

fn has_objects(work: &Work) -> bool {
    let has_locks = match work.locks.items() {
        [(m, LockKind::Mutex), (w, LockKind::Rwlock)] => is_word(m.bytes(), b"m")
            && is_word(w.bytes(), b"w"),
        _ => false,
    };
    let has_chans = match work.chans.items() {
        [(k, ChanKind::Chan), (p, ChanKind::Sema { count: 3 })] => {
            is_word(k.bytes(), b"k") && is_word(p.bytes(), b"p")
        }
        _ => false,
    };
    has_locks && has_chans
}

fn has_threads(work: &Work) -> bool {
    match work.threads.items() {
        [a, b, c, d] => {
            matches!(
                a.class,
                ClassParms::Ts {
                    limit: -5,
                    upri: -5
                }
            ) && (a.cpupri, a.uid, a.privileged, a.set.0) == (29, 7, true, 1)
                && matches!(
                    b.class,
                    ClassParms::Fx {
                        limit: 10,
                        pri: 10,
                        quantum: Quantum::Ticks(9)
                    }
                )
                && (b.cpupri, b.uid, b.privileged, b.set.0) == (0, 0, false, 0)
                && matches!(c.class, ClassParms::Sys { pri: 60 })
                && matches!(
                    d.class,
                    ClassParms::Rt {
                        pri: 5,
                        quantum: Quantum::Def
                    }
                )
        }
        _ => false,
    }
}

// The kind of an operation, and what it names: a lock, a channel, a thread or ticks.
fn shown(op: Op) -> (u8, u32) {
    match op {
        Op::Run(n) => (0, n),
        Op::Yield => (1, 0),
        Op::Nap(n) => (2, n),
        Op::Sleep(k) => (3, u32::from(k.0)),
        Op::Wake(k) => (4, u32::from(k.0)),
        Op::WakeAll(k) => (5, u32::from(k.0)),
        Op::Enter(l) => (6, u32::from(l.0)),
        Op::Read(l) => (7, u32::from(l.0)),
        Op::Write(l) => (8, u32::from(l.0)),
        Op::Exit(l) => (9, u32::from(l.0)),
        Op::Prio(t, _) => (10, u32::from(t.0)),
        Op::CvWait(k, _) => (11, u32::from(k.0)),
        Op::SemaP(k) => (12, u32::from(k.0)),
        Op::SemaV(k) => (13, u32::from(k.0)),
        Op::Assign(_, set) => (14, u32::from(set.0)),
        Op::Pbind(_, None) => (15, 0),
        Op::Pbind(_, Some(cpu)) => (16, u32::from(cpu.0)),
    }
}

// The operations of the script of `b`: mutex m is lock 0 and rwlock w lock 1, chan k is channel 0 and sema p channel 1.
const SCRIPT: [(u8, u32); 21] = [
    (0, 2),
    (1, 0),
    (2, 3),
    (3, 0),
    (4, 0),
    (5, 0),
    (6, 0),
    (11, 0),
    (6, 0),
    (9, 0),
    (7, 1),
    (9, 1),
    (8, 1),
    (9, 1),
    (10, 0),
    (12, 1),
    (13, 1),
    (14, 1),
    (14, 0),
    (16, 2),
    (15, 0),
];

fn has_script(work: &Work) -> bool {
    match work.threads.items() {
        [_, b, ..] => {
            let ops = b.script.ops();
            ops.len() == SCRIPT.len()
                && ops
                    .iter()
                    .zip(&SCRIPT)
                    .all(|(op, want)| shown(*op) == *want)
        }
        _ => false,
    }
}

fn is_whole(work: &Work) -> bool {
    let has_lists = has_set(work) && has_objects(work);
    has_settings(work) && has_lists && has_threads(work) && has_script(work)
}

fn is_read(alloc: Global) -> bool {
    match read_work(alloc, WHOLE) {
        Ok(work) => is_whole(&work),
        Err(_) => false,
    }
}

#[test]
fn a_workload_is_read(rt: HostRuntime) {
    is_so(&rt, Ok(is_read(rt.alloc())));
}

// 10 milliseconds are 10 ticks of a thousand a second, wherever the line of the ticks stands.
fn has_ticks(work: &Work) -> bool {
    match (work.rt.rows.items(), work.fx.rows.items()) {
        ([row, ..], [first, ..]) => {
            row.quantum == 10 && row.ticks == 10 && first.quantum == 200 && first.ticks == 200
        }
        _ => false,
    }
}

fn is_read_with_ticks(alloc: Global, text: &[u8]) -> bool {
    if 1000 <= text.len() {
        return false;
    }
    match read_work(alloc, text) {
        Ok(work) => has_ticks(&work),
        Err(_) => false,
    }
}

fn has_table(alloc: Global) -> Result<bool, AllocError> {
    let mut text = Vec::from_slice(alloc, b"limit 1\ntable ")?;
    put_table(&mut text, b"rt", 60, b"end\nhz 1000")?;
    Ok(is_read_with_ticks(alloc, &text))
}

#[test]
fn a_table_is_read(rt: HostRuntime) {
    is_so(&rt, has_table(rt.alloc()));
}
