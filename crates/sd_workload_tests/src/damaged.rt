//! Damaged texts: every prefix of three workloads, and these workloads with each byte in turn replaced by another. What is
//! accepted has a canonical spelling that is read back, and what is refused is refused where the damage is or below. How many are
//! accepted was counted by another program.
ghost use Rattle.std.specs.Prelude.{◌<◌, ◌≤◌, ◌≡◌, ◌^◌, IfOk, length};

use crate::judging::judge;
use sd_canonical::write_work;
use sd_types::Work;
use sd_workload::{WorkFault, read_work};
use std::alloc::{AllocError, Global};

// A readers-writer lock that is handed over to readers and to a writer.
const HANDED_OVER: &[u8] =
    b"limit 3\nrwlock w\nthread a fx 60 10 inf\nthread p fx 60 40 inf\nthread q fx 60 20 inf\nthread v fx 60 30 inf\nscript a\nwrite w\nnap 2\nexit w\nend\nscript p\nnap 1\nread w\nnap 1\nexit w\nend\nscript q\nnap 1\nread w\nexit w\nend\nscript v\nnap 1\nwrite w\nexit w\nend\n";

// Requests of priocntl(2), refused and granted.
const REQUESTS: &[u8] =
    b"limit 1\nthread z ts 40 0 0 uid 1\nthread x ts 29 0 0 uid 1\nthread y ts 29 0 0 uid 1\nscript x\npriocntl y rt 5 def\npriocntl y ts 10 0\npriocntl z ts 0 0\npriocntl y ts -5 0\npriocntl y ts 61 0\nend\n";

// A table in the manner of dispadmin(1M), with comments on lines of their own and behind rows.
const TABLE: &[u8] =
    b"limit 1\ntable rt\n# Real Time Dispatcher Configuration\nRES=1000\n\n# (rt_quantum)  LEVEL\n      1000    #  0\n900\n900\n900\n900\n900\n900\n900\n900\n900\n800\n800\n800\n800\n800\n800\n800\n800\n800\n800\n600\n600\n600\n600\n600\n600\n600\n600\n600\n600\n400\n400\n400\n400\n400\n400\n400\n400\n400\n400\n200\n200\n200\n200\n200\n200\n200\n200\n200\n200\n100\n100\n100\n100\n100\n100\n100\n100\n100\n100 # 59\nend\n";

/// What is found of a text.
#[derive(Clone, Copy)]
enum Verdict {
    /// Accepted, and the canonical spelling is read back as a workload of that spelling.
    Accepted,
    /// Refused, at this line.
    Refused { line: u32 },
    /// Neither: memory ran out, or the canonical spelling is not read back.
    Neither,
}

fn spelling(alloc: Global, work: &Work) -> Result<Vec<u8>, AllocError> {
    let mut text = Vec::new(alloc);
    write_work(alloc, work, &mut text)?;
    Ok(text)
}

// The canonical spelling of the workload that a text spells, and none where it spells none.
fn spelling_of(alloc: Global, text: &[u8]) -> Option<Vec<u8>> {
    if 1_048_576 < text.len() {
        return None;
    }
    match read_work(alloc, text) {
        Ok(work) => spelling(alloc, &work).ok(),
        Err(_) => None,
    }
}

fn is_read_back(alloc: Global, work: &Work) -> bool {
    let Ok(text) = spelling(alloc, work) else {
        return false;
    };
    match spelling_of(alloc, &text) {
        Some(again) => again.as_slice() == text.as_slice(),
        None => false,
    }
}

fn verdict_on(alloc: Global, work: &Work) -> Verdict {
    if is_read_back(alloc, work) {
        Verdict::Accepted
    } else {
        Verdict::Neither
    }
}

fn refused_by(fault: WorkFault) -> Verdict {
    match fault {
        WorkFault::At { line, .. } => Verdict::Refused { line },
        _ => Verdict::Neither,
    }
}

fn found_of(alloc: Global, text: &[u8]) -> Verdict
    requires { length text.now < 2 ^ 31 }
{
    match read_work(alloc, text) {
        Ok(work) => verdict_on(alloc, &work),
        Err(fault) => refused_by(fault),
    }
}

// The line, from 1, of what stands behind these bytes.
fn line_behind(front: &[u8]) -> u32
    requires { length front.now < 1000 }
    ensures { result ≤ 1000 }
{
    front.iter().filter(|byte| **byte == b'\n').count() as u32 + 1
}

// Whether what stands behind these bytes is in a comment.
fn is_commented(front: &[u8]) -> bool {
    match front.rsplit(|byte| *byte == b'\n').next() {
        Some(line) => line.contains(&b'#'),
        None => false,
    }
}

// How many prefixes of a text are accepted, or the length of one that is refused elsewhere than on its last line or the next.
fn accepted_prefixes(alloc: Global, text: &[u8]) -> Result<u32, usize>
    requires { length text.now < 1000 }
{
    let mut count: u32 = 0;
    for end in 0..=text.len() {
        let line = line_behind(&text[..end]);
        match found_of(alloc, &text[..end]) {
            Verdict::Accepted => count = count.saturating_add(1),
            Verdict::Refused { line: at } if line <= at && at <= line + 1 => {}
            _ => return Err(end),
        }
    }
    Ok(count)
}

const PREFIXES: [(&[u8], u32); 3] = [(HANDED_OVER, 20), (REQUESTS, 16), (TABLE, 4)];

// The first text of which another number of prefixes is accepted.
fn wrong_prefixes(alloc: Global) -> Option<usize> {
    for (index, row) in PREFIXES.iter().enumerate() {
        let (text, accepted) = *row;
        if 1000 <= text.len() || accepted_prefixes(alloc, text) != Ok(accepted) {
            return Some(index);
        }
    }
    None
}

#[test]
fn prefixes_are_judged(rt: HostRuntime) {
    judge(&rt, Ok(wrong_prefixes(rt.alloc())));
}

// The text with this byte in place of the one at this index.
fn replaced(alloc: Global, text: &[u8], at: usize, byte: u8) -> Result<Vec<u8>, AllocError>
    requires { at < length text.now }
    ensures { IfOk result (λ other. length other.items ≡ length text.now) }
{
    let mut other = Vec::from_slice(alloc, text)?;
    other[at] = byte;
    Ok(other)
}

// How many texts are accepted that differ from this one by this byte at one index, or the index at which a verdict is wrong. A byte
// that may not stand is refused on its line outside comments.
fn accepted_with(alloc: Global, text: &[u8], byte: u8) -> Result<Result<u32, usize>, AllocError>
    requires { length text.now < 1000 }
{
    let mut count: u32 = 0;
    for at in 0..text.len() {
        let may_stand = byte == b'#' || is_commented(&text[..at]);
        let line = line_behind(&text[..at]);
        let other = replaced(alloc, text, at, byte)?;
        match found_of(alloc, &other) {
            Verdict::Accepted if may_stand => count = count.saturating_add(1),
            Verdict::Refused { line: found } if found == line || may_stand && line < found => {}
            _ => return Ok(Err(at)),
        }
    }
    Ok(Ok(count))
}

const REPLACED: [(&[u8], u8, u32); 9] = [
    (HANDED_OVER, 0, 0),
    (HANDED_OVER, 255, 0),
    (HANDED_OVER, b'#', 11),
    (REQUESTS, 0, 0),
    (REQUESTS, 255, 0),
    (REQUESTS, b'#', 17),
    (TABLE, 0, 62),
    (TABLE, 255, 62),
    (TABLE, b'#', 200),
];

fn is_counted(alloc: Global, text: &[u8], byte: u8, accepted: u32) -> Result<bool, AllocError> {
    if 1000 <= text.len() {
        return Ok(false);
    }
    Ok(accepted_with(alloc, text, byte)? == Ok(accepted))
}

// The first row in which another number is accepted.
fn wrong_replaced(alloc: Global) -> Result<Option<usize>, AllocError> {
    for (index, row) in REPLACED.iter().enumerate() {
        let (text, byte, accepted) = *row;
        if !is_counted(alloc, text, byte, accepted)? {
            return Ok(Some(index));
        }
    }
    Ok(None)
}

#[test]
fn replaced_bytes_are_judged(rt: HostRuntime) {
    judge(&rt, wrong_replaced(rt.alloc()));
}
