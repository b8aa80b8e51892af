//! The answers of calls that may be refused, as words.

ghost use Rattle.std.specs.Prelude.{◌≡◌, ◌+◌, ◌≤◌, ◌++◌, length, take, codes, decimal};
ghost use Rattle.sd_machine.specs.Texts.{assign_text, bind_text, cpu_text_if, denied_text, prio_text, put_text_if};

use crate::line::{Line, ROOM, put_bytes, put_small};
use crate::words::{put_cpu, put_place_if};
use sd_types::{AssignAnswer, BindAnswer, CpuId, Denied, PrioAnswer, Put};

fn denied_word(denied: Denied) -> &'static [u8]
    ensures word { result.now ≡ denied_text denied }
    ensures short { length result.now ≤ 6 }
{
    match denied {
        Denied::ESRCH => b"ESRCH",
        Denied::EINVAL => b"EINVAL",
        Denied::EPERM => b"EPERM",
    }
}

fn put_changed(p: u8, at: Option<Put>, line: &mut Line, from: usize) -> usize
    requires { from + 31 ≤ ROOM }
    ensures text { take result line.new ≡ take from line.old ++ (codes "ok " ++ decimal p ++ put_text_if at) }
    ensures within { result ≤ from + 31 }
{
    let from = put_bytes(b"ok ", line, from);
    let from = put_small(p, line, from);
    put_place_if(at, line, from)
}

/// `ok 59 to c7`, or the name of the refusal.
pub(crate) fn put_prio_answer(answer: PrioAnswer, line: &mut Line, from: usize) -> usize
    requires { from + 31 ≤ ROOM }
    ensures text { take result line.new ≡ take from line.old ++ prio_text answer }
    ensures within { result ≤ from + 31 }
{
    match answer {
        PrioAnswer::Changed { p, at } => put_changed(p, at, line, from),
        PrioAnswer::Refused(denied) => put_bytes(denied_word(denied), line, from),
    }
}

/// `ok`, or the name of the refusal.
pub(crate) fn assign_word(answer: AssignAnswer) -> &'static [u8]
    ensures word { result.now ≡ assign_text answer }
    ensures short { length result.now ≤ 6 }
{
    match answer {
        AssignAnswer::Changed => b"ok",
        AssignAnswer::EPERM => b"EPERM",
        AssignAnswer::EINVAL => b"EINVAL",
        AssignAnswer::EBUSY => b"EBUSY",
    }
}

fn put_bound(at: Option<Put>, line: &mut Line, from: usize) -> usize
    requires { from + 27 ≤ ROOM }
    ensures text { take result line.new ≡ take from line.old ++ (codes "ok" ++ put_text_if at) }
    ensures within { result ≤ from + 27 }
{
    let from = put_bytes(b"ok", line, from);
    put_place_if(at, line, from)
}

/// `ok to c7`, or the name of the refusal.
pub(crate) fn put_bind_answer(answer: BindAnswer, line: &mut Line, from: usize) -> usize
    requires { from + 27 ≤ ROOM }
    ensures text { take result line.new ≡ take from line.old ++ bind_text answer }
    ensures within { result ≤ from + 27 }
{
    match answer {
        BindAnswer::Changed { at } => put_bound(at, line, from),
        BindAnswer::ESRCH => put_bytes(b"ESRCH", line, from),
        BindAnswer::EINVAL => put_bytes(b"EINVAL", line, from),
        BindAnswer::EPERM => put_bytes(b"EPERM", line, from),
        BindAnswer::EBUSY => put_bytes(b"EBUSY", line, from),
    }
}

/// `c7`, or `-` for none.
pub(crate) fn put_cpu_if(c: Option<CpuId>, line: &mut Line, from: usize) -> usize
    requires { from + 21 ≤ ROOM }
    ensures text { take result line.new ≡ take from line.old ++ cpu_text_if c }
    ensures within { result ≤ from + 21 }
{
    match c {
        None => put_bytes(b"-", line, from),
        Some(c) => put_cpu(c, line, from),
    }
}
