//! The words of which the texts of events are made.

ghost use Rattle.std.specs.Prelude.{◌≡◌, ◌+◌, ◌≤◌, ◌++◌, length, take, codes, decimal};
ghost use Rattle.sd_state.specs.Texts.{chan_name, lock_name, thread_name};
ghost use Rattle.sd_machine.specs.Texts.{cpu_text, put_text, put_text_if, woken_text, word_chan, word_lock, word_thread};

use crate::line::{Line, ROOM, put_bytes, put_name, put_number, put_small};
use crate::names::{chan_name, lock_name, thread_name};
use sd_types::{ChanId, CpuId, LockId, Put, ThreadId, Work};

/// ` 7`
#[inline(always)]
pub(crate) fn put_space_number(n: u64, line: &mut Line, from: usize) -> usize
    requires { from + 21 ≤ ROOM }
    ensures text { take result line.new ≡ take from line.old ++ (codes " " ++ decimal n) }
    ensures within { result ≤ from + 21 }
{
    let from = put_bytes(b" ", line, from);
    put_number(n, line, from)
}

/// The same, of a small number.
#[inline(always)]
pub(crate) fn put_space_small(n: u8, line: &mut Line, from: usize) -> usize
    requires { from + 4 ≤ ROOM }
    ensures text { take result line.new ≡ take from line.old ++ (codes " " ++ decimal n) }
    ensures within { result ≤ from + 4 }
{
    let from = put_bytes(b" ", line, from);
    put_small(n, line, from)
}

/// `c7`
#[inline(always)]
pub(crate) fn put_cpu(c: CpuId, line: &mut Line, from: usize) -> usize
    requires { from + 21 ≤ ROOM }
    ensures text { take result line.new ≡ take from line.old ++ cpu_text c }
    ensures within { result ≤ from + 21 }
{
    let from = put_bytes(b"c", line, from);
    put_number(u64::from(c.0), line, from)
}

/// ` t`
#[inline(always)]
pub(crate) fn put_space_thread(work: &Work, t: ThreadId, line: &mut Line, from: usize) -> usize
    requires { from + 17 ≤ ROOM }
    ensures text { take result line.new ≡ take from line.old ++ (codes " " ++ thread_name work.now t.0) }
    ensures within { result ≤ from + 17 }
{
    let from = put_bytes(b" ", line, from);
    put_name(thread_name(work, t.0 as usize), line, from)
}

/// ` l`
#[inline(always)]
pub(crate) fn put_space_lock(work: &Work, l: LockId, line: &mut Line, from: usize) -> usize
    requires { from + 17 ≤ ROOM }
    ensures text { take result line.new ≡ take from line.old ++ (codes " " ++ lock_name work.now l.0) }
    ensures within { result ≤ from + 17 }
{
    let from = put_bytes(b" ", line, from);
    put_name(lock_name(work, l), line, from)
}

/// ` k`
#[inline(always)]
pub(crate) fn put_space_chan(work: &Work, k: ChanId, line: &mut Line, from: usize) -> usize
    requires { from + 17 ≤ ROOM }
    ensures text { take result line.new ≡ take from line.old ++ (codes " " ++ chan_name work.now k.0) }
    ensures within { result ≤ from + 17 }
{
    let from = put_bytes(b" ", line, from);
    put_name(chan_name(work, k), line, from)
}

/// `word t`
#[inline(always)]
pub(crate) fn put_word_thread(
    work: &Work,
    word: &[u8],
    t: ThreadId,
    line: &mut Line,
    from: usize,
) -> usize
    requires { from + length word.now + 17 ≤ ROOM }
    ensures text { take result line.new ≡ take from line.old ++ word_thread work.now word.now t }
    ensures within { result ≤ from + length word.now + 17 }
{
    let from = put_bytes(word, line, from);
    put_space_thread(work, t, line, from)
}

/// `word l`
#[inline(always)]
pub(crate) fn put_word_lock(
    work: &Work,
    word: &[u8],
    l: LockId,
    line: &mut Line,
    from: usize,
) -> usize
    requires { from + length word.now + 17 ≤ ROOM }
    ensures text { take result line.new ≡ take from line.old ++ word_lock work.now word.now l }
    ensures within { result ≤ from + length word.now + 17 }
{
    let from = put_bytes(word, line, from);
    put_space_lock(work, l, line, from)
}

/// `word k`
#[inline(always)]
pub(crate) fn put_word_chan(
    work: &Work,
    word: &[u8],
    k: ChanId,
    line: &mut Line,
    from: usize,
) -> usize
    requires { from + length word.now + 17 ≤ ROOM }
    ensures text { take result line.new ≡ take from line.old ++ word_chan work.now word.now k }
    ensures within { result ≤ from + length word.now + 17 }
{
    let from = put_bytes(word, line, from);
    put_space_chan(work, k, line, from)
}

/// `word t l`
#[inline(always)]
pub(crate) fn put_thread_lock(
    work: &Work,
    word: &[u8],
    t: ThreadId,
    l: LockId,
    line: &mut Line,
    from: usize,
) -> usize
    requires { from + length word.now + 34 ≤ ROOM }
    ensures text { take result line.new ≡ take from line.old ++ word_lock work.now (word_thread work.now word.now t) l }
    ensures within { result ≤ from + length word.now + 34 }
{
    let from = put_word_thread(work, word, t, line, from);
    put_space_lock(work, l, line, from)
}

/// `word t k`
#[inline(always)]
pub(crate) fn put_thread_chan(
    work: &Work,
    word: &[u8],
    t: ThreadId,
    k: ChanId,
    line: &mut Line,
    from: usize,
) -> usize
    requires { from + length word.now + 34 ≤ ROOM }
    ensures text { take result line.new ≡ take from line.old ++ word_chan work.now (word_thread work.now word.now t) k }
    ensures within { result ≤ from + length word.now + 34 }
{
    let from = put_word_thread(work, word, t, line, from);
    put_space_chan(work, k, line, from)
}

/// `word t u`
#[inline(always)]
pub(crate) fn put_two_threads(
    work: &Work,
    word: &[u8],
    t: ThreadId,
    u: ThreadId,
    line: &mut Line,
    from: usize,
) -> usize
    requires { from + length word.now + 34 ≤ ROOM }
    ensures text { take result line.new ≡ take from line.old ++ word_thread work.now (word_thread work.now word.now t) u }
    ensures within { result ≤ from + length word.now + 34 }
{
    let from = put_word_thread(work, word, t, line, from);
    put_space_thread(work, u, line, from)
}

/// `word l u`
#[inline(always)]
pub(crate) fn put_lock_thread(
    work: &Work,
    word: &[u8],
    l: LockId,
    u: ThreadId,
    line: &mut Line,
    from: usize,
) -> usize
    requires { from + length word.now + 34 ≤ ROOM }
    ensures text { take result line.new ≡ take from line.old ++ word_thread work.now (word_lock work.now word.now l) u }
    ensures within { result ≤ from + length word.now + 34 }
{
    let from = put_word_lock(work, word, l, line, from);
    put_space_thread(work, u, line, from)
}

/// ` to c7` or ` rt c7`: where a thread was put.
#[inline(always)]
pub(crate) fn put_place(at: Put, line: &mut Line, from: usize) -> usize
    requires { from + 25 ≤ ROOM }
    ensures text { take result line.new ≡ take from line.old ++ put_text at }
    ensures within { result ≤ from + 25 }
{
    match at {
        Put::Cpu(x) => put_word_cpu(b" to ", x, line, from),
        Put::RealTime(x) => put_word_cpu(b" rt ", x, line, from),
    }
}

#[inline(always)]
fn put_word_cpu(word: &[u8], c: CpuId, line: &mut Line, from: usize) -> usize
    requires { from + length word.now + 21 ≤ ROOM }
    ensures text { take result line.new ≡ take from line.old ++ (word.now ++ cpu_text c) }
    ensures within { result ≤ from + length word.now + 21 }
{
    let from = put_bytes(word, line, from);
    put_cpu(c, line, from)
}

/// The same, and nothing where the thread was put nowhere.
pub(crate) fn put_place_if(at: Option<Put>, line: &mut Line, from: usize) -> usize
    requires { from + 25 ≤ ROOM }
    ensures text { take result line.new ≡ take from line.old ++ put_text_if at }
    ensures within { result ≤ from + 25 }
{
    match at {
        None => from,
        Some(at) => put_place(at, line, from),
    }
}

fn put_woken_thread(work: &Work, u: ThreadId, at: Put, line: &mut Line, from: usize) -> usize
    requires { from + 41 ≤ ROOM }
    ensures text { take result line.new ≡ take from line.old ++ (thread_name work.now u.0 ++ put_text at) }
    ensures within { result ≤ from + 41 }
{
    let from = put_name(thread_name(work, u.0 as usize), line, from);
    put_place(at, line, from)
}

/// `u to c7`, or `none` where no thread was woken.
pub(crate) fn put_woken(
    work: &Work,
    woken: Option<(ThreadId, Put)>,
    line: &mut Line,
    from: usize,
) -> usize
    requires { from + 41 ≤ ROOM }
    ensures text { take result line.new ≡ take from line.old ++ woken_text work.now woken }
    ensures within { result ≤ from + 41 }
{
    match woken {
        None => put_bytes(b"none", line, from),
        Some((u, at)) => put_woken_thread(work, u, at, line, from),
    }
}
