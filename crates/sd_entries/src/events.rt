//! The text of an event.

ghost use Rattle.std.specs.Prelude.{◌≡◌, ◌+◌, ◌≤◌, ◌++◌, length, take, codes, decimal};
ghost use Rattle.sd_state.specs.Texts.{end_text};
ghost use Rattle.sd_machine.specs.Texts.{assign_text, bind_text, cpu_text, cpu_text_if, event_text, prio_text, put_text, put_text_if, set_name, woken_text, word_chan, word_lock, word_thread};

use crate::answers::{assign_word, put_bind_answer, put_cpu_if, put_prio_answer};
use crate::line::{Line, ROOM, put_bytes, put_two};
use crate::names::set_name;
use crate::words::{
    put_cpu, put_lock_thread, put_place, put_place_if, put_space_lock, put_space_number,
    put_space_small, put_space_thread, put_thread_chan, put_thread_lock, put_two_threads,
    put_woken, put_word_chan, put_word_lock, put_word_thread,
};
use sd_types::{
    AssignAnswer, BindAnswer, ChanId, CpuId, End, Event, LockId, PrioAnswer, Put, SetId, ThreadId,
    Work,
};

/// ` front` or ` back`
#[inline(always)]
fn put_end(end: End, line: &mut Line, from: usize) -> usize
    requires { from + 6 ≤ ROOM }
    ensures text { take result line.new ≡ take from line.old ++ end_text end }
    ensures within { result ≤ from + 6 }
{
    match end {
        End::Front => put_bytes(b" front", line, from),
        End::Back => put_bytes(b" back", line, from),
    }
}

/// `word t 59`
#[inline(always)]
fn put_thread_number(
    work: &Work,
    word: &[u8],
    t: ThreadId,
    p: u8,
    line: &mut Line,
    from: usize,
) -> usize
    requires { from + length word.now + 21 ≤ ROOM }
    ensures text { take result line.new ≡ take from line.old ++ (word_thread work.now word.now t ++ codes " " ++ decimal p) }
    ensures within { result ≤ from + length word.now + 21 }
{
    let from = put_word_thread(work, word, t, line, from);
    put_space_small(p, line, from)
}

fn put_steal(work: &Work, victim: CpuId, t: ThreadId, p: u8, line: &mut Line, from: usize) -> usize
    requires { from + 48 ≤ ROOM }
    ensures text { take result line.new ≡ take from line.old ++ (word_thread work.now (codes "steal " ++ cpu_text victim) t ++ codes " " ++ decimal p) }
    ensures within { result ≤ from + 48 }
{
    let from = put_bytes(b"steal ", line, from);
    let from = put_cpu(victim, line, from);
    let from = put_space_thread(work, t, line, from);
    put_space_small(p, line, from)
}

fn put_preempt(work: &Work, t: ThreadId, end: End, line: &mut Line, from: usize) -> usize
    requires { from + 30 ≤ ROOM }
    ensures text { take result line.new ≡ take from line.old ++ (word_thread work.now (codes "preempt") t ++ end_text end) }
    ensures within { result ≤ from + 30 }
{
    let from = put_word_thread(work, b"preempt", t, line, from);
    put_end(end, line, from)
}

fn put_away(work: &Work, t: ThreadId, cpu: CpuId, line: &mut Line, from: usize) -> usize
    requires { from + 52 ≤ ROOM }
    ensures text { take result line.new ≡ take from line.old ++ (word_thread work.now (codes "preempt") t ++ codes " away " ++ cpu_text cpu) }
    ensures within { result ≤ from + 52 }
{
    let from = put_word_thread(work, b"preempt", t, line, from);
    let from = put_bytes(b" away ", line, from);
    put_cpu(cpu, line, from)
}

/// `word t to c7`
fn put_thread_place(
    work: &Work,
    word: &[u8],
    t: ThreadId,
    at: Put,
    line: &mut Line,
    from: usize,
) -> usize
    requires { from + length word.now + 42 ≤ ROOM }
    ensures text { take result line.new ≡ take from line.old ++ (word_thread work.now word.now t ++ put_text at) }
    ensures within { result ≤ from + length word.now + 42 }
{
    let from = put_word_thread(work, word, t, line, from);
    put_place(at, line, from)
}

/// `word l u to c7`
fn put_lock_place(
    work: &Work,
    word: &[u8],
    l: LockId,
    u: ThreadId,
    at: Put,
    line: &mut Line,
    from: usize,
) -> usize
    requires { from + length word.now + 59 ≤ ROOM }
    ensures text { take result line.new ≡ take from line.old ++ (word_thread work.now (word_lock work.now word.now l) u ++ put_text at) }
    ensures within { result ≤ from + length word.now + 59 }
{
    let from = put_lock_thread(work, word, l, u, line, from);
    put_place(at, line, from)
}

fn put_wake(
    work: &Work,
    t: ThreadId,
    k: ChanId,
    woken: Option<(ThreadId, Put)>,
    line: &mut Line,
    from: usize,
) -> usize
    requires { from + 80 ≤ ROOM }
    ensures text { take result line.new ≡ take from line.old ++ (word_chan work.now (word_thread work.now (codes "wake") t) k ++ codes " " ++ woken_text work.now woken) }
    ensures within { result ≤ from + 80 }
{
    let from = put_thread_chan(work, b"wake", t, k, line, from);
    let from = put_bytes(b" ", line, from);
    put_woken(work, woken, line, from)
}

fn put_rouse(
    work: &Work,
    k: ChanId,
    woken: Option<(ThreadId, Put)>,
    line: &mut Line,
    from: usize,
) -> usize
    requires { from + 64 ≤ ROOM }
    ensures text { take result line.new ≡ take from line.old ++ (word_chan work.now (codes "rouse") k ++ codes " " ++ woken_text work.now woken) }
    ensures within { result ≤ from + 64 }
{
    let from = put_word_chan(work, b"rouse", k, line, from);
    let from = put_bytes(b" ", line, from);
    put_woken(work, woken, line, from)
}

fn put_will(
    work: &Work,
    l: LockId,
    o: ThreadId,
    p: u8,
    at: Option<Put>,
    line: &mut Line,
    from: usize,
) -> usize
    requires { from + 67 ≤ ROOM }
    ensures text { take result line.new ≡ take from line.old ++ (word_thread work.now (word_lock work.now (codes "will") l) o ++ codes " " ++ decimal p ++ put_text_if at) }
    ensures within { result ≤ from + 67 }
{
    let from = put_lock_thread(work, b"will", l, o, line, from);
    let from = put_space_small(p, line, from);
    put_place_if(at, line, from)
}

fn put_prio(
    work: &Work,
    t: ThreadId,
    u: ThreadId,
    answer: PrioAnswer,
    line: &mut Line,
    from: usize,
) -> usize
    requires { from + 70 ≤ ROOM }
    ensures text { take result line.new ≡ take from line.old ++ (word_thread work.now (word_thread work.now (codes "prio") t) u ++ codes " " ++ prio_text answer) }
    ensures within { result ≤ from + 70 }
{
    let from = put_two_threads(work, b"prio", t, u, line, from);
    let from = put_bytes(b" ", line, from);
    put_prio_answer(answer, line, from)
}

fn put_cv_wait(
    work: &Work,
    t: ThreadId,
    k: ChanId,
    l: LockId,
    line: &mut Line,
    from: usize,
) -> usize
    requires { from + 57 ≤ ROOM }
    ensures text { take result line.new ≡ take from line.old ++ word_lock work.now (word_chan work.now (word_thread work.now (codes "cvwait") t) k) l }
    ensures within { result ≤ from + 57 }
{
    let from = put_thread_chan(work, b"cvwait", t, k, line, from);
    put_space_lock(work, l, line, from)
}

fn put_sema_wake(
    work: &Work,
    t: ThreadId,
    k: ChanId,
    u: ThreadId,
    at: Put,
    line: &mut Line,
    from: usize,
) -> usize
    requires { from + 81 ≤ ROOM }
    ensures text { take result line.new ≡ take from line.old ++ (word_thread work.now (word_chan work.now (word_thread work.now (codes "semav") t) k) u ++ put_text at) }
    ensures within { result ≤ from + 81 }
{
    let from = put_thread_chan(work, b"semav", t, k, line, from);
    let from = put_space_thread(work, u, line, from);
    put_place(at, line, from)
}

fn put_sema_count(
    work: &Work,
    t: ThreadId,
    k: ChanId,
    count: u32,
    line: &mut Line,
    from: usize,
) -> usize
    requires { from + 60 ≤ ROOM }
    ensures text { take result line.new ≡ take from line.old ++ (word_chan work.now (word_thread work.now (codes "semav") t) k ++ codes " " ++ decimal count) }
    ensures within { result ≤ from + 60 }
{
    let from = put_thread_chan(work, b"semav", t, k, line, from);
    put_space_number(u64::from(count), line, from)
}

/// ` c7 s`: a processor and a set.
fn put_cpu_and_set(work: &Work, cpu: CpuId, set: SetId, line: &mut Line, from: usize) -> usize
    requires { from + 39 ≤ ROOM }
    ensures text { take result line.new ≡ take from line.old ++ (codes " " ++ cpu_text cpu ++ codes " " ++ set_name work.now set.0) }
    ensures within { result ≤ from + 39 }
{
    let from = put_bytes(b" ", line, from);
    let from = put_cpu(cpu, line, from);
    let from = put_bytes(b" ", line, from);
    put_bytes(set_name(work, set), line, from)
}

fn put_assign(
    work: &Work,
    t: ThreadId,
    cpu: CpuId,
    set: SetId,
    answer: AssignAnswer,
    line: &mut Line,
    from: usize,
) -> usize
    requires { from + 69 ≤ ROOM }
    ensures text { take result line.new ≡ take from line.old ++ (word_thread work.now (codes "assign") t ++ codes " " ++ cpu_text cpu ++ codes " " ++ set_name work.now set.0 ++ codes " " ++ assign_text answer) }
    ensures within { result ≤ from + 69 }
{
    let from = put_word_thread(work, b"assign", t, line, from);
    let from = put_cpu_and_set(work, cpu, set, line, from);
    let from = put_bytes(b" ", line, from);
    put_bytes(assign_word(answer), line, from)
}

fn put_joined(work: &Work, set: SetId, line: &mut Line, from: usize) -> usize
    requires { from + 23 ≤ ROOM }
    ensures text { take result line.new ≡ take from line.old ++ (codes "joined " ++ set_name work.now set.0) }
    ensures within { result ≤ from + 23 }
{
    let from = put_bytes(b"joined ", line, from);
    put_bytes(set_name(work, set), line, from)
}

/// ` c7 ok`: a processor and the answer of a binding to it.
fn put_cpu_and_answer(cpu: Option<CpuId>, answer: BindAnswer, line: &mut Line, from: usize) -> usize
    requires { from + 50 ≤ ROOM }
    ensures text { take result line.new ≡ take from line.old ++ (codes " " ++ cpu_text_if cpu ++ codes " " ++ bind_text answer) }
    ensures within { result ≤ from + 50 }
{
    let from = put_bytes(b" ", line, from);
    let from = put_cpu_if(cpu, line, from);
    let from = put_bytes(b" ", line, from);
    put_bind_answer(answer, line, from)
}

fn put_bind(
    work: &Work,
    t: ThreadId,
    u: ThreadId,
    cpu: Option<CpuId>,
    answer: BindAnswer,
    line: &mut Line,
    from: usize,
) -> usize
    requires { from + 90 ≤ ROOM }
    ensures text { take result line.new ≡ take from line.old ++ (word_thread work.now (word_thread work.now (codes "pbind") t) u ++ codes " " ++ cpu_text_if cpu ++ codes " " ++ bind_text answer) }
    ensures within { result ≤ from + 90 }
{
    let from = put_two_threads(work, b"pbind", t, u, line, from);
    put_cpu_and_answer(cpu, answer, line, from)
}

#[inline(always)]
fn put_idle(line: &mut Line, from: usize) -> usize
    requires { from + 4 ≤ ROOM }
    ensures text { take result line.new ≡ take from line.old ++ codes "idle" }
    ensures within { result ≤ from + 4 }
{
    let from = put_two(b'i', b'd', line, from);
    put_two(b'l', b'e', line, from)
}

/// The text of the event. In the place of a call the two most frequent events are put without asking what else an event is.
#[inline(always)]
pub(crate) fn put_frequent_event(work: &Work, event: &Event, line: &mut Line, from: usize) -> usize
    requires { from + 100 ≤ ROOM }
    ensures text { take result line.new ≡ take from line.old ++ event_text work.now event.now }
    ensures within { result ≤ from + 100 }
{
    match *event {
        Event::Idle => put_idle(line, from),
        Event::Tick { t } => put_word_thread(work, b"tick", t, line, from),
        _ => put_event(work, event, line, from),
    }
}

/// The text of the event.
#[inline(never)]
fn put_event(work: &Work, event: &Event, line: &mut Line, from: usize) -> usize
    requires { from + 100 ≤ ROOM }
    ensures text { take result line.new ≡ take from line.old ++ event_text work.now event.now }
    ensures within { result ≤ from + 100 }
{
    match *event {
        Event::Tick { t } => put_word_thread(work, b"tick", t, line, from),
        Event::Spin { t, l } => put_thread_lock(work, b"spin", t, l, line, from),
        Event::Idle => put_idle(line, from),
        Event::Dispatch { t, p } => put_thread_number(work, b"dispatch", t, p, line, from),
        Event::Steal { victim, t, p } => put_steal(work, victim, t, p, line, from),
        Event::Preempt { t, end } => put_preempt(work, t, end, line, from),
        Event::Yield { t } => put_word_thread(work, b"yield", t, line, from),
        Event::Done { t } => put_word_thread(work, b"done", t, line, from),
        Event::Nap { t } => put_word_thread(work, b"nap", t, line, from),
        Event::Napend { t, at } => put_thread_place(work, b"napend", t, at, line, from),
        Event::Sleep { t, k } => put_thread_chan(work, b"sleep", t, k, line, from),
        Event::Wake { t, k, woken } => put_wake(work, t, k, woken, line, from),
        Event::Wakeall { t, k } => put_thread_chan(work, b"wakeall", t, k, line, from),
        Event::Rouse { k, woken } => put_rouse(work, k, woken, line, from),
        Event::Enter { t, l } => put_thread_lock(work, b"enter", t, l, line, from),
        Event::Read { t, l } => put_thread_lock(work, b"read", t, l, line, from),
        Event::Write { t, l } => put_thread_lock(work, b"write", t, l, line, from),
        Event::Block { t, l } => put_thread_lock(work, b"block", t, l, line, from),
        Event::Will { l, o, p, at } => put_will(work, l, o, p, at, line, from),
        Event::End { l } => put_word_lock(work, b"end", l, line, from),
        Event::Exit { t, l } => put_thread_lock(work, b"exit", t, l, line, from),
        Event::Unblock { l, u, at } => put_lock_place(work, b"unblock", l, u, at, line, from),
        Event::Grant { l, u, at } => put_lock_place(work, b"grant", l, u, at, line, from),
        Event::Passed { l } => put_word_lock(work, b"passed", l, line, from),
        Event::Age { t, p } => put_thread_number(work, b"age", t, p, line, from),
        Event::Prio { t, u, answer } => put_prio(work, t, u, answer, line, from),
        Event::CvWait { t, k, l } => put_cv_wait(work, t, k, l, line, from),
        Event::SemaP { t, k } => put_thread_chan(work, b"semap", t, k, line, from),
        Event::SemaWait { t, k } => put_thread_chan(work, b"semawait", t, k, line, from),
        Event::SemaVWake { t, k, u, at } => put_sema_wake(work, t, k, u, at, line, from),
        Event::SemaVCount { t, k, count } => put_sema_count(work, t, k, count, line, from),
        Event::Assign {
            t,
            cpu,
            set,
            answer,
        } => put_assign(work, t, cpu, set, answer, line, from),
        Event::Move { t, at } => put_thread_place(work, b"move", t, at, line, from),
        Event::Joined { set } => put_joined(work, set, line, from),
        Event::Bind { t, u, cpu, answer } => put_bind(work, t, u, cpu, answer, line, from),
        Event::Away { t, cpu } => put_away(work, t, cpu, line, from),
    }
}
