//! A line of each event, written by hand.

use crate::given::{Texts, judge};
use arrayvec::ArrayVec;
use sd_entries::write_entry;
use sd_types::{
    AssignAnswer, BindAnswer, ChanId, CpuId, Denied, End, Entry, Event, Hints, LockId, PrioAnswer,
    Put, SetId, ThreadId, Which, Work,
};
use std::alloc::{AllocError, Global};

const A: ThreadId = ThreadId(0);

const B: ThreadId = ThreadId(1);

const M: LockId = LockId(0);

const W: LockId = LockId(1);

const K: ChanId = ChanId(0);

const Q: ChanId = ChanId(1);

const TO: Put = Put::Cpu(CpuId(10));

const RT: Put = Put::RealTime(CpuId(0));

/// Whether that is the line: these words, the text and a newline.
fn is_line(line: &[u8], words: &[u8], text: &[u8]) -> bool {
    match line.split_last() {
        Some((last, rest)) => {
            *last == b'\n'
                && rest.starts_with(words)
                && rest.ends_with(text)
                && rest.len() == words.len() + text.len()
        }
        None => false,
    }
}

/// The line of the entry is that.
fn is_written(
    alloc: Global,
    work: &Work,
    entry: &Entry,
    words: &[u8],
    text: &[u8],
) -> Result<bool, AllocError> {
    let mut out = Vec::new(alloc);
    write_entry(work, entry, &mut out)?;
    Ok(is_line(&out, words, text))
}

/// An entry of processor 10 that has read no numbers.
fn third(event: Event) -> Entry {
    Entry {
        number: 3,
        cpu: CpuId(10),
        event,
        hints: None,
    }
}

/// The entry of the greatest number, of processor 0, that has read no numbers.
fn last(event: Event) -> Entry {
    Entry {
        number: u64::MAX,
        cpu: CpuId(0),
        event,
        hints: None,
    }
}

fn hints(which: Which, list: &[u8]) -> Hints {
    let mut numbers = ArrayVec::new();
    let _ = numbers.try_extend_from_slice(list);
    Hints { which, numbers }
}

/// Events that answer no call and name no set, and their texts.
const PLAIN_EVENTS: [(Event, &str); 29] = [
    (Event::Tick { t: A }, "tick a"),
    (Event::Spin { t: B, l: M }, "spin b m"),
    (Event::Idle, "idle"),
    (Event::Dispatch { t: A, p: 159 }, "dispatch a 159"),
    (
        Event::Preempt {
            t: A,
            end: End::Front,
        },
        "preempt a front",
    ),
    (
        Event::Preempt {
            t: B,
            end: End::Back,
        },
        "preempt b back",
    ),
    (
        Event::Away {
            t: A,
            cpu: CpuId(11),
        },
        "preempt a away c11",
    ),
    (Event::Yield { t: A }, "yield a"),
    (Event::Done { t: B }, "done b"),
    (Event::Nap { t: A }, "nap a"),
    (Event::Napend { t: A, at: TO }, "napend a to c10"),
    (Event::Sleep { t: A, k: K }, "sleep a k"),
    (
        Event::Wake {
            t: B,
            k: K,
            woken: Some((A, RT)),
        },
        "wake b k a rt c0",
    ),
    (
        Event::Wake {
            t: B,
            k: K,
            woken: None,
        },
        "wake b k none",
    ),
    (Event::Wakeall { t: A, k: K }, "wakeall a k"),
    (
        Event::Rouse {
            k: K,
            woken: Some((B, TO)),
        },
        "rouse k b to c10",
    ),
    (Event::Rouse { k: K, woken: None }, "rouse k none"),
    (Event::Enter { t: A, l: M }, "enter a m"),
    (Event::Read { t: A, l: W }, "read a w"),
    (Event::Write { t: A, l: W }, "write a w"),
    (Event::Block { t: B, l: M }, "block b m"),
    (
        Event::Will {
            l: M,
            o: A,
            p: 7,
            at: None,
        },
        "will m a 7",
    ),
    (
        Event::Will {
            l: M,
            o: A,
            p: 110,
            at: Some(RT),
        },
        "will m a 110 rt c0",
    ),
    (Event::End { l: W }, "end w"),
    (Event::Exit { t: A, l: M }, "exit a m"),
    (Event::Unblock { l: M, u: B, at: TO }, "unblock m b to c10"),
    (Event::Grant { l: W, u: B, at: RT }, "grant w b rt c0"),
    (Event::Passed { l: W }, "passed w"),
    (Event::Age { t: A, p: 51 }, "age a 51"),
];

/// The text of the first plain event whose line is another.
pub(crate) fn wrong_event(alloc: Global, work: &Work) -> Result<Option<&'static str>, AllocError> {
    for row in &PLAIN_EVENTS {
        let (event, text) = *row;
        if !is_written(alloc, work, &third(event), b"3 c10 ", text.as_bytes())? {
            return Ok(Some(text));
        }
    }
    Ok(None)
}

#[test]
fn events_without_hints(rt: HostRuntime) {
    judge(&rt, Texts::PlainEvents);
}

/// Events that answer a call, or name a semaphore or a set, and their texts.
const ANSWERS: [(Event, &str); 23] = [
    (
        Event::Prio {
            t: A,
            u: B,
            answer: PrioAnswer::Changed { p: 3, at: None },
        },
        "prio a b ok 3",
    ),
    (
        Event::Prio {
            t: A,
            u: B,
            answer: PrioAnswer::Changed {
                p: 24,
                at: Some(TO),
            },
        },
        "prio a b ok 24 to c10",
    ),
    (
        Event::Prio {
            t: A,
            u: B,
            answer: PrioAnswer::Refused(Denied::ESRCH),
        },
        "prio a b ESRCH",
    ),
    (
        Event::Prio {
            t: A,
            u: B,
            answer: PrioAnswer::Refused(Denied::EINVAL),
        },
        "prio a b EINVAL",
    ),
    (
        Event::Prio {
            t: A,
            u: B,
            answer: PrioAnswer::Refused(Denied::EPERM),
        },
        "prio a b EPERM",
    ),
    (Event::CvWait { t: A, k: K, l: M }, "cvwait a k m"),
    (Event::SemaP { t: A, k: Q }, "semap a q"),
    (Event::SemaWait { t: B, k: Q }, "semawait b q"),
    (
        Event::SemaVWake {
            t: A,
            k: Q,
            u: B,
            at: TO,
        },
        "semav a q b to c10",
    ),
    (
        Event::SemaVCount {
            t: A,
            k: Q,
            count: 65_535,
        },
        "semav a q 65535",
    ),
    (
        Event::Assign {
            t: A,
            cpu: CpuId(1),
            set: SetId(1),
            answer: AssignAnswer::Changed,
        },
        "assign a c1 s ok",
    ),
    (
        Event::Assign {
            t: A,
            cpu: CpuId(1),
            set: SetId(0),
            answer: AssignAnswer::EPERM,
        },
        "assign a c1 - EPERM",
    ),
    (
        Event::Assign {
            t: A,
            cpu: CpuId(1),
            set: SetId(0),
            answer: AssignAnswer::EINVAL,
        },
        "assign a c1 - EINVAL",
    ),
    (
        Event::Assign {
            t: A,
            cpu: CpuId(1),
            set: SetId(0),
            answer: AssignAnswer::EBUSY,
        },
        "assign a c1 - EBUSY",
    ),
    (Event::Move { t: A, at: RT }, "move a rt c0"),
    (Event::Joined { set: SetId(1) }, "joined s"),
    (Event::Joined { set: SetId(0) }, "joined -"),
    (
        Event::Bind {
            t: A,
            u: B,
            cpu: Some(CpuId(1)),
            answer: BindAnswer::Changed { at: None },
        },
        "pbind a b c1 ok",
    ),
    (
        Event::Bind {
            t: A,
            u: B,
            cpu: None,
            answer: BindAnswer::Changed { at: Some(RT) },
        },
        "pbind a b - ok rt c0",
    ),
    (
        Event::Bind {
            t: A,
            u: B,
            cpu: None,
            answer: BindAnswer::ESRCH,
        },
        "pbind a b - ESRCH",
    ),
    (
        Event::Bind {
            t: A,
            u: B,
            cpu: None,
            answer: BindAnswer::EINVAL,
        },
        "pbind a b - EINVAL",
    ),
    (
        Event::Bind {
            t: A,
            u: B,
            cpu: Some(CpuId(10)),
            answer: BindAnswer::EPERM,
        },
        "pbind a b c10 EPERM",
    ),
    (
        Event::Bind {
            t: A,
            u: B,
            cpu: Some(CpuId(1)),
            answer: BindAnswer::EBUSY,
        },
        "pbind a b c1 EBUSY",
    ),
];

/// The text of the first answer whose line is another.
pub(crate) fn wrong_answer(alloc: Global, work: &Work) -> Result<Option<&'static str>, AllocError> {
    let words = b"18446744073709551615 c0 ";
    for row in &ANSWERS {
        let (event, text) = *row;
        if !is_written(alloc, work, &last(event), words, text.as_bytes())? {
            return Ok(Some(text));
        }
    }
    Ok(None)
}

#[test]
fn answers_and_sets(rt: HostRuntime) {
    judge(&rt, Texts::Answers);
}

/// An entry that has read these numbers.
fn read(number: u64, cpu: u16, event: Event, which: Which, list: &[u8]) -> Entry {
    Entry {
        number,
        cpu: CpuId(cpu),
        event,
        hints: Some(hints(which, list)),
    }
}

/// Writes the lines of three entries that have read numbers.
fn write_three(work: &Work, out: &mut Vec<u8>) -> Result<(), AllocError> {
    let steal = Event::Steal {
        victim: CpuId(0),
        t: A,
        p: 29,
    };
    write_entry(work, &read(6, 2, steal, Which::Queued, &[30]), out)?;
    let idle = read(7, 3, Event::Idle, Which::Queued, &[0, 160, 7]);
    write_entry(work, &idle, out)?;
    let rouse = Event::Rouse {
        k: K,
        woken: Some((B, TO)),
    };
    write_entry(work, &read(8, 0, rouse, Which::Running, &[0, 1]), out)
}

/// What is wrong with the lines of those entries, which are written behind what the text had.
pub(crate) fn wrong_numbers(
    alloc: Global,
    work: &Work,
) -> Result<Option<&'static str>, AllocError> {
    let mut out = Vec::from_slice(alloc, b"5 c0 done a\n")?;
    write_three(work, &mut out)?;
    if out.as_slice() == THREE {
        Ok(None)
    } else {
        Ok(Some("the lines of three entries"))
    }
}

const THREE: &[u8] =
    b"5 c0 done a\n6 c2 steal c0 a 29 h 30\n7 c3 idle h 0,160,7\n8 c0 rouse k b to c10 h 0,1\n";

#[test]
fn numbers_that_were_read(rt: HostRuntime) {
    judge(&rt, Texts::Numbers);
}
