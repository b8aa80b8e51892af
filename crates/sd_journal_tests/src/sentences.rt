//! A sentence on each kind of event, written by hand over one state.

use crate::given::{Judged, in_place, judge, state};
use arrayvec::ArrayVec;
use sd_state::{CpuState, LockState, Place, State, ThreadState};
use sd_story::put_sentence;
use sd_types::{
    AssignAnswer, BindAnswer, ChanId, ClassState, CpuId, Denied, Duty, End, Event, List, LockId,
    PrioAnswer, Put, SetId, Side, ThreadId, TsState, Work,
};
use std::alloc::{AllocError, Global};

/// Threads a, b and c, mutexes m, n and p, a rwlock w, a channel k, a semaphore q and a set s. The script of b naps for 5 ticks.
pub(crate) const NAMED: &[u8] =
    b"cpus 2\nlimit 9\nset s 1\nmutex m\nmutex n\nmutex p\nrwlock w\nchan k\nsema q 3\nthread a sys 60\nthread b sys 60\nthread c ts 20 0 0\nscript b\nnap 5\nend\n";

const A: ThreadId = ThreadId(0);

const B: ThreadId = ThreadId(1);

const C: ThreadId = ThreadId(2);

const M: LockId = LockId(0);

const N: LockId = LockId(1);

const P: LockId = LockId(2);

const W: LockId = LockId(3);

const K: ChanId = ChanId(0);

const Q: ChanId = ChanId(1);

const C0: CpuId = CpuId(0);

const C1: CpuId = CpuId(1);

const TO: Put = Put::Cpu(CpuId(1));

const RT: Put = Put::RealTime(CpuId(0));

/// Thread a owns m, for which b waits with priority 60, and inherits 110 through it.
fn owner() -> ThreadState {
    let mut willed = ArrayVec::new();
    willed.push((M, 110));
    let mut thread = in_place(Place::Running(C0));
    thread.body.willed = willed;
    thread
}

/// Thread c, of the time-sharing class at priority 20, is at the last tick of its quantum.
fn sharer() -> ThreadState {
    let mut thread = in_place(Place::Running(C1));
    thread.body.class = ClassState::Ts(TsState {
        cpupri: 20,
        limit: 0,
        upri: 0,
        left: 1,
        wait: 0,
    });
    thread
}

fn cpu_at(count: u32) -> CpuState {
    CpuState {
        count,
        user: false,
        kernel: false,
        duty: Duty::Nothing,
        set: SetId(0),
        closing: None,
        bound: 0,
    }
}

fn put_threads(alloc: Global, s: &mut State) -> Result<(), AllocError> {
    let second = in_place(Place::Waiting(M, Side::Writer, 0));
    s.threads = List::from_vec(Vec::from_array(alloc, [owner(), second, sharer()])?);
    Ok(())
}

/// m is owned by a, n is free, p is being handed over, and readers hold w.
const LOCKS: [LockState; 4] = [
    LockState::Owned(A),
    LockState::Free,
    LockState::Passing {
        cpu: C0,
        readers: 0,
    },
    LockState::ReadHeld(1),
];

fn put_locks(alloc: Global, s: &mut State) -> Result<(), AllocError> {
    s.locks = List::from_vec(Vec::from_array(alloc, LOCKS)?);
    Ok(())
}

/// Processors 0 and 1 have counted 7 and 8 ticks.
fn put_cpus(alloc: Global, s: &mut State) -> Result<(), AllocError> {
    s.cpus = List::from_vec(Vec::from_array(alloc, [cpu_at(7), cpu_at(8)])?);
    Ok(())
}

/// The count of q is 3; k is no semaphore.
fn put_counts(alloc: Global, s: &mut State) -> Result<(), AllocError> {
    s.counts = List::from_vec(Vec::from_array(alloc, [0, 3])?);
    Ok(())
}

/// Puts into an empty state what it is given.
fn fill(alloc: Global, s: &mut State) -> Result<(), AllocError> {
    put_threads(alloc, s)?;
    put_locks(alloc, s)?;
    put_cpus(alloc, s)?;
    put_counts(alloc, s)
}

/// Events of running, of naps, sleeps and wakeups, and the sentence on each where processor 0 makes it.
const EARLY: [(Event, &str); 25] = [
    (Event::Tick { t: A }, "a runs for a tick"),
    (
        Event::Tick { t: C },
        "c runs for a tick, the last of its quantum",
    ),
    (
        Event::Spin { t: C, l: M },
        "c spins for m: its owner a runs",
    ),
    (
        Event::Spin { t: C, l: P },
        "c spins for p, which is being handed over",
    ),
    (Event::Idle, "processor 0 has nothing to run"),
    (
        Event::Dispatch { t: A, p: 110 },
        "processor 0 dispatches a at priority 110",
    ),
    (
        Event::Steal {
            victim: C1,
            t: C,
            p: 20,
        },
        "processor 0 steals c at priority 20 from the queue of processor 1",
    ),
    (
        Event::Preempt {
            t: A,
            end: End::Front,
        },
        "a is preempted, and goes to the front of its queue",
    ),
    (
        Event::Preempt {
            t: C,
            end: End::Back,
        },
        "c is preempted at the end of its quantum, and goes to the back of its queue",
    ),
    (
        Event::Away { t: A, cpu: C1 },
        "a leaves for processor 1, to which it is bound",
    ),
    (
        Event::Yield { t: A },
        "a yields, and goes to the back of its queue",
    ),
    (Event::Done { t: C }, "c comes to the end of its script"),
    (Event::Nap { t: B }, "b naps until tick 12"),
    (
        Event::Napend { t: B, at: TO },
        "a nap is over: b is runnable on the queue of processor 1",
    ),
    (Event::Sleep { t: A, k: K }, "a sleeps on k"),
    (
        Event::Wake {
            t: A,
            k: K,
            woken: Some((B, RT)),
        },
        "a wakes the best that sleeps on k: b is runnable on the real-time queue, for processor 0",
    ),
    (
        Event::Wake {
            t: A,
            k: K,
            woken: None,
        },
        "a finds nobody asleep on k: the wakeup is lost",
    ),
    (
        Event::Wakeall { t: A, k: K },
        "a wakes all that sleep on k: processor 0 is to rouse them one by one",
    ),
    (
        Event::Rouse {
            k: K,
            woken: Some((B, TO)),
        },
        "processor 0 rouses the best that sleeps on k: b is runnable on the queue of processor 1",
    ),
    (
        Event::Rouse { k: K, woken: None },
        "processor 0 finds nobody left to rouse on k",
    ),
    (
        Event::CvWait { t: A, k: K, l: M },
        "a gives up m and sleeps on k",
    ),
    (
        Event::SemaP { t: A, k: Q },
        "a takes one from q, whose count falls from 3 to 2",
    ),
    (
        Event::SemaWait { t: A, k: K },
        "a sleeps on k, whose count is 0",
    ),
    (
        Event::SemaVWake {
            t: A,
            k: Q,
            u: B,
            at: TO,
        },
        "a gives to q, and the best that sleeps on it takes it: b is runnable on the queue of processor 1",
    ),
    (
        Event::SemaVCount {
            t: A,
            k: Q,
            count: 4,
        },
        "a gives to q, on which nobody sleeps: its count is 4",
    ),
];

/// Events of locks, classes, sets and bindings, and the sentence on each where processor 0 makes it.
const LATE: [(Event, &str); 25] = [
    (Event::Enter { t: C, l: N }, "c takes the mutex n"),
    (Event::Read { t: C, l: W }, "c takes w to read"),
    (Event::Write { t: C, l: W }, "c takes w to write"),
    (
        Event::Block { t: C, l: M },
        "c blocks on m, which a owns: it is to inherit 60",
    ),
    (
        Event::Block { t: C, l: W },
        "c blocks on w, which readers hold",
    ),
    (
        Event::Will {
            l: M,
            o: C,
            p: 60,
            at: None,
        },
        "c inherits through m: its priority rises from 20 to 60",
    ),
    (
        Event::Will {
            l: M,
            o: A,
            p: 60,
            at: Some(TO),
        },
        "a inherits through m: its priority falls from 110 to 60; it is queued again on the queue of processor 1",
    ),
    (
        Event::Will {
            l: M,
            o: A,
            p: 110,
            at: None,
        },
        "a inherits through m: its priority stays 110",
    ),
    (
        Event::End { l: W },
        "the walk ends at w, which readers hold",
    ),
    (Event::End { l: N }, "the walk ends at n, which is free"),
    (
        Event::End { l: P },
        "the walk ends at p, which is being handed over",
    ),
    (
        Event::Exit { t: A, l: M },
        "a gives up m, for which others wait; its priority falls from 110 to 60",
    ),
    (
        Event::Exit { t: C, l: N },
        "c gives up n, for which nobody waits",
    ),
    (
        Event::Unblock { l: M, u: B, at: TO },
        "processor 0 wakes the best that waits for m: b is runnable on the queue of processor 1",
    ),
    (
        Event::Grant { l: W, u: B, at: TO },
        "processor 0 hands w over: b is runnable on the queue of processor 1",
    ),
    (
        Event::Passed { l: W },
        "no reader is left to whom w is to be handed",
    ),
    (
        Event::Age { t: C, p: 52 },
        "c has waited a second more: its priority rises from 20 to 52",
    ),
    (
        Event::Prio {
            t: A,
            u: C,
            answer: PrioAnswer::Changed { p: 24, at: None },
        },
        "a sets the class or priority of c, whose priority rises from 20 to 24",
    ),
    (
        Event::Prio {
            t: C,
            u: A,
            answer: PrioAnswer::Refused(Denied::EPERM),
        },
        "c sets the class or priority of a: it may not (EPERM)",
    ),
    (
        Event::Assign {
            t: A,
            cpu: C1,
            set: SetId(1),
            answer: AssignAnswer::Changed,
        },
        "a assigns processor 1 to the set s: it closes",
    ),
    (
        Event::Assign {
            t: A,
            cpu: C1,
            set: SetId(0),
            answer: AssignAnswer::EINVAL,
        },
        "a assigns processor 1 to the default partition: it is there already (EINVAL)",
    ),
    (
        Event::Move { t: B, at: TO },
        "processor 0 is closing, and sends a thread away: b is runnable on the queue of processor 1",
    ),
    (
        Event::Joined { set: SetId(1) },
        "processor 0 is empty, and joins the set s",
    ),
    (
        Event::Bind {
            t: A,
            u: B,
            cpu: Some(C1),
            answer: BindAnswer::Changed { at: None },
        },
        "a binds b to processor 1",
    ),
    (
        Event::Bind {
            t: A,
            u: B,
            cpu: None,
            answer: BindAnswer::ESRCH,
        },
        "a unbinds b: that thread has ended (ESRCH)",
    ),
];

/// That is the sentence on an event that processor 0 makes.
fn is_said(
    alloc: Global,
    work: &Work,
    s: &State,
    event: &Event,
    text: &str,
) -> Result<bool, AllocError> {
    let mut out = Vec::new(alloc);
    put_sentence(work, s, C0, event, &mut out)?;
    Ok(out.as_slice() == text.as_bytes())
}

/// One half of the sentences.
#[derive(Clone, Copy)]
pub(crate) enum Half {
    Early,
    Late,
}

fn said(half: Half) -> &'static [(Event, &'static str); 25] {
    match half {
        Half::Early => &EARLY,
        Half::Late => &LATE,
    }
}

/// The first sentence of that half that is another over this state.
fn first_wrong(
    alloc: Global,
    work: &Work,
    s: &State,
    half: Half,
) -> Result<Option<&'static str>, AllocError> {
    for row in said(half) {
        let (event, text) = *row;
        if !is_said(alloc, work, s, &event, text)? {
            return Ok(Some(text));
        }
    }
    Ok(None)
}

/// The first sentence of that half that is another over the state, which is empty at first.
fn wrong_over(
    alloc: Global,
    work: &Work,
    s: &mut State,
    half: Half,
) -> Result<Option<&'static str>, AllocError> {
    fill(alloc, s)?;
    first_wrong(alloc, work, s, half)
}

/// The first sentence of that half that is another.
pub(crate) fn wrong_sentence(
    alloc: Global,
    work: &Work,
    half: Half,
) -> Result<Option<&'static str>, AllocError> {
    let mut s = state(alloc, Vec::new(alloc), Vec::new(alloc), Vec::new(alloc));
    wrong_over(alloc, work, &mut s, half)
}

#[test]
fn sentences_on_running_and_sleeping(rt: HostRuntime) {
    judge(&rt, Judged::EarlySentences);
}

#[test]
fn sentences_on_locks_and_requests(rt: HostRuntime) {
    judge(&rt, Judged::LateSentences);
}
