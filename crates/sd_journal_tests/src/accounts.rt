//! Accounts of entries that were written down by hand, and their texts.

use crate::given::{Judged, in_place, judge, state};
use sd_accounts::Accounts;
use sd_state::{LockState, Place, State};
use sd_types::{ChanId, CpuId, End, Entry, Event, LockId, Put, SetId, Side, ThreadId, Work};
use std::alloc::{AllocError, Global};

const A: ThreadId = ThreadId(0);

const B: ThreadId = ThreadId(1);

const M: LockId = LockId(0);

const W: LockId = LockId(1);

const K: ChanId = ChanId(0);

const TO: Put = Put::Cpu(CpuId(0));

/// Two processors, two threads a and b, a mutex m, a rwlock w and a channel k.
pub(crate) const SMALL: &[u8] =
    b"cpus 2\nlimit 2\nmutex m\nrwlock w\nchan k\nthread a sys 60\nthread b sys 60\n";

/// The two threads in these places, and the locks owned by b and by a.
fn in_places(alloc: Global, first: Place, second: Place) -> Result<State, AllocError> {
    let threads = Vec::from_array(alloc, [in_place(first), in_place(second)])?;
    let locks = Vec::from_array(alloc, [LockState::Owned(B), LockState::Owned(A)])?;
    Ok(state(alloc, threads, locks, Vec::new(alloc)))
}

/// Counts an entry of this processor.
fn count(accounts: &mut Accounts, number: u64, cpu: u16, event: Event) {
    accounts.add(&Entry {
        number,
        cpu: CpuId(cpu),
        event,
        hints: None,
    });
}

/// Counts an event of each kind that counts but wakeups and what locks do.
fn count_running(accounts: &mut Accounts) {
    count(accounts, 0, 0, Event::Dispatch { t: A, p: 60 });
    count(accounts, 1, 0, Event::Tick { t: A });
    count(accounts, 2, 1, Event::Idle);
    let victim = CpuId(0);
    count(
        accounts,
        3,
        1,
        Event::Steal {
            victim,
            t: B,
            p: 60,
        },
    );
    count(accounts, 4, 1, Event::Spin { t: B, l: M });
}

/// Counts a sleep, and wakeups of one thread and of none.
fn count_sleeping(accounts: &mut Accounts) {
    let woken = Some((B, TO));
    count(accounts, 5, 1, Event::Sleep { t: B, k: K });
    count(accounts, 6, 0, Event::Wake { t: A, k: K, woken });
    let none = Event::Wake {
        t: A,
        k: K,
        woken: None,
    };
    count(accounts, 7, 0, none);
    count(accounts, 8, 0, Event::Rouse { k: K, woken });
    count(accounts, 9, 0, Event::Rouse { k: K, woken: None });
}

/// Counts the other events by which a thread becomes runnable.
fn count_waking(accounts: &mut Accounts) {
    let at = TO;
    count(accounts, 10, 1, Event::Napend { t: B, at });
    count(accounts, 11, 1, Event::Unblock { l: M, u: A, at });
    count(accounts, 12, 1, Event::Grant { l: W, u: B, at });
    let given = Event::SemaVWake {
        t: A,
        k: K,
        u: B,
        at,
    };
    count(accounts, 13, 1, given);
}

/// Counts preemptions and a block with its walk, and two ticks of the other processor.
fn count_leaving(accounts: &mut Accounts) {
    let end = End::Back;
    count(accounts, 14, 0, Event::Preempt { t: A, end });
    let cpu = CpuId(1);
    count(accounts, 15, 0, Event::Away { t: A, cpu });
    count(accounts, 16, 0, Event::Block { t: A, l: M });
    let will = Event::Will {
        l: M,
        o: B,
        p: 60,
        at: None,
    };
    count(accounts, 17, 0, will);
    count(accounts, 18, 1, Event::Idle);
    count(accounts, 19, 1, Event::Tick { t: B });
}

const TEXT: &[u8] =
    b"accounts\nthread a ticks 1 dispatches 1 preempts 2 wakes 1 waiting m\nthread b ticks 2 dispatches 1 preempts 0 wakes 5 waiting w\ncpu 0 ticks 1 idle 0\ncpu 1 ticks 4 idle 2\ncycle a m b w\n";

const SUMMARY: &[u8] =
    b"entries 20\nticks 5\nidle 2\ndispatches 2\nsteals 1\npreempts 2\nwakes 6\nblocks 1\nwills 1\nended 1\n";

/// The accounts have this text where the threads stand in these places.
fn has_text(
    alloc: Global,
    accounts: &Accounts,
    work: &Work,
    s: &State,
    text: &[u8],
) -> Result<bool, AllocError> {
    let mut out = Vec::new(alloc);
    accounts.write_accounts(alloc, work, s, &mut out)?;
    Ok(out.as_slice() == text)
}

/// The summary of the accounts is this where the threads stand in these places.
fn has_summary(
    alloc: Global,
    accounts: &Accounts,
    s: &State,
    text: &[u8],
) -> Result<bool, AllocError> {
    let mut out = Vec::new(alloc);
    accounts.write_summary(alloc, s, &mut out)?;
    Ok(out.as_slice() == text)
}

/// The accounts of the twenty entries.
fn counted(alloc: Global, work: &Work) -> Result<Accounts, AllocError> {
    let mut accounts = Accounts::new(alloc, work)?;
    count_running(&mut accounts);
    count_sleeping(&mut accounts);
    count_waking(&mut accounts);
    count_leaving(&mut accounts);
    Ok(accounts)
}

/// The accounts where each thread waits for the other.
fn is_cycle_told(alloc: Global, accounts: &Accounts, work: &Work) -> Result<bool, AllocError> {
    let first = Place::Waiting(M, Side::Writer, 0);
    let blocked = in_places(alloc, first, Place::Waiting(W, Side::Reader, 1))?;
    has_text(alloc, accounts, work, &blocked, TEXT)
}

/// The summary where one thread has ended.
fn is_end_told(alloc: Global, accounts: &Accounts) -> Result<bool, AllocError> {
    let ended = in_places(alloc, Place::Ended, Place::Napping(CpuId(0), 7))?;
    has_summary(alloc, accounts, &ended, SUMMARY)
}

/// What is wrong with the two texts.
fn wrong_text(
    alloc: Global,
    accounts: &Accounts,
    work: &Work,
) -> Result<Option<&'static str>, AllocError> {
    if !is_cycle_told(alloc, accounts, work)? {
        return Ok(Some("the accounts"));
    }
    if !is_end_told(alloc, accounts)? {
        return Ok(Some("the summary"));
    }
    Ok(None)
}

/// What is wrong with the texts of the twenty entries.
pub(crate) fn wrong_run(alloc: Global, work: &Work) -> Result<Option<&'static str>, AllocError> {
    let accounts = counted(alloc, work)?;
    wrong_text(alloc, &accounts, work)
}

#[test]
fn a_run_with_a_cycle(rt: HostRuntime) {
    judge(&rt, Judged::Run);
}

/// A place of thread a, and the accounts of no entry where it stands there.
#[derive(Clone, Copy)]
struct Placed {
    place: Place,
    text: &'static str,
}

const PLACES: [Placed; 6] = [
    Placed {
        place: Place::Running(CpuId(1)),
        text: "accounts\nthread a ticks 0 dispatches 0 preempts 0 wakes 0 running\nthread b ticks 0 dispatches 0 preempts 0 wakes 0 ended\ncpu 0 ticks 0 idle 0\ncpu 1 ticks 0 idle 0\n",
    },
    Placed {
        place: Place::Queued(CpuId(0), 4),
        text: "accounts\nthread a ticks 0 dispatches 0 preempts 0 wakes 0 queued\nthread b ticks 0 dispatches 0 preempts 0 wakes 0 ended\ncpu 0 ticks 0 idle 0\ncpu 1 ticks 0 idle 0\n",
    },
    Placed {
        place: Place::RealTime(SetId(0), 4),
        text: "accounts\nthread a ticks 0 dispatches 0 preempts 0 wakes 0 queued\nthread b ticks 0 dispatches 0 preempts 0 wakes 0 ended\ncpu 0 ticks 0 idle 0\ncpu 1 ticks 0 idle 0\n",
    },
    Placed {
        place: Place::Asleep(K, 4),
        text: "accounts\nthread a ticks 0 dispatches 0 preempts 0 wakes 0 asleep k\nthread b ticks 0 dispatches 0 preempts 0 wakes 0 ended\ncpu 0 ticks 0 idle 0\ncpu 1 ticks 0 idle 0\n",
    },
    Placed {
        place: Place::Napping(CpuId(1), 9),
        text: "accounts\nthread a ticks 0 dispatches 0 preempts 0 wakes 0 napping\nthread b ticks 0 dispatches 0 preempts 0 wakes 0 ended\ncpu 0 ticks 0 idle 0\ncpu 1 ticks 0 idle 0\n",
    },
    Placed {
        place: Place::Ended,
        text: "accounts\nthread a ticks 0 dispatches 0 preempts 0 wakes 0 ended\nthread b ticks 0 dispatches 0 preempts 0 wakes 0 ended\ncpu 0 ticks 0 idle 0\ncpu 1 ticks 0 idle 0\n",
    },
];

/// The accounts, which have counted nothing, have this text where thread a stands in this place and b has ended.
fn is_placed(
    alloc: Global,
    accounts: &Accounts,
    work: &Work,
    row: &Placed,
) -> Result<bool, AllocError> {
    let s = in_places(alloc, row.place, Place::Ended)?;
    has_text(alloc, accounts, work, &s, row.text.as_bytes())
}

/// The text of the first place whose accounts are others.
fn wrong_place(
    alloc: Global,
    accounts: &Accounts,
    work: &Work,
) -> Result<Option<&'static str>, AllocError> {
    for row in &PLACES {
        if !is_placed(alloc, accounts, work, row)? {
            return Ok(Some(row.text));
        }
    }
    Ok(None)
}

/// The text of the first place whose accounts of no entry are others.
pub(crate) fn wrong_places(alloc: Global, work: &Work) -> Result<Option<&'static str>, AllocError> {
    let accounts = Accounts::new(alloc, work)?;
    wrong_place(alloc, &accounts, work)
}

#[test]
fn places_of_threads(rt: HostRuntime) {
    judge(&rt, Judged::Places);
}
