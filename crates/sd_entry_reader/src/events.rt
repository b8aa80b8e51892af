//! Events, from the words of their lines.

ghost use Rattle.std.specs.Prelude.{◌≡◌};
ghost use Rattle.sd_entries.specs.Reading.{answering_event, counted_or_woken, event_of, handing_event, locking_event, placing_event, preempting, running_event, semaphore_event, sleeping_event};

use crate::Names;
use crate::cutting::Words;
use crate::lookups::{chan_at, lock_at, set_at, thread_at};
use crate::places::{assign_in, bind_in, end_in, prio_in, put_in, put_in_if, woken_by};
use crate::words::{byte_in, count_in, cpu_in, cpu_in_if, is_word};
use sd_types::{ChanId, Event, Put, ThreadId};

#[tactic(auto, unfolding(sd_entries::specs::Reading::preempting))]
fn preempting(names: &Names<'_>, words: &Words<'_>) -> Event
    ensures { result ≡ preempting names.now.work.now words.now }
{
    let t = thread_at(names, words, 3);
    if is_word(words.word(4), b"away") {
        Event::Away {
            t,
            cpu: cpu_in(words.word(5)),
        }
    } else {
        Event::Preempt {
            t,
            end: end_in(words.word(4)),
        }
    }
}

// A semaphore was raised, or its best sleeper woken.
fn counted_or_woken(t: ThreadId, k: ChanId, u: ThreadId, count: u32, place: Option<Put>) -> Event
    ensures { result ≡ counted_or_woken t k u count place }
{
    match place {
        None => Event::SemaVCount { t, k, count },
        Some(at) => Event::SemaVWake { t, k, u, at },
    }
}

#[tactic(auto, unfolding(sd_entries::specs::Reading::running_event))]
fn running_event(names: &Names<'_>, k: &[u8], words: &Words<'_>) -> Option<Event>
    ensures { result ≡ running_event names.now.work.now k.now words.now }
{
    if is_word(k, b"tick") {
        Some(Event::Tick {
            t: thread_at(names, words, 3),
        })
    } else if is_word(k, b"spin") {
        Some(Event::Spin {
            t: thread_at(names, words, 3),
            l: lock_at(names, words, 4),
        })
    } else if is_word(k, b"dispatch") {
        Some(Event::Dispatch {
            t: thread_at(names, words, 3),
            p: byte_in(words.word(4)),
        })
    } else if is_word(k, b"steal") {
        Some(Event::Steal {
            victim: cpu_in(words.word(3)),
            t: thread_at(names, words, 4),
            p: byte_in(words.word(5)),
        })
    } else if is_word(k, b"yield") {
        Some(Event::Yield {
            t: thread_at(names, words, 3),
        })
    } else if is_word(k, b"done") {
        Some(Event::Done {
            t: thread_at(names, words, 3),
        })
    } else if is_word(k, b"age") {
        Some(Event::Age {
            t: thread_at(names, words, 3),
            p: byte_in(words.word(4)),
        })
    } else {
        None
    }
}

#[tactic(auto, unfolding(sd_entries::specs::Reading::placing_event))]
fn placing_event(names: &Names<'_>, k: &[u8], words: &Words<'_>) -> Option<Event>
    ensures { result ≡ placing_event names.now.work.now k.now words.now }
{
    if is_word(k, b"preempt") {
        Some(preempting(names, words))
    } else if is_word(k, b"nap") {
        Some(Event::Nap {
            t: thread_at(names, words, 3),
        })
    } else if is_word(k, b"napend") {
        Some(Event::Napend {
            t: thread_at(names, words, 3),
            at: put_in(words.word(4), words.word(5)),
        })
    } else if is_word(k, b"move") {
        Some(Event::Move {
            t: thread_at(names, words, 3),
            at: put_in(words.word(4), words.word(5)),
        })
    } else {
        None
    }
}

#[tactic(auto, unfolding(sd_entries::specs::Reading::sleeping_event))]
fn sleeping_event(names: &Names<'_>, k: &[u8], words: &Words<'_>) -> Option<Event>
    ensures { result ≡ sleeping_event names.now.work.now k.now words.now }
{
    if is_word(k, b"sleep") {
        Some(Event::Sleep {
            t: thread_at(names, words, 3),
            k: chan_at(names, words, 4),
        })
    } else if is_word(k, b"wake") {
        Some(Event::Wake {
            t: thread_at(names, words, 3),
            k: chan_at(names, words, 4),
            woken: woken_by(
                thread_at(names, words, 5),
                put_in_if(words.word(6), words.word(7)),
            ),
        })
    } else if is_word(k, b"wakeall") {
        Some(Event::Wakeall {
            t: thread_at(names, words, 3),
            k: chan_at(names, words, 4),
        })
    } else if is_word(k, b"rouse") {
        Some(Event::Rouse {
            k: chan_at(names, words, 3),
            woken: woken_by(
                thread_at(names, words, 4),
                put_in_if(words.word(5), words.word(6)),
            ),
        })
    } else {
        None
    }
}

#[tactic(auto, unfolding(sd_entries::specs::Reading::locking_event))]
fn locking_event(names: &Names<'_>, k: &[u8], words: &Words<'_>) -> Option<Event>
    ensures { result ≡ locking_event names.now.work.now k.now words.now }
{
    if is_word(k, b"enter") {
        Some(Event::Enter {
            t: thread_at(names, words, 3),
            l: lock_at(names, words, 4),
        })
    } else if is_word(k, b"read") {
        Some(Event::Read {
            t: thread_at(names, words, 3),
            l: lock_at(names, words, 4),
        })
    } else if is_word(k, b"write") {
        Some(Event::Write {
            t: thread_at(names, words, 3),
            l: lock_at(names, words, 4),
        })
    } else if is_word(k, b"block") {
        Some(Event::Block {
            t: thread_at(names, words, 3),
            l: lock_at(names, words, 4),
        })
    } else if is_word(k, b"exit") {
        Some(Event::Exit {
            t: thread_at(names, words, 3),
            l: lock_at(names, words, 4),
        })
    } else {
        None
    }
}

#[tactic(auto, unfolding(sd_entries::specs::Reading::handing_event))]
fn handing_event(names: &Names<'_>, k: &[u8], words: &Words<'_>) -> Option<Event>
    ensures { result ≡ handing_event names.now.work.now k.now words.now }
{
    if is_word(k, b"will") {
        Some(Event::Will {
            l: lock_at(names, words, 3),
            o: thread_at(names, words, 4),
            p: byte_in(words.word(5)),
            at: put_in_if(words.word(6), words.word(7)),
        })
    } else if is_word(k, b"end") {
        Some(Event::End {
            l: lock_at(names, words, 3),
        })
    } else if is_word(k, b"unblock") {
        Some(Event::Unblock {
            l: lock_at(names, words, 3),
            u: thread_at(names, words, 4),
            at: put_in(words.word(5), words.word(6)),
        })
    } else if is_word(k, b"grant") {
        Some(Event::Grant {
            l: lock_at(names, words, 3),
            u: thread_at(names, words, 4),
            at: put_in(words.word(5), words.word(6)),
        })
    } else if is_word(k, b"passed") {
        Some(Event::Passed {
            l: lock_at(names, words, 3),
        })
    } else {
        None
    }
}

#[tactic(auto, unfolding(sd_entries::specs::Reading::semaphore_event))]
fn semaphore_event(names: &Names<'_>, k: &[u8], words: &Words<'_>) -> Option<Event>
    ensures { result ≡ semaphore_event names.now.work.now k.now words.now }
{
    if is_word(k, b"cvwait") {
        Some(Event::CvWait {
            t: thread_at(names, words, 3),
            k: chan_at(names, words, 4),
            l: lock_at(names, words, 5),
        })
    } else if is_word(k, b"semap") {
        Some(Event::SemaP {
            t: thread_at(names, words, 3),
            k: chan_at(names, words, 4),
        })
    } else if is_word(k, b"semawait") {
        Some(Event::SemaWait {
            t: thread_at(names, words, 3),
            k: chan_at(names, words, 4),
        })
    } else if is_word(k, b"semav") {
        Some(counted_or_woken(
            thread_at(names, words, 3),
            chan_at(names, words, 4),
            thread_at(names, words, 5),
            count_in(words.word(5)),
            put_in_if(words.word(6), words.word(7)),
        ))
    } else {
        None
    }
}

#[tactic(auto, unfolding(sd_entries::specs::Reading::answering_event))]
fn answering_event(names: &Names<'_>, k: &[u8], words: &Words<'_>) -> Option<Event>
    ensures { result ≡ answering_event names.now.work.now k.now words.now }
{
    if is_word(k, b"prio") {
        Some(Event::Prio {
            t: thread_at(names, words, 3),
            u: thread_at(names, words, 4),
            answer: prio_in(
                words.word(5),
                words.word(6),
                put_in_if(words.word(7), words.word(8)),
            ),
        })
    } else if is_word(k, b"assign") {
        Some(Event::Assign {
            t: thread_at(names, words, 3),
            cpu: cpu_in(words.word(4)),
            set: set_at(names, words, 5),
            answer: assign_in(words.word(6)),
        })
    } else if is_word(k, b"joined") {
        Some(Event::Joined {
            set: set_at(names, words, 3),
        })
    } else if is_word(k, b"pbind") {
        Some(Event::Bind {
            t: thread_at(names, words, 3),
            u: thread_at(names, words, 4),
            cpu: cpu_in_if(words.word(5)),
            answer: bind_in(words.word(6), put_in_if(words.word(7), words.word(8))),
        })
    } else {
        None
    }
}

/// The event of the line, where it is one's. Most lines of a run with idle processors are theirs, so their word is asked for first.
#[tactic(auto, unfolding(sd_entries::specs::Reading::event_of))]
pub(crate) fn event_of(names: &Names<'_>, words: &Words<'_>) -> Event
    ensures { result ≡ event_of names.now.work.now words.now }
{
    let k = words.word(2);
    if is_word(k, b"idle") {
        return Event::Idle;
    }
    if let Some(event) = running_event(names, k, words) {
        return event;
    }
    if let Some(event) = placing_event(names, k, words) {
        return event;
    }
    if let Some(event) = sleeping_event(names, k, words) {
        return event;
    }
    if let Some(event) = locking_event(names, k, words) {
        return event;
    }
    if let Some(event) = handing_event(names, k, words) {
        return event;
    }
    if let Some(event) = semaphore_event(names, k, words) {
        return event;
    }
    if let Some(event) = answering_event(names, k, words) {
        return event;
    }
    Event::Idle
}
