//! The flows from who wakes to who is woken and from who waits to who inherits, and the counter of runnable threads.

ghost use Rattle.std.specs.Prelude.{◌≡◌, ◌++◌, OnOk, codes, decimal, flat_map};
ghost use Rattle.sd_trace.specs.Flows.{arrow, arrow_end, arrow_start, end_kind, entry_argument, flow, hand_flow, load_argument, load_event, load_start, named, start_kind, track_at, wake_flow};

use crate::words::{micros, put_place, thread_number};
use sd_stretches::{HandOver, Load, Wakeup, put_counted};
use sd_types::Work;
use std::alloc::AllocError;

/// A word as the name of an event.
#[tactic(auto, unfolding(crate::specs::Flows::named))]
pub(crate) fn put_named(word: &[u8], out: &mut Vec<u8>) -> Result<(), AllocError>
    ensures { OnOk result (out.new.items ≡ out.old.items ++ named word.now) }
{
    out.extend_from_slice(b",\n{\"name\":\"")?;
    out.extend_from_slice(word)
}

#[tactic(auto, unfolding(crate::specs::Flows::start_kind))]
fn put_start_kind(entry: u64, out: &mut Vec<u8>) -> Result<(), AllocError>
    ensures { OnOk result (out.new.items ≡ out.old.items ++ start_kind entry) }
{
    put_counted(b"\",\"cat\":\"flow\",\"ph\":\"s\",\"id\":", entry, out)
}

#[tactic(auto, unfolding(crate::specs::Flows::end_kind))]
fn put_end_kind(entry: u64, out: &mut Vec<u8>) -> Result<(), AllocError>
    ensures { OnOk result (out.new.items ≡ out.old.items ++ end_kind entry) }
{
    put_counted(
        b"\",\"cat\":\"flow\",\"ph\":\"f\",\"bp\":\"e\",\"id\":",
        entry,
        out,
    )
}

/// The entry that an event is about, and the end of the event.
#[tactic(auto, unfolding(crate::specs::Flows::entry_argument))]
pub(crate) fn put_entry_argument(entry: u64, out: &mut Vec<u8>) -> Result<(), AllocError>
    ensures { OnOk result (out.new.items ≡ out.old.items ++ entry_argument entry) }
{
    put_counted(b",\"args\":{\"entry\":", entry, out)?;
    out.extend_from_slice(b"}}")
}

#[tactic(auto, unfolding(crate::specs::Flows::arrow_start))]
fn put_arrow_start(
    work: &Work,
    word: &[u8],
    entry: u64,
    tick: u32,
    track: u64,
    out: &mut Vec<u8>,
) -> Result<(), AllocError>
    ensures { OnOk result (out.new.items ≡ out.old.items ++ arrow_start work.now word.now entry tick track) }
{
    put_named(word, out)?;
    put_start_kind(entry, out)?;
    put_place(work, tick, 2, track, out)?;
    put_entry_argument(entry, out)
}

#[tactic(auto, unfolding(crate::specs::Flows::arrow_end))]
fn put_arrow_end(
    work: &Work,
    word: &[u8],
    entry: u64,
    tick: u32,
    track: u64,
    out: &mut Vec<u8>,
) -> Result<(), AllocError>
    ensures { OnOk result (out.new.items ≡ out.old.items ++ arrow_end work.now word.now entry tick track) }
{
    put_named(word, out)?;
    put_end_kind(entry, out)?;
    put_place(work, tick, 2, track, out)?;
    out.extend_from_slice(b"}")
}

// An arrow from the track of one thread to that of another, at a tick; its number is that of the entry.
fn put_arrow(
    work: &Work,
    word: &[u8],
    entry: u64,
    tick: u32,
    tracks: (u64, u64),
    out: &mut Vec<u8>,
) -> Result<(), AllocError>
    ensures { OnOk result (out.new.items ≡ out.old.items ++ arrow work.now word.now entry tick tracks) }
{
    put_arrow_start(work, word, entry, tick, tracks.0, out)?;
    put_arrow_end(work, word, entry, tick, tracks.1, out)
}

// The track of a thread, where it has one.
fn track_at(work: &Work, t: usize) -> Option<u64>
    ensures { result ≡ track_at work.now t }
{
    if t < work.threads.items().len() {
        Some(t as u64 + 101)
    } else {
        None
    }
}

// An arrow from the track of a thread, where there is one, to that of another.
fn put_flow(
    work: &Work,
    word: &[u8],
    entry: u64,
    tick: u32,
    from: Option<usize>,
    to: u16,
    out: &mut Vec<u8>,
) -> Result<(), AllocError>
    ensures { OnOk result (out.new.items ≡ out.old.items ++ flow work.now word.now entry tick from to) }
{
    let Some(from) = from else {
        return Ok(());
    };
    match track_at(work, from) {
        Some(track) => put_arrow(work, word, entry, tick, (track, thread_number(to)), out),
        None => Ok(()),
    }
}

fn put_wakeup(work: &Work, x: &Wakeup, out: &mut Vec<u8>) -> Result<(), AllocError>
    ensures { OnOk result (out.new.items ≡ out.old.items ++ wake_flow work.now x.now) }
{
    put_flow(work, b"wakes", x.entry, x.tick, x.waker, x.woken.0, out)
}

/// The flows of wakeups, each from the thread that ran on the processor; a nap that ends has none.
pub(crate) fn put_wakeups(
    work: &Work,
    wakeups: &[Wakeup],
    out: &mut Vec<u8>,
) -> Result<(), AllocError>
    ensures { OnOk result (out.new.items ≡ out.old.items ++ flat_map (wake_flow work.now) wakeups.now) }
{
    for x in wakeups {
        put_wakeup(work, x, out)?;
    }
    Ok(())
}

fn put_hand_over(work: &Work, x: &HandOver, out: &mut Vec<u8>) -> Result<(), AllocError>
    ensures { OnOk result (out.new.items ≡ out.old.items ++ hand_flow work.now x.now) }
{
    put_flow(
        work,
        b"hands priority on",
        x.entry,
        x.tick,
        x.waiter,
        x.owner.0,
        out,
    )
}

/// The flows of inherited priority, each from a waiter to the owner of its lock.
pub(crate) fn put_hand_overs(
    work: &Work,
    hand_overs: &[HandOver],
    out: &mut Vec<u8>,
) -> Result<(), AllocError>
    ensures { OnOk result (out.new.items ≡ out.old.items ++ flat_map (hand_flow work.now) hand_overs.now) }
{
    for x in hand_overs {
        put_hand_over(work, x, out)?;
    }
    Ok(())
}

#[tactic(auto, unfolding(crate::specs::Flows::load_start))]
fn put_load_start(time: u64, out: &mut Vec<u8>) -> Result<(), AllocError>
    ensures { OnOk result (out.new.items ≡ out.old.items ++ load_start time) }
{
    put_counted(
        b",\n{\"name\":\"runnable\",\"ph\":\"C\",\"pid\":1,\"ts\":",
        time,
        out,
    )
}

#[tactic(auto, unfolding(crate::specs::Flows::load_argument))]
fn put_load_argument(runnable: u64, out: &mut Vec<u8>) -> Result<(), AllocError>
    ensures { OnOk result (out.new.items ≡ out.old.items ++ load_argument runnable) }
{
    put_counted(b",\"args\":{\"threads\":", runnable, out)?;
    out.extend_from_slice(b"}}")
}

#[tactic(auto, unfolding(crate::specs::Flows::load_event))]
fn put_load(work: &Work, x: &Load, out: &mut Vec<u8>) -> Result<(), AllocError>
    ensures { OnOk result (out.new.items ≡ out.old.items ++ load_event work.now x.now) }
{
    put_load_start(micros(work, x.tick), out)?;
    put_load_argument(x.runnable as u64, out)
}

/// The counter of runnable threads.
pub(crate) fn put_loads(work: &Work, loads: &[Load], out: &mut Vec<u8>) -> Result<(), AllocError>
    ensures { OnOk result (out.new.items ≡ out.old.items ++ flat_map (load_event work.now) loads.now) }
{
    for x in loads {
        put_load(work, x, out)?;
    }
    Ok(())
}
