//! The tracks, and the whole trace.

ghost use Rattle.std.specs.Prelude.{◌≡◌, ◌++◌, IfOk, OnOk, codes, decimal, flat_map, length};
ghost use Rattle.std.specs.List.{range_with_len};
ghost use Rattle.sd_holds.specs.Bands.{most_lanes};
ghost use Rattle.sd_trace.specs.Tracks.{all_holds, all_tracks, cpu_name, cpu_part, cpu_track, hold_track, holds_part, holds_start, name_end, name_start, own_holds, some_holds, thread_part, thread_track, trace_start, track_order, track_start, trace_text, threads_start};

use crate::flows::{put_hand_overs, put_loads, put_wakeups};
use crate::held::put_holds;
use crate::marks::put_marks;
use crate::slices::{put_run_slices, put_states};
use crate::words::{cpu_number, hold_number, thread_number};
use sd_holds::{Band, Hold, bands, holds, most_lanes};
use sd_stretches::{ByThread, Track, pieces, put_counted, thread_name};
use sd_types::Work;
use std::alloc::{AllocError, Global};

// The start of the name of a track of a process.
#[tactic(auto, unfolding(crate::specs::Tracks::track_start))]
fn put_track_start(process: u64, track: u64, out: &mut Vec<u8>) -> Result<(), AllocError>
    ensures { OnOk result (out.new.items ≡ out.old.items ++ track_start process track) }
{
    put_counted(
        b",\n{\"name\":\"thread_name\",\"ph\":\"M\",\"pid\":",
        process,
        out,
    )?;
    put_counted(b",\"tid\":", track, out)
}

#[tactic(auto, unfolding(crate::specs::Tracks::name_start))]
fn put_name_start(out: &mut Vec<u8>) -> Result<(), AllocError>
    ensures { OnOk result (out.new.items ≡ out.old.items ++ name_start) }
{
    out.extend_from_slice(b",\"args\":{\"name\":\"")
}

#[tactic(auto, unfolding(crate::specs::Tracks::name_end))]
fn put_name_end(out: &mut Vec<u8>) -> Result<(), AllocError>
    ensures { OnOk result (out.new.items ≡ out.old.items ++ name_end) }
{
    out.extend_from_slice(b"\"}}")
}

#[tactic(auto, unfolding(crate::specs::Tracks::cpu_name))]
fn put_cpu_name(c: u64, out: &mut Vec<u8>) -> Result<(), AllocError>
    ensures { OnOk result (out.new.items ≡ out.old.items ++ cpu_name c) }
{
    put_name_start(out)?;
    put_counted(b"processor ", c, out)
}

// The place of a track among those of its process.
#[tactic(auto, unfolding(crate::specs::Tracks::track_order))]
fn put_track_order(process: u64, track: u64, out: &mut Vec<u8>) -> Result<(), AllocError>
    ensures { OnOk result (out.new.items ≡ out.old.items ++ track_order process track) }
{
    put_counted(
        b",\n{\"name\":\"thread_sort_index\",\"ph\":\"M\",\"pid\":",
        process,
        out,
    )?;
    put_counted(b",\"tid\":", track, out)?;
    put_counted(b",\"args\":{\"sort_index\":", track, out)?;
    out.extend_from_slice(b"}}")
}

#[tactic(auto, unfolding(crate::specs::Tracks::cpu_track))]
fn put_cpu_track(c: u16, out: &mut Vec<u8>) -> Result<(), AllocError>
    ensures { OnOk result (out.new.items ≡ out.old.items ++ cpu_track c) }
{
    put_track_start(1, cpu_number(c), out)?;
    put_cpu_name(u64::from(c), out)?;
    put_name_end(out)?;
    put_track_order(1, cpu_number(c), out)
}

// The track of a processor with its slices.
fn put_cpu(
    alloc: Global,
    work: &Work,
    history: &ByThread,
    c: u16,
    out: &mut Vec<u8>,
) -> Result<(), AllocError>
    ensures { OnOk result (out.new.items ≡ out.old.items ++ cpu_part work.now history.now c) }
{
    let slices = pieces(alloc, Track::Cpu(c), history, work.limit)?;
    put_cpu_track(c, out)?;
    put_run_slices(work, c, &slices, out)
}

fn put_cpus(
    alloc: Global,
    work: &Work,
    history: &ByThread,
    out: &mut Vec<u8>,
) -> Result<(), AllocError>
    ensures { OnOk result (out.new.items ≡ out.old.items ++ flat_map (cpu_part work.now history.now) (range_with_len 0 work.now.cpus)) }
{
    for c in 0..work.cpus {
        put_cpu(alloc, work, history, c, out)?;
    }
    Ok(())
}

#[tactic(auto, unfolding(crate::specs::Tracks::thread_track))]
fn put_thread_track(work: &Work, t: u16, out: &mut Vec<u8>) -> Result<(), AllocError>
    ensures { OnOk result (out.new.items ≡ out.old.items ++ thread_track work.now t) }
{
    put_track_start(2, thread_number(t), out)?;
    put_name_start(out)?;
    out.extend_from_slice(thread_name(work, usize::from(t)))?;
    put_name_end(out)?;
    put_track_order(2, thread_number(t), out)
}

// The track of a thread with its slices.
#[tactic(auto, unfolding(crate::specs::Tracks::thread_part))]
fn put_thread(
    alloc: Global,
    work: &Work,
    history: &ByThread,
    t: u16,
    out: &mut Vec<u8>,
) -> Result<(), AllocError>
    ensures { OnOk result (out.new.items ≡ out.old.items ++ thread_part work.now history.now t) }
{
    let own = pieces(alloc, Track::Thread(usize::from(t)), history, work.limit)?;
    put_thread_track(work, t, out)?;
    put_states(work, thread_number(t), &own, out)
}

fn put_threads(
    alloc: Global,
    work: &Work,
    history: &ByThread,
    out: &mut Vec<u8>,
) -> Result<(), AllocError>
    ensures { OnOk result (out.new.items ≡ out.old.items ++ flat_map (thread_part work.now history.now) (range_with_len 0 (length work.now.threads))) }
{
    for t in 0..work.threads.items().len() {
        put_thread(alloc, work, history, t as u16, out)?;
    }
    Ok(())
}

#[tactic(auto, unfolding(crate::specs::Tracks::holds_start))]
fn put_holds_start(out: &mut Vec<u8>) -> Result<(), AllocError>
    ensures { OnOk result (out.new.items ≡ out.old.items ++ holds_start) }
{
    out.extend_from_slice(
        b",\n{\"name\":\"process_name\",\"ph\":\"M\",\"pid\":3,\"args\":{\"name\":\"locks held\"}}",
    )
}

// The track of a lane of what a thread holds.
#[tactic(auto, unfolding(crate::specs::Tracks::hold_track))]
fn put_hold_track(work: &Work, t: u16, lane: usize, out: &mut Vec<u8>) -> Result<(), AllocError>
    ensures { OnOk result (out.new.items ≡ out.old.items ++ hold_track work.now t lane) }
{
    put_track_start(3, hold_number(t, lane), out)?;
    put_name_start(out)?;
    out.extend_from_slice(thread_name(work, usize::from(t)))?;
    out.extend_from_slice(b" holds")?;
    put_name_end(out)?;
    put_track_order(3, hold_number(t, lane), out)
}

fn put_hold_tracks(work: &Work, t: u16, lanes: usize, out: &mut Vec<u8>) -> Result<(), AllocError>
    ensures { OnOk result (out.new.items ≡ out.old.items ++ flat_map (hold_track work.now t) (range_with_len 0 lanes)) }
{
    for lane in 0..lanes {
        put_hold_track(work, t, lane, out)?;
    }
    Ok(())
}

// The tracks of what a thread holds, with a slice for each hold.
fn put_holds_part(work: &Work, t: u16, own: &[Band], out: &mut Vec<u8>) -> Result<(), AllocError>
    ensures { OnOk result (out.new.items ≡ out.old.items ++ holds_part work.now t own.now) }
{
    put_hold_tracks(work, t, usize::from(most_lanes(own)), out)?;
    put_holds(work, own, out)
}

fn put_own_holds(
    alloc: Global,
    work: &Work,
    all: &[Hold],
    t: u16,
    out: &mut Vec<u8>,
) -> Result<(), AllocError>
    ensures { OnOk result (out.new.items ≡ out.old.items ++ own_holds work.now all.now t) }
{
    let own = bands(alloc, all, usize::from(t), 0, work.limit)?;
    put_holds_part(work, t, &own, out)
}

fn put_each_holds(
    alloc: Global,
    work: &Work,
    all: &[Hold],
    out: &mut Vec<u8>,
) -> Result<(), AllocError>
    ensures { OnOk result (out.new.items ≡ out.old.items ++ flat_map (own_holds work.now all.now) (range_with_len 0 (length work.now.threads))) }
{
    for t in 0..work.threads.items().len() {
        put_own_holds(alloc, work, all, t as u16, out)?;
    }
    Ok(())
}

// The tracks of what all threads hold.
#[tactic(auto, unfolding(crate::specs::Tracks::some_holds))]
fn put_some_holds(
    alloc: Global,
    work: &Work,
    all: &[Hold],
    out: &mut Vec<u8>,
) -> Result<(), AllocError>
    ensures { OnOk result (out.new.items ≡ out.old.items ++ some_holds work.now all.now) }
{
    put_holds_start(out)?;
    put_each_holds(alloc, work, all, out)
}

// None where no lock is taken.
fn put_all_holds(
    alloc: Global,
    work: &Work,
    all: &[Hold],
    out: &mut Vec<u8>,
) -> Result<(), AllocError>
    ensures { OnOk result (out.new.items ≡ out.old.items ++ all_holds work.now all.now) }
{
    if all.is_empty() {
        return Ok(());
    }
    put_some_holds(alloc, work, all, out)
}

#[tactic(auto, unfolding(crate::specs::Tracks::trace_start))]
fn put_trace_start(out: &mut Vec<u8>) -> Result<(), AllocError>
    ensures { OnOk result (out.new.items ≡ out.old.items ++ trace_start) }
{
    out.extend_from_slice(
        b"{\"displayTimeUnit\":\"ms\",\"traceEvents\":[\n{\"name\":\"process_name\",\"ph\":\"M\",\"pid\":1,\"args\":{\"name\":\"processors\"}}",
    )
}

#[tactic(auto, unfolding(crate::specs::Tracks::threads_start))]
fn put_threads_start(out: &mut Vec<u8>) -> Result<(), AllocError>
    ensures { OnOk result (out.new.items ≡ out.old.items ++ threads_start) }
{
    out.extend_from_slice(
        b",\n{\"name\":\"process_name\",\"ph\":\"M\",\"pid\":2,\"args\":{\"name\":\"threads\"}}",
    )
}

// The tracks with their slices.
#[tactic(auto, unfolding(crate::specs::Tracks::all_tracks))]
fn put_all_tracks(
    alloc: Global,
    work: &Work,
    history: &ByThread,
    out: &mut Vec<u8>,
) -> Result<(), AllocError>
    ensures { OnOk result (out.new.items ≡ out.old.items ++ all_tracks work.now history.now) }
{
    put_trace_start(out)?;
    put_threads_start(out)?;
    put_cpus(alloc, work, history, out)?;
    put_threads(alloc, work, history, out)?;
    let all = holds(alloc, &history.history.happenings, work.limit)?;
    put_all_holds(alloc, work, &all, out)
}

/// The trace of a run of the workload, of which this is the history.
#[tactic(auto, unfolding(crate::specs::Tracks::trace_text))]
pub fn trace(alloc: Global, work: &Work, history: &ByThread) -> Result<Vec<u8>, AllocError>
    ensures { IfOk result (λ text. text.items ≡ trace_text work.now history.now) }
{
    let mut text = Vec::new(alloc);
    put_all_tracks(alloc, work, history, &mut text)?;
    put_wakeups(work, &history.history.wakeups, &mut text)?;
    put_hand_overs(work, &history.history.hand_overs, &mut text)?;
    put_marks(work, &history.history.happenings, &mut text)?;
    put_loads(work, &history.history.loads, &mut text)?;
    text.extend_from_slice(b"\n]}\n")?;
    Ok(text)
}
