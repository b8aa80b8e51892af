//! The marks: where a processor closes for a set and where it has joined one, and where a thread is bound to a processor or let
//! free.
//!
//! Source: psrset(1M), pbind(1M).

ghost use Rattle.std.specs.Prelude.{◌≡◌, ◌++◌, OnOk, flat_map};
ghost use Rattle.sd_trace.specs.Marks.{assign_mark, bind_mark, bound_mark, bound_name, mark_at, mark_by, mark_kind, mark_text, set_mark};

use crate::flows::{put_entry_argument, put_named};
use crate::words::{cpu_number, put_place, thread_number};
use sd_stretches::{Happening, put_counted, set_name};
use sd_types::{AssignAnswer, BindAnswer, CpuId, Event, SetId, ThreadId, Work};
use std::alloc::AllocError;

#[tactic(auto, unfolding(crate::specs::Marks::mark_kind))]
fn put_mark_kind(out: &mut Vec<u8>) -> Result<(), AllocError>
    ensures { OnOk result (out.new.items ≡ out.old.items ++ mark_kind) }
{
    out.extend_from_slice(b"\",\"cat\":\"mark\",\"ph\":\"i\",\"s\":\"t\"")
}

// Where a mark stands: its tick, its process and its track, with its entry.
#[tactic(auto, unfolding(crate::specs::Marks::mark_at))]
fn put_mark_at(
    work: &Work,
    x: &Happening,
    process: u64,
    track: u64,
    out: &mut Vec<u8>,
) -> Result<(), AllocError>
    ensures { OnOk result (out.new.items ≡ out.old.items ++ mark_at work.now x.now process track) }
{
    put_mark_kind(out)?;
    put_place(work, x.tick, process, track, out)?;
    put_entry_argument(x.entry, out)
}

// A word and the name of a set, on the track of a processor.
#[tactic(auto, unfolding(crate::specs::Marks::set_mark))]
fn put_set_mark(
    work: &Work,
    x: &Happening,
    c: CpuId,
    word: &[u8],
    set: SetId,
    out: &mut Vec<u8>,
) -> Result<(), AllocError>
    ensures { OnOk result (out.new.items ≡ out.old.items ++ set_mark work.now x.now c word.now set) }
{
    put_named(word, out)?;
    out.extend_from_slice(set_name(work, set))?;
    put_mark_at(work, x, 1, cpu_number(c.0), out)
}

// Where a processor begins to close for a set.
fn put_assign_mark(
    work: &Work,
    x: &Happening,
    c: CpuId,
    set: SetId,
    answer: AssignAnswer,
    out: &mut Vec<u8>,
) -> Result<(), AllocError>
    ensures { OnOk result (out.new.items ≡ out.old.items ++ assign_mark work.now x.now c set answer) }
{
    match answer {
        AssignAnswer::Changed => put_set_mark(work, x, c, b"closes for ", set, out),
        _ => Ok(()),
    }
}

// To which processor a thread is bound.
fn put_bound_name(cpu: Option<CpuId>, out: &mut Vec<u8>) -> Result<(), AllocError>
    ensures { OnOk result (out.new.items ≡ out.old.items ++ bound_name cpu) }
{
    match cpu {
        Some(c) => {
            put_named(b"bound to", out)?;
            put_counted(b" processor ", u64::from(c.0), out)
        }
        None => put_named(b"not bound", out),
    }
}

// On the track of the thread.
#[tactic(auto, unfolding(crate::specs::Marks::bound_mark))]
fn put_bound_mark(
    work: &Work,
    x: &Happening,
    t: ThreadId,
    cpu: Option<CpuId>,
    out: &mut Vec<u8>,
) -> Result<(), AllocError>
    ensures { OnOk result (out.new.items ≡ out.old.items ++ bound_mark work.now x.now t cpu) }
{
    put_bound_name(cpu, out)?;
    put_mark_at(work, x, 2, thread_number(t.0), out)
}

fn put_bind_mark(
    work: &Work,
    x: &Happening,
    t: ThreadId,
    cpu: Option<CpuId>,
    answer: BindAnswer,
    out: &mut Vec<u8>,
) -> Result<(), AllocError>
    ensures { OnOk result (out.new.items ≡ out.old.items ++ bind_mark work.now x.now t cpu answer) }
{
    match answer {
        BindAnswer::Changed { .. } => put_bound_mark(work, x, t, cpu, out),
        _ => Ok(()),
    }
}

// What an entry changes of processor sets and bindings.
fn put_mark(work: &Work, x: &Happening, out: &mut Vec<u8>) -> Result<(), AllocError>
    ensures { OnOk result (out.new.items ≡ out.old.items ++ mark_text work.now x.now) }
{
    match x.event {
        Event::Assign {
            cpu,
            set,
            answer,
            ..
        } => put_assign_mark(work, x, cpu, set, answer, out),
        Event::Joined { set } => put_set_mark(work, x, x.cpu, b"in ", set, out),
        Event::Bind { u, cpu, answer, .. } => put_bind_mark(work, x, u, cpu, answer, out),
        _ => Ok(()),
    }
}

/// The marks.
pub(crate) fn put_marks(
    work: &Work,
    happenings: &[Happening],
    out: &mut Vec<u8>,
) -> Result<(), AllocError>
    ensures { OnOk result (out.new.items ≡ out.old.items ++ flat_map (mark_text work.now) happenings.now) }
{
    for x in happenings {
        put_mark(work, x, out)?;
    }
    Ok(())
}
