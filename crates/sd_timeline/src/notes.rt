//! What is noted under the rows: where a processor closes and joins a set, and where a thread is bound to a processor.
//!
//! Source: psrset(1M), pbind(1M).

ghost use Rattle.std.specs.Prelude.{◌≡◌, ◌++◌, OnOk, codes, flat_map};
ghost use Rattle.sd_timeline.specs.Pieces.{label_end, label_start};
ghost use Rattle.sd_timeline.specs.Notes.{assign_note, bind_note, bound_words, note_by, note_text, set_note, thread_note};

use crate::parts::Part;
use crate::pieces::{put_label, put_number_label, put_word_label};
use sd_layout::{Layout, Row};
use sd_stretches::{Happening, set_name};
use sd_types::{AssignAnswer, BindAnswer, CpuId, Event, SetId, ThreadId, Work};
use std::alloc::AllocError;

// A word with a set, under the row of a processor.
#[tactic(auto, unfolding(crate::specs::Notes::set_note, crate::specs::Notes::set_words))]
fn put_set_note(
    class: &[u8],
    work: &Work,
    layout: &Layout,
    tick: u32,
    c: CpuId,
    word: &[u8],
    set: SetId,
    out: &mut Vec<u8>,
) -> Result<(), AllocError>
    ensures { OnOk result (out.new.items ≡ out.old.items ++ set_note class.now work.now layout.now tick c word.now set) }
{
    put_label(
        class,
        layout.column(tick),
        layout.under(Row::Cpu(c.0)),
        &[Part::Text(word), Part::Text(set_name(work, set))],
        out,
    )
}

// Where a processor begins to close for a set.
fn put_assign_note(
    work: &Work,
    layout: &Layout,
    tick: u32,
    c: CpuId,
    set: SetId,
    answer: AssignAnswer,
    out: &mut Vec<u8>,
) -> Result<(), AllocError>
    ensures { OnOk result (out.new.items ≡ out.old.items ++ assign_note work.now layout.now tick c set answer) }
{
    match answer {
        AssignAnswer::Changed => put_set_note(
            b"note closes",
            work,
            layout,
            tick,
            c,
            b"closes for ",
            set,
            out,
        ),
        _ => Ok(()),
    }
}

// To which processor a thread is bound, under its row.
#[tactic(auto, unfolding(crate::specs::Notes::bound_words, crate::specs::Pieces::word_label, crate::specs::Pieces::number_label))]
fn put_bound_note(x: u64, y: u64, cpu: Option<CpuId>, out: &mut Vec<u8>) -> Result<(), AllocError>
    ensures { OnOk result (out.new.items ≡ out.old.items ++ (label_start (codes "note") x y ++ bound_words cpu ++ label_end)) }
{
    match cpu {
        Some(c) => put_number_label(b"note", x, y, b"&#9652;bound to ", u64::from(c.0), out),
        None => put_word_label(b"note", x, y, b"&#9652;not bound", out),
    }
}

// Under the row of the thread, if it has one.
fn put_thread_note(
    layout: &Layout,
    tick: u32,
    row: Option<u16>,
    cpu: Option<CpuId>,
    out: &mut Vec<u8>,
) -> Result<(), AllocError>
    ensures { OnOk result (out.new.items ≡ out.old.items ++ thread_note layout.now tick cpu row) }
{
    match row {
        Some(t) => put_bound_note(layout.column(tick), layout.under(Row::Thread(t)), cpu, out),
        None => Ok(()),
    }
}

fn put_bind_note(
    layout: &Layout,
    tick: u32,
    t: ThreadId,
    cpu: Option<CpuId>,
    answer: BindAnswer,
    out: &mut Vec<u8>,
) -> Result<(), AllocError>
    ensures { OnOk result (out.new.items ≡ out.old.items ++ bind_note layout.now tick t cpu answer) }
{
    match answer {
        BindAnswer::Changed { .. } => {
            put_thread_note(layout, tick, layout.row_of(t.0 as usize), cpu, out)
        }
        _ => Ok(()),
    }
}

// What an entry changes of processor sets and bindings.
fn put_note_of(
    work: &Work,
    layout: &Layout,
    x: &Happening,
    out: &mut Vec<u8>,
) -> Result<(), AllocError>
    ensures { OnOk result (out.new.items ≡ out.old.items ++ note_by work.now layout.now x.now x.now.event) }
{
    match x.event {
        Event::Assign {
            cpu,
            set,
            answer,
            ..
        } => put_assign_note(work, layout, x.tick, cpu, set, answer, out),
        Event::Joined { set } => put_set_note(
            b"note",
            work,
            layout,
            x.tick,
            x.cpu,
            b"&#9652;in ",
            set,
            out,
        ),
        Event::Bind { u, cpu, answer, .. } => put_bind_note(layout, x.tick, u, cpu, answer, out),
        _ => Ok(()),
    }
}

// Where its tick is drawn.
fn put_note(
    work: &Work,
    layout: &Layout,
    x: &Happening,
    out: &mut Vec<u8>,
) -> Result<(), AllocError>
    ensures { OnOk result (out.new.items ≡ out.old.items ++ note_text work.now layout.now x.now) }
{
    if layout.shows(x.tick) {
        put_note_of(work, layout, x, out)
    } else {
        Ok(())
    }
}

/// The notes.
pub(crate) fn put_notes(
    work: &Work,
    layout: &Layout,
    happenings: &[Happening],
    out: &mut Vec<u8>,
) -> Result<(), AllocError>
    ensures { OnOk result (out.new.items ≡ out.old.items ++ flat_map (note_text work.now layout.now) happenings.now) }
{
    for x in happenings {
        put_note(work, layout, x, out)?;
    }
    Ok(())
}
