//! The whole picture.

ghost use Rattle.std.specs.Prelude.{◌≡◌, ◌++◌, IfOk, OnOk, flat_map, map, length, slice_get};
ghost use Rattle.std.specs.List.{range_with_len};
ghost use Rattle.sd_machine.specs.LockGraph.{cycles_of};
ghost use Rattle.sd_timeline.specs.Labels.{mark_text};
ghost use Rattle.sd_layout.specs.Layouts.{row_of};
ghost use Rattle.sd_timeline.specs.Picture.{all_marks, arrows_text, bound_of, frame_text, ground_text, laid_out, marks_text, own_row, row_text, rows_text, shown_holds, thread_text, timeline_text};

use crate::arrows::{put_hand_overs, put_wakeups};
use crate::bars::{put_bars, put_run_bars};
use crate::circles::put_rings;
use crate::head::{put_bound_label, put_head, put_thread_head};
use crate::held::put_bands;
use crate::labels::{put_gaps, put_levels, put_marks};
use crate::legend::{Drawn, Key, drawn_of, keys_of, lines_of, put_keys};
use crate::moments::put_moments;
use crate::notes::put_notes;
use sd_holds::{Hold, holds_between};
use sd_layout::{Frame, Layout, last_act, layout_of};
use sd_state::State;
use sd_stretches::{ByThread, History, Stretch, Track, levels, pieces};
use sd_types::{CpuId, Work};
use std::alloc::{AllocError, Global};

// To which processor a thread is bound.
fn bound_of(s: &State, t: usize) -> Option<CpuId>
    ensures { result ≡ bound_of (slice_get s.now.threads t) }
{
    match s.threads.items().get(t) {
        Some(x) => x.body.bound,
        None => None,
    }
}

// The row of a thread.
#[tactic(auto, unfolding(crate::specs::Picture::own_row))]
fn put_own_row(
    alloc: Global,
    work: &Work,
    layout: &Layout,
    history: &ByThread,
    holds: &[Hold],
    s: &State,
    t: usize,
    own: &[Stretch],
    row: u16,
    out: &mut Vec<u8>,
) -> Result<(), AllocError>
    ensures { OnOk result (out.new.items ≡ out.old.items ++ own_row work.now layout.now history.now holds.now s.now t own.now row) }
{
    put_thread_head(work, layout, row, t, out)?;
    put_bound_label(layout, row, bound_of(s, t), out)?;
    put_bars(work, layout, row, own, out)?;
    put_bands(alloc, work, layout, holds, t, row, out)?;
    let own_levels = levels(alloc, history, t, work.limit)?;
    put_levels(layout, row, &own_levels, out)
}

fn put_row_if(
    alloc: Global,
    work: &Work,
    layout: &Layout,
    history: &ByThread,
    holds: &[Hold],
    s: &State,
    t: usize,
    own: &[Stretch],
    out: &mut Vec<u8>,
) -> Result<(), AllocError>
    ensures { OnOk result (out.new.items ≡ out.old.items ++ row_text work.now layout.now history.now holds.now s.now t own.now (row_of layout.now t)) }
{
    match layout.row_of(t) {
        Some(row) => put_own_row(alloc, work, layout, history, holds, s, t, own, row, out),
        None => Ok(()),
    }
}

// The bars of a thread in the rows of processors, and its own row, if it has one.
#[tactic(auto, unfolding(crate::specs::Picture::thread_text))]
fn put_thread(
    alloc: Global,
    work: &Work,
    layout: &Layout,
    history: &ByThread,
    holds: &[Hold],
    s: &State,
    t: usize,
    out: &mut Vec<u8>,
) -> Result<(), AllocError>
    ensures { OnOk result (out.new.items ≡ out.old.items ++ thread_text work.now layout.now history.now holds.now s.now t) }
{
    let own = pieces(alloc, Track::Thread(t), history, work.limit)?;
    put_run_bars(work, layout, &own, out)?;
    put_row_if(alloc, work, layout, history, holds, s, t, &own, out)
}

fn put_threads(
    alloc: Global,
    work: &Work,
    layout: &Layout,
    history: &ByThread,
    holds: &[Hold],
    s: &State,
    out: &mut Vec<u8>,
) -> Result<(), AllocError>
    ensures { OnOk result (out.new.items ≡ out.old.items ++ flat_map (thread_text work.now layout.now history.now holds.now s.now) (range_with_len 0 (length work.now.threads))) }
{
    for t in 0..work.threads.items().len() {
        put_thread(alloc, work, layout, history, holds, s, t, out)?;
    }
    Ok(())
}

// The marks of the cycles.
fn put_cycles(layout: &Layout, found: &[Vec<usize>], out: &mut Vec<u8>) -> Result<(), AllocError>
    ensures { OnOk result (out.new.items ≡ out.old.items ++ flat_map (flat_map (mark_text layout.now)) (map (λ v. v.items) found.now)) }
{
    for threads in found {
        put_marks(layout, threads, out)?;
    }
    Ok(())
}

// The marks of threads in these blocking cycles, and of those in other circles of wants.
#[tactic(auto, unfolding(crate::specs::Picture::all_marks))]
fn put_all_marks(
    alloc: Global,
    work: &Work,
    layout: &Layout,
    drawn: &Drawn,
    cycles: &[Vec<usize>],
    out: &mut Vec<u8>,
) -> Result<(), AllocError>
    ensures { OnOk result (out.new.items ≡ out.old.items ++ all_marks work.now layout.now drawn.now (map (λ v. v.items) cycles.now)) }
{
    put_cycles(layout, cycles, out)?;
    put_rings(alloc, work, layout, drawn, cycles, out)
}

// The marks of the last state, whose blocking cycles these are, where all that happens up to the end is drawn.
fn put_end_marks(
    alloc: Global,
    work: &Work,
    layout: &Layout,
    history: &History,
    drawn: &Drawn,
    s: &State,
    cycles: &[Vec<usize>],
    out: &mut Vec<u8>,
) -> Result<(), AllocError>
    requires { map (λ v. v.items) cycles.now ≡ cycles_of s.now }
    ensures { OnOk result (out.new.items ≡ out.old.items ++ marks_text work.now layout.now history.now drawn.now s.now) }
{
    if layout.to < last_act(&history.happenings) {
        return Ok(());
    }
    put_all_marks(alloc, work, layout, drawn, cycles, out)
}

// The arrows.
fn put_arrows(
    work: &Work,
    layout: &Layout,
    history: &ByThread,
    drawn: &Drawn,
    out: &mut Vec<u8>,
) -> Result<(), AllocError>
    ensures { OnOk result (out.new.items ≡ out.old.items ++ arrows_text work.now layout.now history.now drawn.now) }
{
    put_wakeups(work, layout, &history.history.wakeups, out)?;
    put_hand_overs(work, layout, &drawn.hand_overs, out)
}

// What lies above and under the rows.
#[tactic(auto, unfolding(crate::specs::Picture::frame_text))]
fn put_frame(
    work: &Work,
    layout: &Layout,
    keys: &[Key],
    out: &mut Vec<u8>,
) -> Result<(), AllocError>
    ensures { OnOk result (out.new.items ≡ out.old.items ++ frame_text work.now layout.now keys.now) }
{
    put_head(work, layout, lines_of(keys), out)?;
    put_keys(layout, keys, out)
}

#[tactic(auto, unfolding(crate::specs::Picture::ground_text))]
fn put_ground(
    alloc: Global,
    work: &Work,
    layout: &Layout,
    history: &ByThread,
    drawn: &Drawn,
    out: &mut Vec<u8>,
) -> Result<(), AllocError>
    ensures { OnOk result (out.new.items ≡ out.old.items ++ ground_text work.now layout.now history.now drawn.now) }
{
    let keys = keys_of(alloc, layout, history, drawn)?;
    put_frame(work, layout, &keys, out)?;
    put_arrows(work, layout, history, drawn, out)
}

// The rows, and the marks over and under them.
#[tactic(auto, unfolding(crate::specs::Picture::rows_text))]
fn put_rows(
    alloc: Global,
    work: &Work,
    layout: &Layout,
    history: &ByThread,
    drawn: &Drawn,
    s: &State,
    cycles: &[Vec<usize>],
    out: &mut Vec<u8>,
) -> Result<(), AllocError>
    requires { map (λ v. v.items) cycles.now ≡ cycles_of s.now }
    ensures { OnOk result (out.new.items ≡ out.old.items ++ rows_text work.now layout.now history.now drawn.now s.now) }
{
    put_threads(alloc, work, layout, history, &drawn.holds, s, out)?;
    put_moments(work, layout, &drawn.pieces, out)?;
    put_notes(work, layout, &history.history.happenings, out)?;
    put_end_marks(alloc, work, layout, &history.history, drawn, s, cycles, out)?;
    put_gaps(layout, &layout.folds, out)
}

// The picture in this layout.
#[tactic(auto, unfolding(crate::specs::Picture::laid_out))]
fn laid_out(
    alloc: Global,
    work: &Work,
    layout: &Layout,
    history: &ByThread,
    s: &State,
    cycles: &[Vec<usize>],
    drawn: &Drawn,
) -> Result<Vec<u8>, AllocError>
    requires { map (λ v. v.items) cycles.now ≡ cycles_of s.now }
    ensures { IfOk result (λ text. text.items ≡ laid_out work.now layout.now history.now s.now drawn.now) }
{
    let mut text = Vec::new(alloc);
    put_ground(alloc, work, layout, history, drawn, &mut text)?;
    put_rows(alloc, work, layout, history, drawn, s, cycles, &mut text)?;
    text.extend_from_slice(b"</svg>\n")?;
    Ok(text)
}

// The holds that are drawn.
fn shown_holds(
    alloc: Global,
    work: &Work,
    frame: Frame,
    history: &History,
) -> Result<Vec<Hold>, AllocError>
    ensures { IfOk result (λ v. v.items ≡ shown_holds work.now frame history.now) }
{
    holds_between(alloc, &history.happenings, work.limit, frame.from, frame.to)
}

/// The picture of a run of the workload, of which this is the history and the last state with its blocking cycles, as far as the frame goes.
pub fn timeline(
    alloc: Global,
    work: &Work,
    frame: Frame,
    history: &ByThread,
    s: &State,
    cycles: &[Vec<usize>],
) -> Result<Vec<u8>, AllocError>
    requires { map (λ v. v.items) cycles.now ≡ cycles_of s.now }
    ensures { IfOk result (λ text. text.items ≡ timeline_text work.now frame history.now s.now) }
{
    let holds = shown_holds(alloc, work, frame, &history.history)?;
    let layout = layout_of(alloc, work, frame, history, &holds)?;
    let drawn = drawn_of(alloc, work, &layout, history, holds)?;
    laid_out(alloc, work, &layout, history, s, cycles, &drawn)
}
