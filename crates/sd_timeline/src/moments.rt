//! The parts of a run that are drawn, and the marks of threads that run without taking a tick, which no bar shows.

ghost use Rattle.std.specs.Prelude.{◌≡◌, ◌++◌, ◌∷◌, [], IfOk, OnOk, filter, flat_map, length, if◌then◌else◌};
ghost use Rattle.std.specs.List.{range_with_len};
ghost use Rattle.sd_timeline.specs.Moments.{cpu_moment, drawn_by, drawn_pieces, is_drawn, is_moment, moment_line, moment_lines, moment_text, thread_moment};

use crate::bars::put_title;
use crate::pieces::{put_path_end, put_path_start};
use sd_layout::{Layout, Row};
use sd_stretches::{ByThread, Doing, Stretch, Track, does_run, pieces};
use sd_types::Work;
use std::alloc::{AllocError, Global};

/// A thread runs, but takes no tick, and what is drawn shows when.
pub(crate) fn is_moment(layout: &Layout, x: &Stretch) -> bool
    ensures { result ≡ is_moment layout.now x.now }
{
    does_run(x.doing) && x.from == x.to && layout.shows(x.from)
}

// It has a bar or a mark.
fn is_drawn(layout: &Layout, x: &Stretch) -> bool
    ensures { result ≡ is_drawn layout.now x.now }
{
    is_moment(layout, x) || layout.width(x.from, x.to) != 0
}

fn push_drawn(layout: &Layout, x: &Stretch, found: &mut Vec<Stretch>) -> Result<(), AllocError>
    ensures { OnOk result (found.new.items ≡ found.old.items ++ (if is_drawn layout.now x.now then x.now ∷ [] else [])) }
{
    if is_drawn(layout, x) {
        found.push(*x)?;
    }
    Ok(())
}

fn push_all_drawn(
    layout: &Layout,
    own: &[Stretch],
    found: &mut Vec<Stretch>,
) -> Result<(), AllocError>
    ensures { OnOk result (found.new.items ≡ found.old.items ++ filter (is_drawn layout.now) own.now) }
{
    for x in own {
        push_drawn(layout, x, found)?;
    }
    Ok(())
}

// Those of one thread.
fn push_own(
    alloc: Global,
    work: &Work,
    layout: &Layout,
    history: &ByThread,
    t: usize,
    found: &mut Vec<Stretch>,
) -> Result<(), AllocError>
    ensures { OnOk result (found.new.items ≡ found.old.items ++ drawn_by work.now layout.now history.now t) }
{
    let own = pieces(alloc, Track::Thread(t), history, work.limit)?;
    push_all_drawn(layout, &own, found)
}

/// The pieces of the stretches of all threads that are drawn.
#[tactic(auto, unfolding(crate::specs::Moments::drawn_pieces))]
pub(crate) fn drawn_pieces(
    alloc: Global,
    work: &Work,
    layout: &Layout,
    history: &ByThread,
) -> Result<Vec<Stretch>, AllocError>
    ensures { IfOk result (λ v. v.items ≡ drawn_pieces work.now layout.now history.now) }
{
    let mut found = Vec::new(alloc);
    for t in 0..work.threads.items().len() {
        push_own(alloc, work, layout, history, t, &mut found)?;
    }
    Ok(found)
}

// A line across a row.
#[tactic(auto, unfolding(crate::specs::Moments::moment_line))]
fn put_moment_line(
    work: &Work,
    layout: &Layout,
    row: Row,
    x: &Stretch,
    out: &mut Vec<u8>,
) -> Result<(), AllocError>
    ensures { OnOk result (out.new.items ≡ out.old.items ++ moment_line work.now layout.now row x.now) }
{
    put_path_start(b"moment", layout.column(x.from), layout.across(row), out)?;
    put_title(work, x, out)?;
    put_path_end(out)
}

fn put_cpu_moment(
    work: &Work,
    layout: &Layout,
    x: &Stretch,
    out: &mut Vec<u8>,
) -> Result<(), AllocError>
    ensures { OnOk result (out.new.items ≡ out.old.items ++ cpu_moment work.now layout.now x.now x.now.doing) }
{
    match x.doing {
        Doing::Running(c) => put_moment_line(work, layout, Row::Cpu(c.0), x, out),
        _ => Ok(()),
    }
}

fn put_thread_moment(
    work: &Work,
    layout: &Layout,
    x: &Stretch,
    row: Option<u16>,
    out: &mut Vec<u8>,
) -> Result<(), AllocError>
    ensures { OnOk result (out.new.items ≡ out.old.items ++ thread_moment work.now layout.now x.now row) }
{
    match row {
        Some(t) => put_moment_line(work, layout, Row::Thread(t), x, out),
        None => Ok(()),
    }
}

// On the row of its processor, and on its own, if it has one.
fn put_moment_lines(
    work: &Work,
    layout: &Layout,
    x: &Stretch,
    out: &mut Vec<u8>,
) -> Result<(), AllocError>
    ensures { OnOk result (out.new.items ≡ out.old.items ++ moment_lines work.now layout.now x.now) }
{
    put_cpu_moment(work, layout, x, out)?;
    put_thread_moment(work, layout, x, layout.row_of(x.thread), out)
}

fn put_moment(
    work: &Work,
    layout: &Layout,
    x: &Stretch,
    out: &mut Vec<u8>,
) -> Result<(), AllocError>
    ensures { OnOk result (out.new.items ≡ out.old.items ++ moment_text work.now layout.now x.now) }
{
    if is_moment(layout, x) {
        put_moment_lines(work, layout, x, out)
    } else {
        Ok(())
    }
}

/// The marks, among the pieces that are drawn.
pub(crate) fn put_moments(
    work: &Work,
    layout: &Layout,
    pieces: &[Stretch],
    out: &mut Vec<u8>,
) -> Result<(), AllocError>
    ensures { OnOk result (out.new.items ≡ out.old.items ++ flat_map (moment_text work.now layout.now) pieces.now) }
{
    for x in pieces {
        put_moment(work, layout, x, out)?;
    }
    Ok(())
}
