//! The priorities above the bars, and the marks of deadlocks.

ghost use Rattle.std.specs.Prelude.{◌≡◌, ◌++◌, ◌∷◌, [], IfOk, OnOk, filter, flat_map, if◌then◌else◌};
ghost use Rattle.sd_timeline.specs.Labels.{fold_text, fold_title, has_room, inherited_level, inherited_word, labelled, labelled_by, level_area, level_label, level_text, level_title, mark_text, own_level, raised_line, some_level, whole_level};

use crate::parts::{Part, put_parts};
use crate::pieces::{put_bar_end, put_bar_start, put_cover, put_number_label, put_word_label};
use sd_layout::{Column, Layout, Row};
use sd_stretches::{ByThread, Level, levels};
use sd_types::Work;
use std::alloc::{AllocError, Global};

// A priority that is the thread's own.
fn put_own_level(layout: &Layout, t: u16, x: &Level, out: &mut Vec<u8>) -> Result<(), AllocError>
    ensures { OnOk result (out.new.items ≡ out.old.items ++ own_level layout.now t x.now) }
{
    let column = layout.beside(x.from);
    put_number_label(
        b"own",
        column,
        layout.above(t),
        b"",
        u64::from(x.priority),
        out,
    )
}

// A triangle tells that it is inherited.
fn put_inherited_level(
    layout: &Layout,
    t: u16,
    x: &Level,
    out: &mut Vec<u8>,
) -> Result<(), AllocError>
    ensures { OnOk result (out.new.items ≡ out.old.items ++ inherited_level layout.now t x.now) }
{
    let column = layout.beside(x.from);
    let y = layout.above(t);
    if layout.width(x.from, x.to) < 46 {
        put_word_label(b"inherited", column, y, b"&#9650;", out)
    } else {
        put_number_label(
            b"inherited",
            column,
            y,
            b"&#9650;",
            u64::from(x.priority),
            out,
        )
    }
}

// There is room for it.
fn has_room(layout: &Layout, x: &Level) -> bool
    ensures { result ≡ has_room layout.now x.now }
{
    30 <= layout.width(x.from, x.to)
}

fn put_some_level(layout: &Layout, t: u16, x: &Level, out: &mut Vec<u8>) -> Result<(), AllocError>
    ensures { OnOk result (out.new.items ≡ out.old.items ++ some_level layout.now t x.now) }
{
    if x.inherited {
        put_inherited_level(layout, t, x, out)
    } else {
        put_own_level(layout, t, x, out)
    }
}

// A priority where it changes, if it stays so long that there is room for it.
fn put_level_label(layout: &Layout, t: u16, x: &Level, out: &mut Vec<u8>) -> Result<(), AllocError>
    ensures { OnOk result (out.new.items ≡ out.old.items ++ level_label layout.now t x.now) }
{
    if has_room(layout, x) {
        put_some_level(layout, t, x, out)
    } else {
        Ok(())
    }
}

fn push_level(layout: &Layout, x: &Level, found: &mut Vec<Level>) -> Result<(), AllocError>
    ensures { OnOk result (found.new.items ≡ found.old.items ++ (if has_room layout.now x.now then x.now ∷ [] else [])) }
{
    if has_room(layout, x) {
        found.push(*x)?;
    }
    Ok(())
}

fn push_levels(layout: &Layout, own: &[Level], found: &mut Vec<Level>) -> Result<(), AllocError>
    ensures { OnOk result (found.new.items ≡ found.old.items ++ filter (has_room layout.now) own.now) }
{
    for x in own {
        push_level(layout, x, found)?;
    }
    Ok(())
}

// Those of one thread.
fn push_labelled(
    alloc: Global,
    work: &Work,
    layout: &Layout,
    history: &ByThread,
    t: usize,
    found: &mut Vec<Level>,
) -> Result<(), AllocError>
    ensures { OnOk result (found.new.items ≡ found.old.items ++ labelled_by work.now layout.now history.now t) }
{
    let own = levels(alloc, history, t, work.limit)?;
    push_levels(layout, &own, found)
}

/// The priorities of threads that have a row for which there is room.
#[tactic(auto, unfolding(crate::specs::Labels::labelled))]
pub(crate) fn labelled(
    alloc: Global,
    work: &Work,
    layout: &Layout,
    history: &ByThread,
) -> Result<Vec<Level>, AllocError>
    ensures { IfOk result (λ v. v.items ≡ labelled work.now layout.now history.now) }
{
    let mut found = Vec::new(alloc);
    for t in &layout.rows {
        push_labelled(alloc, work, layout, history, *t, &mut found)?;
    }
    Ok(found)
}

fn inherited_word(inherited: bool) -> &'static [u8]
    ensures { result.now ≡ inherited_word inherited }
{
    if inherited { b", inherited" } else { b"" }
}

// What is shown where the pointer rests on a priority.
#[tactic(auto, unfolding(crate::specs::Labels::level_title, crate::specs::Bars::between))]
fn put_level_title(x: &Level, out: &mut Vec<u8>) -> Result<(), AllocError>
    ensures { OnOk result (out.new.items ≡ out.old.items ++ level_title x.now) }
{
    let parts = [
        Part::Text(b"priority "),
        Part::Number(x.priority as u64),
        Part::Text(inherited_word(x.inherited)),
        Part::Text(b", ticks "),
        Part::Number(x.from as u64),
        Part::Text(b" to "),
        Part::Number(x.to as u64),
    ];
    put_parts(&parts, out)
}

// The place of a priority, which shows it where the pointer rests, also where there is no room for it.
#[tactic(auto, unfolding(crate::specs::Labels::level_area))]
fn put_level_area(layout: &Layout, t: u16, x: &Level, out: &mut Vec<u8>) -> Result<(), AllocError>
    ensures { OnOk result (out.new.items ≡ out.old.items ++ level_area layout.now t x.now) }
{
    let width = layout.width(x.from, x.to);
    put_bar_start(
        b"level",
        layout.column(x.from),
        layout.over(t),
        width,
        13,
        out,
    )?;
    put_level_title(x, out)?;
    put_bar_end(out)
}

// A line as long as a priority is inherited.
fn put_raised_line(layout: &Layout, t: u16, x: &Level, out: &mut Vec<u8>) -> Result<(), AllocError>
    ensures { OnOk result (out.new.items ≡ out.old.items ++ raised_line layout.now t x.now) }
{
    if x.inherited {
        let width = layout.width(x.from, x.to);
        put_cover(
            b"raised",
            layout.column(x.from),
            layout.over(t) + 13,
            width,
            2,
            out,
        )
    } else {
        Ok(())
    }
}

#[tactic(auto, unfolding(crate::specs::Labels::whole_level))]
fn put_whole_level(layout: &Layout, t: u16, x: &Level, out: &mut Vec<u8>) -> Result<(), AllocError>
    ensures { OnOk result (out.new.items ≡ out.old.items ++ whole_level layout.now t x.now) }
{
    put_level_label(layout, t, x, out)?;
    put_raised_line(layout, t, x, out)?;
    put_level_area(layout, t, x, out)
}

fn put_level(layout: &Layout, t: u16, x: &Level, out: &mut Vec<u8>) -> Result<(), AllocError>
    ensures { OnOk result (out.new.items ≡ out.old.items ++ level_text layout.now t x.now) }
{
    if layout.width(x.from, x.to) == 0 {
        Ok(())
    } else {
        put_whole_level(layout, t, x, out)
    }
}

/// The priorities of a thread above its bars.
pub(crate) fn put_levels(
    layout: &Layout,
    t: u16,
    own: &[Level],
    out: &mut Vec<u8>,
) -> Result<(), AllocError>
    ensures { OnOk result (out.new.items ≡ out.old.items ++ flat_map (level_text layout.now t) own.now) }
{
    for x in own {
        put_level(layout, t, x, out)?;
    }
    Ok(())
}

// How many ticks are folded, and which.
#[tactic(auto, unfolding(crate::specs::Labels::fold_title, crate::specs::Labels::many_text, crate::specs::Bars::between))]
fn put_fold_title(x: &Column, out: &mut Vec<u8>) -> Result<(), AllocError>
    ensures { OnOk result (out.new.items ≡ out.old.items ++ fold_title x.now) }
{
    let parts = [
        Part::Text(b"nothing changes in these ticks: "),
        Part::Number(x.many()),
        Part::Text(b", "),
        Part::Number(x.from as u64),
        Part::Text(b" to "),
        Part::Number(x.to as u64),
    ];
    put_parts(&parts, out)
}

// A gap across the rows, which tells how many ticks are folded.
#[tactic(auto, unfolding(crate::specs::Labels::fold_text))]
fn put_fold(layout: &Layout, x: &Column, out: &mut Vec<u8>) -> Result<(), AllocError>
    ensures { OnOk result (out.new.items ≡ out.old.items ++ fold_text layout.now x.now) }
{
    let width = layout.width(x.from, x.to);
    put_bar_start(
        b"gap",
        layout.column(x.from),
        50,
        width,
        layout.depth(),
        out,
    )?;
    put_fold_title(x, out)?;
    put_bar_end(out)
}

/// The gaps of the ticks that are folded.
pub(crate) fn put_gaps(
    layout: &Layout,
    folds: &[Column],
    out: &mut Vec<u8>,
) -> Result<(), AllocError>
    ensures { OnOk result (out.new.items ≡ out.old.items ++ flat_map (fold_text layout.now) folds.now) }
{
    for x in folds {
        put_fold(layout, x, out)?;
    }
    Ok(())
}

fn put_mark(layout: &Layout, t: usize, out: &mut Vec<u8>) -> Result<(), AllocError>
    ensures { OnOk result (out.new.items ≡ out.old.items ++ mark_text layout.now t) }
{
    match layout.row_of(t) {
        Some(row) => put_word_label(
            b"dead",
            layout.inside(layout.to),
            layout.base(Row::Thread(row)),
            b"deadlock",
            out,
        ),
        None => Ok(()),
    }
}

/// The marks of threads that block each other at the end.
pub(crate) fn put_marks(
    layout: &Layout,
    threads: &[usize],
    out: &mut Vec<u8>,
) -> Result<(), AllocError>
    ensures { OnOk result (out.new.items ≡ out.old.items ++ flat_map (mark_text layout.now) threads.now) }
{
    for t in threads {
        put_mark(layout, *t, out)?;
    }
    Ok(())
}
