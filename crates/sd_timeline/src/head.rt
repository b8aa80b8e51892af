//! What stands above the rows, and the names of the rows.

ghost use Rattle.std.specs.Prelude.{◌≡◌, ◌+◌, ◌++◌, ◌<◌, ◌≤◌, ◌^◌, OnOk, codes, decimal, flat_map};
ghost use Rattle.std.specs.List.{range_with_len};
ghost use Rattle.sd_layout.specs.Layouts.{axes, shown};
ghost use Rattle.sd_timeline.specs.Head.{axis, bound_label, counts_text, cpu_head, description, file_title, fold_marks, head, heading, inner_number, mark, mark_if, measures, opened, rowless, rowless_text, set_label, size, start, swatch, thread_head, ticks_text, view_box};
ghost use Rattle.sd_timeline.specs.Style.{page, patterns, style};

use crate::colours::{colour_name, colour_of, put_texture, texture_of};
use crate::parts::{Part, put_parts};
use crate::pieces::{
    put_cover, put_label_end, put_label_start, put_line, put_number_label, put_word_label,
};
use crate::style::{put_page, put_patterns, put_style};
use sd_layout::{Column, Layout, Row};
use sd_rules::set_of_cpu;
use sd_stretches::{put_counted, set_name, thread_name};
use sd_types::{CpuId, SetId, Work};
use std::alloc::AllocError;

#[tactic(auto, unfolding(crate::specs::Head::view_box))]
fn put_view_box(width: u64, height: u64, out: &mut Vec<u8>) -> Result<(), AllocError>
    ensures { OnOk result (out.new.items ≡ out.old.items ++ view_box width height) }
{
    put_counted(b" viewBox=\"0 0 ", width, out)?;
    put_counted(b" ", height, out)?;
    out.extend_from_slice(b"\">\n")
}

#[tactic(auto, unfolding(crate::specs::Head::measures, crate::specs::Pieces::attribute))]
fn put_measures(width: u64, height: u64, out: &mut Vec<u8>) -> Result<(), AllocError>
    ensures { OnOk result (out.new.items ≡ out.old.items ++ measures width height) }
{
    let parts = [
        Part::Text(b" width=\""),
        Part::Number(width),
        Part::Text(b"\" height=\""),
        Part::Number(height),
        Part::Text(b"\""),
    ];
    put_parts(&parts, out)?;
    put_view_box(width, height, out)
}

// Where so many lines of the legend stand under the rows.
#[tactic(auto, unfolding(crate::specs::Head::size))]
fn put_size(layout: &Layout, lines: u64, out: &mut Vec<u8>) -> Result<(), AllocError>
    requires { lines < 2 ^ 32 }
    ensures { OnOk result (out.new.items ≡ out.old.items ++ size layout.now lines) }
{
    let height = layout.bottom() + 34 + 24 * lines;
    put_measures(layout.total_width(), height, out)
}

#[tactic(auto, unfolding(crate::specs::Head::opened))]
fn put_opened(out: &mut Vec<u8>) -> Result<(), AllocError>
    ensures { OnOk result (out.new.items ≡ out.old.items ++ opened) }
{
    out.extend_from_slice(b"<svg xmlns=\"http://www.w3.org/2000/svg\"")
}

// Which ticks are drawn, of how many.
#[tactic(auto, unfolding(crate::specs::Head::ticks_text))]
fn put_ticks(work: &Work, layout: &Layout, out: &mut Vec<u8>) -> Result<(), AllocError>
    ensures { OnOk result (out.new.items ≡ out.old.items ++ ticks_text work.now layout.now) }
{
    let parts = [
        Part::Text(b"ticks "),
        Part::Number(layout.from as u64),
        Part::Text(b" to "),
        Part::Number(layout.to as u64),
        Part::Text(b" of "),
        Part::Number(work.limit as u64),
        Part::Text(b", "),
        Part::Number(work.hz as u64),
        Part::Text(b" in a second"),
    ];
    put_parts(&parts, out)
}

// How many threads and processors the workload has.
#[tactic(auto, unfolding(crate::specs::Head::counts_text))]
fn put_counts(work: &Work, out: &mut Vec<u8>) -> Result<(), AllocError>
    ensures { OnOk result (out.new.items ≡ out.old.items ++ counts_text work.now) }
{
    let threads = work.threads.items().len();
    let parts = [
        Part::Text(b"threads: "),
        Part::Number(threads as u64),
        Part::Text(b", processors: "),
        Part::Number(work.cpus as u64),
    ];
    put_parts(&parts, out)
}

// The title of the file, for readers of screens.
#[tactic(auto, unfolding(crate::specs::Head::file_title))]
fn put_file_title(work: &Work, out: &mut Vec<u8>) -> Result<(), AllocError>
    ensures { OnOk result (out.new.items ≡ out.old.items ++ file_title work.now) }
{
    out.extend_from_slice(b"<title>")?;
    put_counts(work, out)?;
    out.extend_from_slice(b"</title>\n")
}

// What it shows.
#[tactic(auto, unfolding(crate::specs::Head::description))]
fn put_description(work: &Work, layout: &Layout, out: &mut Vec<u8>) -> Result<(), AllocError>
    ensures { OnOk result (out.new.items ≡ out.old.items ++ description work.now layout.now) }
{
    out.extend_from_slice(b"<desc>")?;
    put_ticks(work, layout, out)?;
    out.extend_from_slice(b"</desc>\n")
}

// What makes the picture look as it does.
fn put_looks(out: &mut Vec<u8>) -> Result<(), AllocError>
    ensures { OnOk result (out.new.items ≡ out.old.items ++ (style ++ patterns ++ page)) }
{
    put_style(out)?;
    put_patterns(out)?;
    put_page(out)
}

// The start of the file, up to the white page.
#[tactic(auto, unfolding(crate::specs::Head::start))]
fn put_start(work: &Work, layout: &Layout, lines: u64, out: &mut Vec<u8>) -> Result<(), AllocError>
    requires { lines < 2 ^ 32 }
    ensures { OnOk result (out.new.items ≡ out.old.items ++ start work.now layout.now lines) }
{
    put_opened(out)?;
    put_size(layout, lines, out)?;
    put_file_title(work, out)?;
    put_description(work, layout, out)?;
    put_looks(out)
}

#[tactic(auto, unfolding(crate::specs::Head::rowless_text))]
fn put_rowless_text(n: u64, out: &mut Vec<u8>) -> Result<(), AllocError>
    ensures { OnOk result (out.new.items ≡ out.old.items ++ rowless_text n) }
{
    put_counted(b"; threads that have no row: ", n, out)
}

// How many threads have no row, where some have none.
fn put_rowless(work: &Work, layout: &Layout, out: &mut Vec<u8>) -> Result<(), AllocError>
    ensures { OnOk result (out.new.items ≡ out.old.items ++ rowless work.now layout.now) }
{
    let threads = work.threads.items().len();
    let rows = usize::from(layout.threads);
    if rows < threads {
        put_rowless_text((threads - rows) as u64, out)
    } else {
        Ok(())
    }
}

#[tactic(auto, unfolding(crate::specs::Head::heading))]
fn put_heading(work: &Work, layout: &Layout, out: &mut Vec<u8>) -> Result<(), AllocError>
    ensures { OnOk result (out.new.items ≡ out.old.items ++ heading work.now layout.now) }
{
    put_label_start(b"head", 20, 20, out)?;
    put_ticks(work, layout, out)?;
    out.extend_from_slice(b"; ")?;
    put_counts(work, out)?;
    put_rowless(work, layout, out)?;
    put_label_end(out)
}

// The number of a tick on the axis between rows.
#[tactic(auto, unfolding(crate::specs::Head::inner_number))]
fn put_inner_number(layout: &Layout, tick: u32, k: u32, out: &mut Vec<u8>) -> Result<(), AllocError>
    requires { k < 2 ^ 17 }
    ensures { OnOk result (out.new.items ≡ out.old.items ++ inner_number layout.now tick k) }
{
    put_number_label(
        b"tick",
        layout.column(tick),
        layout.axis_base(k),
        b"",
        u64::from(tick),
        out,
    )
}

// After every 40 rows.
fn put_inner_numbers(layout: &Layout, tick: u32, out: &mut Vec<u8>) -> Result<(), AllocError>
    ensures { OnOk result (out.new.items ≡ out.old.items ++ flat_map (inner_number layout.now tick) (range_with_len 0 (axes layout.now))) }
{
    for k in 0..layout.axes() {
        put_inner_number(layout, tick, k, out)?;
    }
    Ok(())
}

// The number of a tick on the axis above, a line down from it, and the number again below and after every 40 rows.
#[tactic(auto, unfolding(crate::specs::Head::mark))]
fn put_mark(layout: &Layout, tick: u32, out: &mut Vec<u8>) -> Result<(), AllocError>
    ensures { OnOk result (out.new.items ≡ out.old.items ++ mark layout.now tick) }
{
    let x = layout.column(tick);
    let number = u64::from(tick);
    put_line(b"grid", (x, 50), (x, layout.bottom()), out)?;
    put_number_label(b"tick", x, 44, b"", number, out)?;
    put_number_label(b"tick", x, layout.bottom() + 14, b"", number, out)?;
    put_inner_numbers(layout, tick, out)
}

// The mark of tick n of those that are drawn.
fn put_mark_if(layout: &Layout, n: u32, out: &mut Vec<u8>) -> Result<(), AllocError>
    requires { n ≤ shown layout.now }
    ensures { OnOk result (out.new.items ≡ out.old.items ++ mark_if layout.now n) }
{
    let tick = layout.tick(n);
    if n % layout.step() == 0 && layout.is_clear(tick) {
        put_mark(layout, tick, out)
    } else {
        Ok(())
    }
}

fn put_ticks_before(layout: &Layout, count: u32, out: &mut Vec<u8>) -> Result<(), AllocError>
    requires { count ≤ shown layout.now }
    ensures { OnOk result (out.new.items ≡ out.old.items ++ flat_map (mark_if layout.now) (range_with_len 0 count)) }
{
    for n in 0..count {
        put_mark_if(layout, n, out)?;
    }
    Ok(())
}

// The ticks on both sides of a fold.
#[tactic(auto, unfolding(crate::specs::Head::fold_marks))]
fn put_fold_marks(layout: &Layout, x: &Column, out: &mut Vec<u8>) -> Result<(), AllocError>
    ensures { OnOk result (out.new.items ≡ out.old.items ++ fold_marks layout.now x.now) }
{
    put_mark(layout, x.from, out)?;
    put_mark(layout, x.to, out)
}

fn put_folds(layout: &Layout, folds: &[Column], out: &mut Vec<u8>) -> Result<(), AllocError>
    ensures { OnOk result (out.new.items ≡ out.old.items ++ flat_map (fold_marks layout.now) folds.now) }
{
    for x in folds {
        put_fold_marks(layout, x, out)?;
    }
    Ok(())
}

// The axis.
#[tactic(auto, unfolding(crate::specs::Head::axis))]
fn put_axis(layout: &Layout, out: &mut Vec<u8>) -> Result<(), AllocError>
    ensures { OnOk result (out.new.items ≡ out.old.items ++ axis layout.now) }
{
    put_word_label(b"side", 126, 44, b"tick", out)?;
    put_ticks_before(layout, layout.shown(), out)?;
    put_mark_if(layout, layout.shown(), out)?;
    put_folds(layout, &layout.folds, out)
}

// The name of the set of a processor, under its name; the default partition has none.
#[tactic(auto, unfolding(crate::specs::Head::set_label))]
fn put_set_label(
    work: &Work,
    layout: &Layout,
    c: u16,
    set: SetId,
    out: &mut Vec<u8>,
) -> Result<(), AllocError>
    ensures { OnOk result (out.new.items ≡ out.old.items ++ set_label work.now layout.now c set.0) }
{
    if set.0 == 0 {
        return Ok(());
    }
    put_word_label(
        b"side",
        126,
        layout.beneath(Row::Cpu(c)),
        set_name(work, set),
        out,
    )
}

// The name of a processor's row, and the line on which its bars stand.
#[tactic(auto, unfolding(crate::specs::Head::cpu_head))]
fn put_cpu_head(work: &Work, layout: &Layout, c: u16, out: &mut Vec<u8>) -> Result<(), AllocError>
    ensures { OnOk result (out.new.items ≡ out.old.items ++ cpu_head work.now layout.now c) }
{
    let row = Row::Cpu(c);
    put_set_label(work, layout, c, set_of_cpu(work, CpuId(c)), out)?;
    put_number_label(
        b"name",
        126,
        layout.base(row),
        b"processor ",
        u64::from(c),
        out,
    )?;
    put_line(
        b"base",
        (150, layout.floor(row)),
        (layout.column(layout.to), layout.floor(row)),
        out,
    )
}

// The names of the processors' rows.
fn put_cpu_heads(work: &Work, layout: &Layout, out: &mut Vec<u8>) -> Result<(), AllocError>
    ensures { OnOk result (out.new.items ≡ out.old.items ++ flat_map (cpu_head work.now layout.now) (range_with_len 0 layout.now.cpus)) }
{
    for c in 0..layout.cpus {
        put_cpu_head(work, layout, c, out)?;
    }
    Ok(())
}

// The colour and the texture of a thread, beside its name.
fn put_swatch(layout: &Layout, row: u16, t: usize, out: &mut Vec<u8>) -> Result<(), AllocError>
    ensures { OnOk result (out.new.items ≡ out.old.items ++ swatch layout.now row t) }
{
    let y = layout.top(Row::Thread(row)) + 3;
    put_cover(colour_name(colour_of(t)), 131, y, 12, 12, out)?;
    put_texture(texture_of(t), 131, y, 12, 12, out)
}

/// The name of a thread at its row.
#[tactic(auto, unfolding(crate::specs::Head::thread_head))]
pub(crate) fn put_thread_head(
    work: &Work,
    layout: &Layout,
    row: u16,
    t: usize,
    out: &mut Vec<u8>,
) -> Result<(), AllocError>
    ensures { OnOk result (out.new.items ≡ out.old.items ++ thread_head work.now layout.now row t) }
{
    let base = layout.base(Row::Thread(row));
    put_word_label(b"name", 126, base, thread_name(work, t), out)?;
    put_swatch(layout, row, t, out)
}

/// To which processor a thread is bound, under its name.
pub(crate) fn put_bound_label(
    layout: &Layout,
    row: u16,
    bound: Option<CpuId>,
    out: &mut Vec<u8>,
) -> Result<(), AllocError>
    ensures { OnOk result (out.new.items ≡ out.old.items ++ bound_label layout.now row bound) }
{
    match bound {
        Some(c) => put_number_label(
            b"side",
            126,
            layout.beneath(Row::Thread(row)),
            b"bound to ",
            u64::from(c.0),
            out,
        ),
        None => Ok(()),
    }
}

/// All that stands above the rows, and the names of the processors' rows, where the legend has so many lines.
#[tactic(auto, unfolding(crate::specs::Head::head))]
pub(crate) fn put_head(
    work: &Work,
    layout: &Layout,
    lines: u64,
    out: &mut Vec<u8>,
) -> Result<(), AllocError>
    requires { lines < 2 ^ 32 }
    ensures { OnOk result (out.new.items ≡ out.old.items ++ head work.now layout.now lines) }
{
    put_start(work, layout, lines, out)?;
    put_heading(work, layout, out)?;
    put_axis(layout, out)?;
    put_cpu_heads(work, layout, out)
}
