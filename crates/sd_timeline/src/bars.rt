//! The bars of the stretches of threads.

ghost use Rattle.std.specs.Prelude.{◌≡◌, ◌++◌, ◌+◌, ◌*◌, ◌<◌, ◌^◌, OnOk, flat_map, length};
ghost use Rattle.sd_timeline.specs.Bars.{bar_box, bar_class, bar_drop, bar_height, bar_text, between, cpu_on, cpu_word, fits, letter_ground, has_number, on_bar, on_cpu_bar, on_thread_bar, over_bar, place_text, run_bar, spot_of, stretch_bar, stretch_title, times_text, word_on, word_text};

use crate::colours::{colour_name, colour_of, put_texture, run_class, spin_class, texture_of};
use crate::parts::{Part, put_parts};
use crate::pieces::{put_bar_end, put_bar_start, put_cover, put_number_label, put_word_label};
use sd_layout::{Layout, Row};
use sd_stretches::{Doing, Stretch, chan_name, lock_name, put_counted, put_doing, thread_name};
use sd_types::{CpuId, Work};
use std::alloc::AllocError;

/// Where words stand on a bar: where their plain plate begins, and they do; the top of the plate, and the base line of the words; and
/// how long the bar is.
#[derive(Clone, Copy)]
pub(crate) struct Spot {
    pub(crate) plate: u64,
    pub(crate) words: u64,
    pub(crate) top: u64,
    pub(crate) base: u64,
    pub(crate) width: u64,
}

// What a thread does is told by the height and the pattern of its bar, and which thread it is by the colour.
fn bar_class(t: usize, doing: Doing) -> &'static [u8]
    ensures { result.now ≡ bar_class t doing }
{
    match doing {
        Doing::Running(_) => run_class(colour_of(t)),
        Doing::Spinning(_, _) => spin_class(colour_of(t)),
        Doing::Runnable => b"ready",
        Doing::Waiting(_) => b"wait",
        Doing::Asleep(_) => b"sleep",
        Doing::Napping => b"nap",
        Doing::Ended => b"end",
    }
}

/// How far the bar lies below the top of its row.
pub(crate) fn bar_drop(doing: Doing) -> u64
    ensures value { result ≡ bar_drop doing }
    ensures bound { result < 10 }
{
    match doing {
        Doing::Running(_) | Doing::Spinning(_, _) => 0,
        Doing::Runnable => 5,
        Doing::Waiting(_) => 1,
        Doing::Asleep(_) | Doing::Napping => 8,
        Doing::Ended => 9,
    }
}

/// The height of the bar.
pub(crate) fn bar_height(doing: Doing) -> u64
    ensures { result ≡ bar_height doing }
{
    match doing {
        Doing::Running(_) | Doing::Spinning(_, _) => 18,
        Doing::Runnable => 8,
        Doing::Waiting(_) => 16,
        Doing::Asleep(_) | Doing::Napping => 3,
        Doing::Ended => 1,
    }
}

// From one number to another.
#[tactic(auto, unfolding(crate::specs::Bars::between))]
pub(crate) fn put_between(
    word: &[u8],
    from: u64,
    to: u64,
    out: &mut Vec<u8>,
) -> Result<(), AllocError>
    ensures { OnOk result (out.new.items ≡ out.old.items ++ between word.now from to) }
{
    let parts = [
        Part::Text(word),
        Part::Number(from),
        Part::Text(b" to "),
        Part::Number(to),
    ];
    put_parts(&parts, out)
}

// Its ticks.
#[tactic(auto, unfolding(crate::specs::Bars::times_text))]
fn put_times(x: &Stretch, out: &mut Vec<u8>) -> Result<(), AllocError>
    ensures { OnOk result (out.new.items ≡ out.old.items ++ times_text x.now) }
{
    put_between(b", ticks ", u64::from(x.from), u64::from(x.to), out)
}

// Its ticks, priority and entries.
#[tactic(auto, unfolding(crate::specs::Bars::place_text))]
fn put_place(x: &Stretch, out: &mut Vec<u8>) -> Result<(), AllocError>
    ensures { OnOk result (out.new.items ≡ out.old.items ++ place_text x.now) }
{
    put_times(x, out)?;
    put_counted(b", priority ", u64::from(x.priority), out)?;
    put_between(b", entries ", x.first, x.last, out)
}

// What is shown on a bar.
#[tactic(auto, unfolding(crate::specs::Bars::stretch_title))]
pub(crate) fn put_title(work: &Work, x: &Stretch, out: &mut Vec<u8>) -> Result<(), AllocError>
    ensures { OnOk result (out.new.items ≡ out.old.items ++ stretch_title work.now x.now) }
{
    put_parts(
        &[Part::Text(thread_name(work, x.thread)), Part::Text(b": ")],
        out,
    )?;
    put_doing(work, x.doing, out)?;
    put_place(x, out)
}

/// A word of so many letters fits into this width, with its plate.
pub(crate) fn fits(len: usize, width: u64) -> bool
    ensures { result ≡ fits len width }
{
    0 < len && len as u64 <= width.saturating_sub(10) / 8
}

fn spot_of(layout: &Layout, row: Row, x: &Stretch) -> Spot
    ensures { result ≡ spot_of layout.now row x.now }
{
    Spot {
        plate: layout.inside(x.from),
        words: layout.beside(x.from),
        top: layout.top(row) + 2,
        base: layout.base(row),
        width: layout.width(x.from, x.to),
    }
}

// The plain plate of so many letters.
fn put_ground(class: &[u8], spot: Spot, len: u64, out: &mut Vec<u8>) -> Result<(), AllocError>
    requires { 8 * len + 6 < 2 ^ 64 }
    ensures { OnOk result (out.new.items ≡ out.old.items ++ letter_ground class.now spot len) }
{
    put_cover(class, spot.plate, spot.top, 8 * len + 6, 14, out)
}

#[tactic(auto, unfolding(crate::specs::Bars::word_on))]
fn put_word_on(
    plate: &[u8],
    class: &[u8],
    spot: Spot,
    word: &[u8],
    out: &mut Vec<u8>,
) -> Result<(), AllocError>
    requires { 8 * length word.now + 6 < 2 ^ 64 }
    ensures { OnOk result (out.new.items ≡ out.old.items ++ word_on plate.now class.now spot word.now) }
{
    put_ground(plate, spot, word.len() as u64, out)?;
    put_word_label(class, spot.words, spot.base, word, out)
}

// A word on a bar, where it fits.
#[tactic(auto, using(crate::proofs::RoomLemmas::fits_room))]
fn put_word(
    plate: &[u8],
    class: &[u8],
    spot: Spot,
    word: &[u8],
    out: &mut Vec<u8>,
) -> Result<(), AllocError>
    ensures { OnOk result (out.new.items ≡ out.old.items ++ word_text plate.now class.now spot word.now) }
{
    if fits(word.len(), spot.width) {
        put_word_on(plate, class, spot, word, out)
    } else {
        Ok(())
    }
}

// The processor on which a thread runs.
#[tactic(auto, unfolding(crate::specs::Bars::cpu_on))]
fn put_cpu_on(
    t: usize,
    spot: Spot,
    len: u64,
    word: &[u8],
    c: CpuId,
    out: &mut Vec<u8>,
) -> Result<(), AllocError>
    requires { len < 10 }
    ensures { OnOk result (out.new.items ≡ out.old.items ++ cpu_on t spot len word.now c) }
{
    put_ground(colour_name(colour_of(t)), spot, len, out)?;
    put_number_label(b"on", spot.words, spot.base, word, u64::from(c.0), out)
}

// As far as there is room for the word.
fn put_cpu(t: usize, spot: Spot, c: CpuId, out: &mut Vec<u8>) -> Result<(), AllocError>
    ensures { OnOk result (out.new.items ≡ out.old.items ++ cpu_word t spot c) }
{
    if fits(6, spot.width) {
        put_cpu_on(t, spot, 6, b"cpu ", c, out)
    } else if fits(2, spot.width) {
        put_cpu_on(t, spot, 2, b"", c, out)
    } else {
        Ok(())
    }
}

/// Whether the number of a processor stands on a bar of a thread's row.
pub(crate) fn has_number(width: u64, doing: Doing) -> bool
    ensures { result ≡ has_number width doing }
{
    match doing {
        Doing::Running(_) => fits(2, width),
        _ => false,
    }
}

// In the row of a processor the thread.
fn put_on_cpu_bar(work: &Work, spot: Spot, x: &Stretch, out: &mut Vec<u8>) -> Result<(), AllocError>
    ensures { OnOk result (out.new.items ≡ out.old.items ++ on_cpu_bar work.now spot x.now x.now.doing) }
{
    let name = thread_name(work, x.thread);
    match x.doing {
        Doing::Running(_) => { put_word(colour_name(colour_of(x.thread)), b"on", spot, name, out) }
        _ => put_word(b"plate", b"in", spot, name, out),
    }
}

// In the row of a thread the processor, lock or channel.
fn put_on_thread_bar(
    work: &Work,
    spot: Spot,
    t: usize,
    doing: Doing,
    out: &mut Vec<u8>,
) -> Result<(), AllocError>
    ensures { OnOk result (out.new.items ≡ out.old.items ++ on_thread_bar work.now spot t doing) }
{
    match doing {
        Doing::Running(c) => put_cpu(t, spot, c, out),
        Doing::Spinning(_, l) => put_word(b"plate", b"in", spot, lock_name(work, l), out),
        Doing::Waiting(l) => put_word(b"plate", b"in", spot, lock_name(work, l), out),
        Doing::Asleep(k) => put_word(b"plate", b"in", spot, chan_name(work, k), out),
        Doing::Ended => put_word(b"plate", b"note", spot, b"ended", out),
        _ => Ok(()),
    }
}

// What stands on a bar.
fn put_on_bar(
    work: &Work,
    layout: &Layout,
    row: Row,
    x: &Stretch,
    out: &mut Vec<u8>,
) -> Result<(), AllocError>
    ensures { OnOk result (out.new.items ≡ out.old.items ++ on_bar work.now layout.now row x.now) }
{
    let spot = spot_of(layout, row, x);
    match row {
        Row::Cpu(_) => put_on_cpu_bar(work, spot, x, out),
        Row::Thread(_) => put_on_thread_bar(work, spot, x.thread, x.doing, out),
    }
}

// The texture of the thread, where it runs, and the upright where it has ended.
fn put_over_bar(layout: &Layout, row: Row, x: &Stretch, out: &mut Vec<u8>) -> Result<(), AllocError>
    ensures { OnOk result (out.new.items ≡ out.old.items ++ over_bar layout.now row x.now x.now.doing) }
{
    let column = layout.column(x.from);
    let top = layout.top(row);
    match x.doing {
        Doing::Running(_) => {
            let width = layout.width(x.from, x.to);
            put_texture(texture_of(x.thread), column, top, width, 18, out)
        }
        Doing::Ended => put_cover(b"stop", column, top + 4, 2, 10, out),
        _ => Ok(()),
    }
}

// The rectangle of a stretch in a row.
#[tactic(auto, unfolding(crate::specs::Bars::bar_box))]
fn put_bar_box(
    work: &Work,
    layout: &Layout,
    row: Row,
    x: &Stretch,
    out: &mut Vec<u8>,
) -> Result<(), AllocError>
    ensures { OnOk result (out.new.items ≡ out.old.items ++ bar_box work.now layout.now row x.now) }
{
    put_bar_start(
        bar_class(x.thread, x.doing),
        layout.column(x.from),
        layout.top(row) + bar_drop(x.doing),
        layout.width(x.from, x.to),
        bar_height(x.doing),
        out,
    )?;
    put_title(work, x, out)?;
    put_bar_end(out)
}

#[tactic(auto, unfolding(crate::specs::Bars::bar_text))]
fn put_whole_bar(
    work: &Work,
    layout: &Layout,
    row: Row,
    x: &Stretch,
    out: &mut Vec<u8>,
) -> Result<(), AllocError>
    ensures { OnOk result (out.new.items ≡ out.old.items ++ bar_text work.now layout.now row x.now) }
{
    put_bar_box(work, layout, row, x, out)?;
    put_over_bar(layout, row, x, out)?;
    put_on_bar(work, layout, row, x, out)
}

// The bar of a stretch in a row, where any tick of it is drawn.
fn put_bar(
    work: &Work,
    layout: &Layout,
    row: Row,
    x: &Stretch,
    out: &mut Vec<u8>,
) -> Result<(), AllocError>
    ensures { OnOk result (out.new.items ≡ out.old.items ++ stretch_bar work.now layout.now row x.now) }
{
    if layout.width(x.from, x.to) == 0 {
        Ok(())
    } else {
        put_whole_bar(work, layout, row, x, out)
    }
}

// The bar of a stretch in the row of the processor on which the thread runs.
fn put_run_bar(
    work: &Work,
    layout: &Layout,
    x: &Stretch,
    out: &mut Vec<u8>,
) -> Result<(), AllocError>
    ensures { OnOk result (out.new.items ≡ out.old.items ++ run_bar work.now layout.now x.now) }
{
    match x.doing {
        Doing::Running(c) => put_bar(work, layout, Row::Cpu(c.0), x, out),
        Doing::Spinning(c, _) => put_bar(work, layout, Row::Cpu(c.0), x, out),
        _ => Ok(()),
    }
}

/// The bars of a thread in the rows of processors.
pub(crate) fn put_run_bars(
    work: &Work,
    layout: &Layout,
    own: &[Stretch],
    out: &mut Vec<u8>,
) -> Result<(), AllocError>
    ensures { OnOk result (out.new.items ≡ out.old.items ++ flat_map (run_bar work.now layout.now) own.now) }
{
    for x in own {
        put_run_bar(work, layout, x, out)?;
    }
    Ok(())
}

/// The bars of a thread in its own row.
pub(crate) fn put_bars(
    work: &Work,
    layout: &Layout,
    t: u16,
    own: &[Stretch],
    out: &mut Vec<u8>,
) -> Result<(), AllocError>
    ensures { OnOk result (out.new.items ≡ out.old.items ++ flat_map (stretch_bar work.now layout.now (Row.Thread t)) own.now) }
{
    for x in own {
        put_bar(work, layout, Row::Thread(t), x, out)?;
    }
    Ok(())
}
