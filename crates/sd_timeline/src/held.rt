//! The locks that a thread holds, as bands with their names under its row.

ghost use Rattle.std.specs.Prelude.{◌≡◌, ◌++◌, OnOk, flat_map};
ghost use Rattle.sd_timeline.specs.Held.{band_text, bands_text, held_title, held_words, is_shown_hold, lock_word};

use crate::arrows::has_row;
use crate::bars::{fits, put_between};
use crate::parts::{Part, put_parts};
use crate::pieces::{put_bar_end, put_bar_start, put_word_label};
use sd_holds::{Band, Hold, bands};
use sd_layout::Layout;
use sd_stretches::{lock_name, put_counted, thread_name};
use sd_types::Work;
use std::alloc::{AllocError, Global};

// Who holds what.
#[tactic(auto, unfolding(crate::specs::Held::held_words))]
fn put_held_words(work: &Work, x: &Hold, out: &mut Vec<u8>) -> Result<(), AllocError>
    ensures { OnOk result (out.new.items ≡ out.old.items ++ held_words work.now x.now) }
{
    let parts = [
        Part::Text(thread_name(work, usize::from(x.thread.0))),
        Part::Text(b" holds "),
        Part::Text(lock_name(work, x.lock)),
    ];
    put_parts(&parts, out)
}

// What is shown on a band.
#[tactic(auto, unfolding(crate::specs::Held::held_title))]
fn put_held_title(work: &Work, x: &Hold, out: &mut Vec<u8>) -> Result<(), AllocError>
    ensures { OnOk result (out.new.items ≡ out.old.items ++ held_title work.now x.now) }
{
    put_held_words(work, x, out)?;
    put_between(b", ticks ", u64::from(x.from), u64::from(x.to), out)?;
    put_counted(b", from entry ", x.taken, out)
}

// The lock's name on a band, where it fits.
fn put_lock_word(
    work: &Work,
    layout: &Layout,
    row: u16,
    band: &Band,
    out: &mut Vec<u8>,
) -> Result<(), AllocError>
    ensures { OnOk result (out.new.items ≡ out.old.items ++ lock_word work.now layout.now row band.now) }
{
    let x = band.hold;
    let name = lock_name(work, x.lock);
    if fits(name.len(), layout.width(x.from, x.to)) {
        put_word_label(
            b"held",
            layout.beside(x.from),
            layout.lane_base(row, band.lane),
            name,
            out,
        )
    } else {
        Ok(())
    }
}

#[tactic(auto, unfolding(crate::specs::Held::band_text))]
fn put_band(
    work: &Work,
    layout: &Layout,
    row: u16,
    band: &Band,
    out: &mut Vec<u8>,
) -> Result<(), AllocError>
    ensures { OnOk result (out.new.items ≡ out.old.items ++ band_text work.now layout.now row band.now) }
{
    let x = band.hold;
    put_bar_start(
        b"hold",
        layout.column(x.from),
        layout.lane_top(row, band.lane),
        layout.width(x.from, x.to),
        13,
        out,
    )?;
    put_held_title(work, &x, out)?;
    put_bar_end(out)?;
    put_lock_word(work, layout, row, band, out)
}

fn put_all_bands(
    work: &Work,
    layout: &Layout,
    row: u16,
    own: &[Band],
    out: &mut Vec<u8>,
) -> Result<(), AllocError>
    ensures { OnOk result (out.new.items ≡ out.old.items ++ flat_map (band_text work.now layout.now row) own.now) }
{
    for band in own {
        put_band(work, layout, row, band, out)?;
    }
    Ok(())
}

/// The bands of a thread under its row, of these holds.
pub(crate) fn put_bands(
    alloc: Global,
    work: &Work,
    layout: &Layout,
    holds: &[Hold],
    t: usize,
    row: u16,
    out: &mut Vec<u8>,
) -> Result<(), AllocError>
    ensures { OnOk result (out.new.items ≡ out.old.items ++ bands_text work.now layout.now holds.now t row) }
{
    let own = bands(alloc, holds, t, layout.from, layout.to)?;
    put_all_bands(work, layout, row, &own, out)
}

/// A band is drawn of the hold.
pub(crate) fn is_shown_hold(layout: &Layout, x: &Hold) -> bool
    ensures { result ≡ is_shown_hold layout.now x.now }
{
    has_row(layout, usize::from(x.thread.0))
}
