//! The slices of the locks that threads hold.

ghost use Rattle.std.specs.Prelude.{◌≡◌, ◌++◌, OnOk, flat_map};
ghost use Rattle.sd_trace.specs.Holds.{given_argument, hold_arguments, hold_slice, taken_arguments};

use crate::slices::{put_length, put_slice_kind};
use crate::words::{hold_number, put_place};
use sd_holds::{Band, Hold};
use sd_stretches::{lock_name, put_counted};
use sd_types::Work;
use std::alloc::AllocError;

// By which entry the lock is given up, if it is.
fn put_given(given: Option<u64>, out: &mut Vec<u8>) -> Result<(), AllocError>
    ensures { OnOk result (out.new.items ≡ out.old.items ++ given_argument given) }
{
    match given {
        Some(n) => put_counted(b",\"given up by entry\":", n, out),
        None => Ok(()),
    }
}

#[tactic(auto, unfolding(crate::specs::Holds::taken_arguments))]
fn put_taken(x: &Hold, out: &mut Vec<u8>) -> Result<(), AllocError>
    ensures { OnOk result (out.new.items ≡ out.old.items ++ taken_arguments x.now) }
{
    put_counted(b",\"args\":{\"taken by entry\":", x.taken, out)?;
    put_given(x.given, out)
}

#[tactic(auto, unfolding(crate::specs::Holds::hold_arguments))]
fn put_arguments(x: &Hold, out: &mut Vec<u8>) -> Result<(), AllocError>
    ensures { OnOk result (out.new.items ≡ out.old.items ++ hold_arguments x.now) }
{
    put_taken(x, out)?;
    out.extend_from_slice(b"}}")
}

// A slice with the name of the lock, on the track of its lane.
#[tactic(auto, unfolding(crate::specs::Holds::hold_slice))]
fn put_hold(work: &Work, band: &Band, out: &mut Vec<u8>) -> Result<(), AllocError>
    ensures { OnOk result (out.new.items ≡ out.old.items ++ hold_slice work.now band.now) }
{
    let x = band.hold;
    out.extend_from_slice(b",\n{\"name\":\"")?;
    out.extend_from_slice(lock_name(work, x.lock))?;
    put_slice_kind(b"hold", out)?;
    put_place(work, x.from, 3, hold_number(x.thread.0, band.lane), out)?;
    put_length(work, x.from, x.to, out)?;
    put_arguments(&x, out)
}

/// The slices of what a thread holds, on its tracks.
pub(crate) fn put_holds(work: &Work, own: &[Band], out: &mut Vec<u8>) -> Result<(), AllocError>
    ensures { OnOk result (out.new.items ≡ out.old.items ++ flat_map (hold_slice work.now) own.now) }
{
    for band in own {
        put_hold(work, band, out)?;
    }
    Ok(())
}
