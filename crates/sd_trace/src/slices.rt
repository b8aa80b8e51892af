//! The slices of the stretches of threads.

ghost use Rattle.std.specs.Prelude.{◌≡◌, ◌++◌, OnOk, codes, decimal, flat_map, max};
ghost use Rattle.sd_state.specs.Texts.{thread_name};
ghost use Rattle.sd_trace.specs.Slices.{about, class_argument, class_start, entry_arguments, length_of, priority_argument, run_name, run_slice, slice_kind, spin_words, state_slice, state_slices};

use crate::words::{class_word, cpu_number, micros, put_place};
use sd_stretches::{Doing, Stretch, lock_name, put_counted, put_doing, thread_name};
use sd_types::Work;
use std::alloc::AllocError;

#[tactic(auto, unfolding(crate::specs::Slices::class_start))]
fn put_class_start(out: &mut Vec<u8>) -> Result<(), AllocError>
    ensures { OnOk result (out.new.items ≡ out.old.items ++ class_start) }
{
    out.extend_from_slice(b",\"args\":{\"class\":\"")
}

#[tactic(auto, unfolding(crate::specs::Slices::class_argument))]
fn put_class(word: &[u8], out: &mut Vec<u8>) -> Result<(), AllocError>
    ensures { OnOk result (out.new.items ≡ out.old.items ++ class_argument word.now) }
{
    put_class_start(out)?;
    out.extend_from_slice(word)
}

#[tactic(auto, unfolding(crate::specs::Slices::priority_argument))]
fn put_priority(priority: u64, out: &mut Vec<u8>) -> Result<(), AllocError>
    ensures { OnOk result (out.new.items ≡ out.old.items ++ priority_argument priority) }
{
    put_counted(b"\",\"priority\":", priority, out)
}

#[tactic(auto, unfolding(crate::specs::Slices::entry_arguments))]
fn put_entries(first: u64, last: u64, out: &mut Vec<u8>) -> Result<(), AllocError>
    ensures { OnOk result (out.new.items ≡ out.old.items ++ entry_arguments first last) }
{
    put_counted(b",\"first entry\":", first, out)?;
    put_counted(b",\"last entry\":", last, out)?;
    out.extend_from_slice(b"}}")
}

// Class, priority and entries of a stretch.
#[tactic(auto, unfolding(crate::specs::Slices::about))]
fn put_about(x: &Stretch, out: &mut Vec<u8>) -> Result<(), AllocError>
    ensures { OnOk result (out.new.items ≡ out.old.items ++ about x.now) }
{
    put_class(class_word(x.class), out)?;
    put_priority(u64::from(x.priority), out)?;
    put_entries(x.first, x.last, out)
}

/// How long a slice is.
#[tactic(auto, unfolding(crate::specs::Slices::length_of))]
pub(crate) fn put_length(
    work: &Work,
    from: u32,
    to: u32,
    out: &mut Vec<u8>,
) -> Result<(), AllocError>
    ensures { OnOk result (out.new.items ≡ out.old.items ++ length_of work.now from to) }
{
    put_counted(b",\"dur\":", micros(work, to.saturating_sub(from)), out)
}

/// The kind of a slice.
#[tactic(auto, unfolding(crate::specs::Slices::slice_kind))]
pub(crate) fn put_slice_kind(category: &[u8], out: &mut Vec<u8>) -> Result<(), AllocError>
    ensures { OnOk result (out.new.items ≡ out.old.items ++ slice_kind category.now) }
{
    out.extend_from_slice(b"\",\"cat\":\"")?;
    out.extend_from_slice(category)?;
    out.extend_from_slice(b"\",\"ph\":\"X\"")
}

// For which lock the thread spins, if it does.
#[tactic(auto, unfolding(crate::specs::Slices::spin_words))]
fn put_spin_words(work: &Work, doing: Doing, out: &mut Vec<u8>) -> Result<(), AllocError>
    ensures { OnOk result (out.new.items ≡ out.old.items ++ spin_words work.now doing) }
{
    match doing {
        Doing::Spinning(_, l) => {
            out.extend_from_slice(b" spins for ")?;
            out.extend_from_slice(lock_name(work, l))
        }
        _ => Ok(()),
    }
}

// Who runs, and for which lock the thread spins, if it does.
#[tactic(auto, unfolding(crate::specs::Slices::run_name))]
fn put_run_name(work: &Work, x: &Stretch, out: &mut Vec<u8>) -> Result<(), AllocError>
    ensures { OnOk result (out.new.items ≡ out.old.items ++ run_name work.now x.now) }
{
    out.extend_from_slice(thread_name(work, x.thread))?;
    put_spin_words(work, x.doing, out)
}

// A slice on the track of a processor.
#[tactic(auto, unfolding(crate::specs::Slices::run_slice))]
fn put_run_slice(work: &Work, c: u16, x: &Stretch, out: &mut Vec<u8>) -> Result<(), AllocError>
    ensures { OnOk result (out.new.items ≡ out.old.items ++ run_slice work.now c x.now) }
{
    out.extend_from_slice(b",\n{\"name\":\"")?;
    put_run_name(work, x, out)?;
    put_slice_kind(b"run", out)?;
    put_place(work, x.from, 1, cpu_number(c), out)?;
    put_length(work, x.from, x.to, out)?;
    put_about(x, out)
}

/// The slices of a processor on its track.
pub(crate) fn put_run_slices(
    work: &Work,
    c: u16,
    slices: &[Stretch],
    out: &mut Vec<u8>,
) -> Result<(), AllocError>
    ensures { OnOk result (out.new.items ≡ out.old.items ++ flat_map (run_slice work.now c) slices.now) }
{
    for x in slices {
        put_run_slice(work, c, x, out)?;
    }
    Ok(())
}

fn later(x: u32, y: u32) -> u32
    ensures { result ≡ max x y }
{
    x.max(y)
}

// A slice on the track of a thread.
#[tactic(auto, unfolding(crate::specs::Slices::state_slice))]
fn put_state(
    work: &Work,
    track: u64,
    from: u32,
    to: u32,
    x: &Stretch,
    out: &mut Vec<u8>,
) -> Result<(), AllocError>
    ensures { OnOk result (out.new.items ≡ out.old.items ++ state_slice work.now track from to x.now) }
{
    out.extend_from_slice(b",\n{\"name\":\"")?;
    put_doing(work, x.doing, out)?;
    put_slice_kind(b"state", out)?;
    put_place(work, from, 2, track, out)?;
    put_length(work, from, to, out)?;
    put_about(x, out)
}

/// The slices of a thread on its own track, one for each stretch, without an overlap.
pub(crate) fn put_states(
    work: &Work,
    track: u64,
    own: &[Stretch],
    out: &mut Vec<u8>,
) -> Result<(), AllocError>
    ensures { OnOk result (out.new.items ≡ out.old.items ++ state_slices work.now track 0 own.now) }
{
    let mut from = 0;
    let mut left = own;
    while let Some((x, rest)) = left.split_first() {
        let to = later(from, x.to);
        put_state(work, track, from, to, x, out)?;
        from = to;
        left = rest;
    }
    Ok(())
}
