//! The words of which events are made. Each function appends a text. Where memory runs out it may have appended a part of it.

ghost use Rattle.std.specs.Prelude.{◌≡◌, ◌++◌, OnOk};
ghost use Rattle.sd_trace.specs.Words.{class_word, cpu_number, hold_number, micros, place_at, thread_number};

use sd_stretches::put_counted;
use sd_types::{Class, Work};
use std::alloc::AllocError;

/// A tick in microseconds.
pub(crate) fn micros(work: &Work, ticks: u32) -> u64
    ensures { result ≡ micros work.now ticks }
{
    if work.hz == 1000 {
        u64::from(ticks) * 1000
    } else {
        u64::from(ticks) * 10000
    }
}

/// The number of the track of a processor, which no process has.
pub(crate) fn cpu_number(c: u16) -> u64
    ensures { result ≡ cpu_number c }
{
    u64::from(c) + 11
}

/// The number of the track of a thread, which none of the at most 64 processors has.
pub(crate) fn thread_number(t: u16) -> u64
    ensures { result ≡ thread_number t }
{
    u64::from(t) + 101
}

/// The number of the track of a lane of what a thread holds, which none of the at most 2,048 threads has.
pub(crate) fn hold_number(t: u16, lane: usize) -> u64
    ensures { result ≡ hold_number t lane }
{
    8 * u64::from(t) + lane.min(7) as u64 + 3001
}

/// The time, the process (1 has the processors, 2 the threads, 3 what they hold) and the track.
#[tactic(auto, unfolding(crate::specs::Words::place_at))]
pub(crate) fn put_place(
    work: &Work,
    tick: u32,
    process: u64,
    track: u64,
    out: &mut Vec<u8>,
) -> Result<(), AllocError>
    ensures { OnOk result (out.new.items ≡ out.old.items ++ place_at work.now tick process track) }
{
    put_counted(b",\"ts\":", micros(work, tick), out)?;
    put_counted(b",\"pid\":", process, out)?;
    put_counted(b",\"tid\":", track, out)
}

pub(crate) fn class_word(class: Class) -> &'static [u8]
    ensures { result.now ≡ class_word class }
{
    match class {
        Class::Ts => b"ts",
        Class::Fx => b"fx",
        Class::Sys => b"sys",
        Class::Rt => b"rt",
    }
}
