//! An entry without what its place tells, and without the numbers that it read: where those lie.

ghost use Rattle.std.specs.Prelude.{◌≡◌, ◌++◌, ◌+◌, ◌<◌, ◌≤◌, ◌^◌, ℕ, List, drop, length, take, vec_capacity, vec_len};
ghost use Rattle.sd_types.specs.declared.events.Event.TheVariants.{Idle};
ghost use Rattle.sd_types.specs.Limits.{most_processors};
ghost use Rattle.sd_log.specs.Parts.{listed, numbers_of, whole, zeros_read};
ghost use Rattle.sd_log.specs.Short.{IsWithin, entry_at, kind_of, numbers_at, reading_of};

use crate::parts::{Numbers, Parts, numbers_of};
use sd_basics::known;
use sd_types::{CpuId, Event, Hints, Which};
use std::mem::size_of;

/// Which numbers of the processors an entry read, if any.
#[derive(Clone, Copy)]
pub(crate) enum Reading {
    Nothing,
    Running,
    Queued,
    /// Of queues, and each is 0: as most often. They take no bytes.
    Zeros,
}

/// An entry: its number is its place, and the numbers that it read are so many bytes from `from` on, or so many zeros.
#[derive(Clone, Copy)]
pub(crate) struct ShortEntry {
    pub(crate) event: Event,
    pub(crate) from: u32,
    pub(crate) cpu: CpuId,
    pub(crate) count: u8,
    pub(crate) reading: Reading,
}

const _: () = prove!(size_of::<ShortEntry>() == 28);

/// What was read.
fn reading_of(hints: &Option<Hints>) -> Reading
    ensures { result ≡ reading_of hints.now }
{
    match hints {
        None => Reading::Nothing,
        Some(hints) => match hints.which {
            Which::Running => Reading::Running,
            Which::Queued => Reading::Queued,
        },
    }
}

/// Of which kind the numbers are that were read.
#[inline(always)]
fn kind_of(reading: Reading) -> Option<Which>
    ensures { result ≡ kind_of reading }
{
    match reading {
        Reading::Nothing => None,
        Reading::Running => Some(Which::Running),
        Reading::Queued => Some(Which::Queued),
        Reading::Zeros => Some(Which::Queued),
    }
}

/// An idle tick after so many zeros were read of queues.
#[inline(always)]
pub(crate) fn idle(cpu: CpuId, count: usize) -> ShortEntry
    requires { count ≤ most_processors }
    ensures within { (many : ℕ) → IsWithin many result }
    ensures entry { (bytes : List ℕ) (i : ℕ) → entry_at bytes i result ≡ record { number = i; cpu = cpu; event = Idle; hints = zeros_read count } }
{
    let reading = if count == 0 {
        Reading::Nothing
    } else {
        Reading::Zeros
    };
    ShortEntry {
        event: Event::Idle,
        from: 0,
        cpu,
        count: count as u8,
        reading,
    }
}

/// So many bytes from `from` on.
#[inline(always)]
fn bytes_at(bytes: &[u8], from: u32, count: u8) -> &[u8]
    requires { from + count ≤ length bytes.now }
    ensures { result.now ≡ take count (drop from bytes.now) }
{
    let from = from as usize;
    &bytes[from..from + count as usize]
}

/// The numbers that were read.
#[inline(always)]
fn numbers_at<'a>(bytes: &'a [u8], short: &ShortEntry) -> Numbers<'a>
    requires { IsWithin (length bytes.now) short.now }
    ensures { listed result ≡ numbers_at bytes.now short.now.reading short.now.from short.now.count }
{
    match short.reading {
        Reading::Nothing => Numbers::Bytes(bytes_at(bytes, short.from, short.count)),
        Reading::Running => Numbers::Bytes(bytes_at(bytes, short.from, short.count)),
        Reading::Queued => Numbers::Bytes(bytes_at(bytes, short.from, short.count)),
        Reading::Zeros => Numbers::Zeros(short.count as usize),
    }
}

/// Puts the numbers that were read behind the others, where there is room. Most entries read none.
fn put_numbers(bytes: &mut Vec<u8>, hints: &Option<Hints>) -> u8
    requires { vec_len bytes.old + most_processors ≤ vec_capacity bytes.old }
    ensures bytes { bytes.new.items ≡ bytes.old.items ++ numbers_of hints.now }
    ensures len { vec_len bytes.new ≡ vec_len bytes.old + result }
    ensures capacity { vec_capacity bytes.old ≤ vec_capacity bytes.new }
    ensures count { result ≡ length (numbers_of hints.now) }
    ensures fits { result ≤ most_processors }
{
    let numbers = numbers_of(hints);
    if numbers.is_empty() {
        return 0;
    }
    let put = bytes.extend_from_slice(numbers);
    known(put.is_ok());
    match put {
        Ok(()) => numbers.len() as u8,
        Err(_) => unreachable!(),
    }
}

/// The entry, whose numbers are put behind the others, where there is room.
pub(crate) fn shorten(
    bytes: &mut Vec<u8>,
    cpu: CpuId,
    event: Event,
    hints: &Option<Hints>,
) -> ShortEntry
    requires room { vec_len bytes.old + most_processors ≤ vec_capacity bytes.old }
    requires few { vec_len bytes.old < 2 ^ 32 }
    ensures bytes { bytes.new.items ≡ bytes.old.items ++ numbers_of hints.now }
    ensures len { vec_len bytes.new ≤ vec_len bytes.old + most_processors }
    ensures capacity { vec_capacity bytes.old ≤ vec_capacity bytes.new }
    ensures within { IsWithin (length bytes.new.items) result }
    ensures entry { (i : ℕ) → entry_at bytes.new.items i result ≡ record { number = i; cpu = cpu; event = event; hints = hints.now } }
{
    let from = bytes.len() as u32;
    let count = put_numbers(bytes, hints);
    ShortEntry {
        event,
        from,
        cpu,
        count,
        reading: reading_of(hints),
    }
}

/// The parts of the entry with this number.
#[inline(always)]
pub(crate) fn parts_at<'a>(bytes: &'a [u8], number: usize, short: &'a ShortEntry) -> Parts<'a>
    requires { IsWithin (length bytes.now) short.now }
    ensures whole { whole result ≡ entry_at bytes.now number short.now }
    ensures few { length (listed result.numbers) ≤ most_processors }
{
    Parts {
        number: number as u64,
        cpu: short.cpu,
        event: &short.event,
        which: kind_of(short.reading),
        numbers: numbers_at(bytes, short),
    }
}
