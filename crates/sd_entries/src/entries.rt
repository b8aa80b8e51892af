//! The line of an entry.

ghost use Rattle.std.specs.Prelude.{◌≡◌, ◌+◌, ◌*◌, ◌≤◌, ◌++◌, ◌∷◌, OnOk, OnErr, codes, decimal, drop, length, replicate, slice_range, take};
ghost use Rattle.std.specs.List.{flat_map};
ghost use Rattle.sd_types.specs.Limits.{most_processors};
ghost use Rattle.sd_log.specs.Parts.{hints_of, listed, whole};
ghost use Rattle.sd_machine.specs.Texts.{entry_text, event_text, hints_text, numbers_text};

use crate::counting::{NUMBER_END, put_entry_number};
use crate::events::put_frequent_event;
use crate::line::{Line, ROOM, put_byte, put_number, put_small, put_two};
use sd_log::{Numbers, Parts};
use sd_types::{CpuId, Entry, Which, Work};
use std::alloc::AllocError;

// `,7`
#[inline(always)]
fn put_comma_number(n: u8, line: &mut Line, from: usize) -> usize
    requires { from + 4 ≤ ROOM }
    ensures text { take result line.new ≡ take from line.old ++ (44 ∷ decimal n) }
    ensures within { result ≤ from + 4 }
{
    let from = put_byte(b',', line, from);
    put_small(n, line, from)
}

// Each number with a comma before it.
fn put_comma_numbers(numbers: &[u8], line: &mut Line, from: usize) -> usize
    requires { from + 4 * length numbers.now ≤ ROOM }
    ensures text { take result line.new ≡ take from line.old ++ flat_map (λ n. 44 ∷ decimal n) numbers.now }
    ensures within { result ≤ from + 4 * length numbers.now }
{
    let mut end = from;
    for number in numbers {
        end = put_comma_number(*number, line, end);
    }
    end
}

// The numbers, joined by commas.
fn put_numbers(numbers: &[u8], line: &mut Line, from: usize) -> usize
    requires { from + 4 * length numbers.now ≤ ROOM }
    ensures text { take result line.new ≡ take from line.old ++ numbers_text numbers.now }
    ensures within { result ≤ from + 4 * length numbers.now }
{
    match numbers {
        [] => from,
        [first, rest @ ..] => {
            let from = put_small(*first, line, from);
            put_comma_numbers(rest, line, from)
        }
    }
}

// `,0` so many times.
#[inline(always)]
fn put_comma_zeros(count: usize, line: &mut Line, from: usize) -> usize
    requires { from + 2 * count ≤ ROOM }
    ensures text { take result line.new ≡ take from line.old ++ flat_map (λ n. 44 ∷ decimal n) (replicate count 0) }
    ensures end { result ≡ from + 2 * count }
{
    let mut end = from;
    for _ in 0..count {
        end = put_two(b',', b'0', line, end);
    }
    end
}

// So many zeros, joined by commas.
#[inline(always)]
fn put_zeros(count: usize, line: &mut Line, from: usize) -> usize
    requires { from + 2 * count ≤ ROOM }
    ensures text { take result line.new ≡ take from line.old ++ numbers_text (replicate count 0) }
    ensures within { result ≤ from + 2 * count }
{
    if count == 0 {
        return from;
    }
    let from = put_byte(b'0', line, from);
    put_comma_zeros(count - 1, line, from)
}

// The numbers, wherever they lie, joined by commas.
#[inline(always)]
fn put_listed(numbers: Numbers<'_>, line: &mut Line, from: usize) -> usize
    requires { from + 4 * length (listed numbers) ≤ ROOM }
    ensures text { take result line.new ≡ take from line.old ++ numbers_text (listed numbers.entry) }
    ensures within { result ≤ from + 4 * length (listed numbers.entry) }
{
    match numbers {
        Numbers::Bytes(bytes) => put_numbers(bytes, line, from),
        Numbers::Zeros(count) => put_zeros(count, line, from),
    }
}

// The numbers that were read, if any were.
#[inline(always)]
fn put_hints(which: Option<Which>, numbers: Numbers<'_>, line: &mut Line, from: usize) -> usize
    requires few { length (listed numbers) ≤ most_processors }
    requires room { from + 259 ≤ ROOM }
    ensures text { take result line.new ≡ take from line.old ++ hints_text (hints_of which (listed numbers.entry)) }
    ensures within { result ≤ from + 259 }
{
    match which {
        None => from,
        Some(_) => {
            let from = put_two(b' ', b'h', line, from);
            let from = put_byte(b' ', line, from);
            put_listed(numbers, line, from)
        }
    }
}

// ` c7 `: a processor, with a space before and behind it.
#[inline(always)]
fn put_spaced_cpu(c: CpuId, line: &mut Line, from: usize) -> usize
    requires { from + 23 ≤ ROOM }
    ensures text { take result line.new ≡ take from line.old ++ (codes " c" ++ decimal c.0 ++ codes " ") }
    ensures within { result ≤ from + 23 }
{
    let from = put_two(b' ', b'c', line, from);
    let from = put_number(u64::from(c.0), line, from);
    put_byte(b' ', line, from)
}

// What follows the number of the entry.
#[inline(always)]
fn put_behind_number(work: &Work, parts: &Parts<'_>, line: &mut Line, from: usize) -> usize
    requires few { length (listed parts.now.numbers) ≤ most_processors }
    requires room { from + 383 ≤ ROOM }
    ensures text { take result line.new ≡ take from line.old
        ++ (codes " c" ++ decimal parts.now.cpu.0 ++ codes " " ++ event_text work.now parts.now.event.now
        ++ hints_text (hints_of parts.now.which (listed parts.now.numbers)) ++ codes "\n") }
    ensures within { result ≤ from + 383 }
{
    let from = put_spaced_cpu(parts.cpu, line, from);
    let from = put_frequent_event(work, parts.event, line, from);
    let from = put_hints(parts.which, parts.numbers, line, from);
    put_byte(b'\n', line, from)
}

/// A buffer in which the lines of entries are made, one at a time. The digits of the last entry's number stay in it, so
/// that those of the next one are counted up.
#[derive(Drop)]
pub struct EntryLine {
    line: Line,
    number: u64,
    from: usize,
    ghost begin: { from + length (decimal number) ≡ 20 },
    ghost stand: { drop from (take 20 line) ≡ decimal number },
}

impl EntryLine {
    /// A buffer with no entry's line.
    pub fn new() -> EntryLine {
        EntryLine {
            line: [b'0'; ROOM],
            number: 0,
            from: NUMBER_END - 1,
        }
    }

    // Puts the line of the entry with these parts, and returns where it ends.
    #[tactic(auto, unfolding(sd_machine::specs::Texts::entry_text))]
    #[inline(always)]
    fn put_parts(&mut self, work: &Work, parts: &Parts<'_>) -> usize
        requires few { length (listed parts.now.numbers) ≤ most_processors }
        ensures within { (self.new.from ≤ result) × (result ≤ ROOM) }
        ensures text { slice_range self.new.line self.new.from result ≡ entry_text work.now (whole parts.now) }
    {
        self.from = put_entry_number(parts.number, self.number, &mut self.line, self.from);
        self.number = parts.number;
        put_behind_number(work, parts, &mut self.line, NUMBER_END)
    }

    /// The line of the entry with these parts, with its newline: its number, its processor, its event, and the numbers that it
    /// read, where it read any. A number that the workload does not declare has no name there.
    #[inline(always)]
    pub fn format_parts(&mut self, work: &Work, parts: &Parts<'_>) -> &[u8]
        requires { length (listed parts.now.numbers) ≤ most_processors }
        ensures { result.now ≡ entry_text work.now (whole parts.now) }
    {
        let to = self.put_parts(work, parts);
        &self.line[self.from..to]
    }

    /// The line of a whole entry.
    #[inline(always)]
    pub fn format(&mut self, work: &Work, entry: &Entry) -> &[u8]
        ensures { result.now ≡ entry_text work.now entry.now }
    {
        self.format_parts(work, &Parts::of(entry))
    }

    /// Appends the line of an entry. Where memory runs out, `out` is as it was.
    pub fn write(&mut self, work: &Work, entry: &Entry, out: &mut Vec<u8>) -> Result<(), AllocError>
        ensures ok { OnOk result (out.new.items ≡ out.old.items ++ entry_text work.now entry.now) }
        ensures err { OnErr result (out.new.items ≡ out.old.items) }
    {
        out.extend_from_slice(self.format(work, entry))
    }
}

/// Appends the line of one entry alone. Where memory runs out, `out` is as it was.
pub fn write_entry(work: &Work, entry: &Entry, out: &mut Vec<u8>) -> Result<(), AllocError>
    ensures ok { OnOk result (out.new.items ≡ out.old.items ++ entry_text work.now entry.now) }
    ensures err { OnErr result (out.new.items ≡ out.old.items) }
{
    EntryLine::new().write(work, entry, out)
}
