//! Numbers as bytes: five bits of a number in each, and how many zeros stand behind it.

ghost use Rattle.std.specs.Prelude.{◌≡◌, ◌<◌, ◌≤◌, ◌+◌, ◌*◌, ◌^◌, ◌++◌, ◌==◌, ◌&&◌, ℕ, List, Some, None, nat_lt, if◌then◌else◌, OnOk, IfOk, IfSome, drop, length};
ghost use Rattle.std.specs.List.{sum_by};
ghost use Rattle.std.specs.Option.{option_map};
ghost use Rattle.sd_encoding.specs.Bytes.{bytes_from, continued, joined, numbers_in};
ghost use Rattle.sd_encoding.specs.Placing.{AreZeros, placed, room_of};

use crate::buffer::Buffer;
use crate::spelled::Spelled;
use std::alloc::{AllocError, Global};

/// The last byte of a number below this one has room for a zero more behind it: it counts at most six of them.
pub(crate) const FULL: u8 = 192;

/// What is added to a byte of a number that goes on in the next one.
const GOES_ON: u8 = 224;

/// Memory is taken to run out where more bytes are read.
const MOST_BYTES: usize = 0xffff_ffff;

/// The number is a zero more behind the number whose last byte this is, and that byte has room for it.
#[inline(always)]
pub(crate) fn is_counted(number: u64, last: u8) -> bool
    ensures { result ≡ (number == 0 && nat_lt last 192) }
{
    number == 0 && last < FULL
}

/// Writes the bytes of a number but for its last one, with no zero behind it, which it returns.
#[inline(never)]
pub(crate) fn write_front(number: u64, into: &mut Buffer) -> Result<u8, AllocError>
    ensures last { IfOk result (λ last. last < 32) }
    ensures written { IfOk result (λ last. (more : List ℕ) → into.new ++ bytes_from last 0 more ≡ into.old ++ bytes_from number 0 more) }
{
    let mut rest = number;
    while rest >= 32 {
        into.push((rest % 32) as u8 + GOES_ON)?;
        rest /= 32;
    }
    Ok(rest as u8)
}

/// The number that has these low five bits and these higher ones, if it is below 2^64.
fn combined(low: u64, high: u64) -> Option<u64>
    requires { low < 32 }
    ensures { result ≡ (if nat_lt (low + 32 * high) (2 ^ 64) then Some (low + 32 * high) else None) }
{
    if high <= (u64::MAX - low) / 32 {
        Some(low + 32 * high)
    } else {
        None
    }
}

/// Goes on with the number at place `at`, which has these bits below it. It is below 2^64 then, else they spell none.
#[inline(never)]
fn place_more(low: u64, at: usize, numbers: &mut [u64]) -> Option<usize>
    requires low { low < 32 }
    ensures spelled { placed numbers.new result ≡ continued low (drop at numbers.old) }
    ensures zeros { AreZeros at numbers.old → AreZeros at numbers.new }
    ensures same { IfSome result (λ from. from ≡ at) }
{
    if at >= numbers.len() {
        return None;
    }
    let Some(number) = combined(low, numbers[at]) else {
        return None;
    };
    numbers[at] = number;
    Some(at)
}

/// Puts a byte before the bytes of the numbers that begin at place `at`, behind zeros; the place at which the numbers begin then.
/// `None` where they spell none.
#[inline(always)]
fn place(byte: u8, at: usize, numbers: &mut [u64]) -> Option<usize>
    requires room { room_of byte ≤ at }
    requires within { at ≤ length numbers.old }
    requires zeros { AreZeros at numbers.old }
    ensures spelled { placed numbers.new result ≡ joined byte (drop at numbers.old) }
    ensures zeros { IfSome result (λ from. AreZeros from numbers.new) }
    ensures room { IfSome result (λ from. at ≡ from + room_of byte) }
    ensures within { IfSome result (λ from. from ≤ length numbers.new) }
{
    if byte < GOES_ON {
        let from = at - (byte / 32) as usize - 1;
        numbers[from] = u64::from(byte % 32);
        return Some(from);
    }
    place_more(u64::from(byte - GOES_ON), at, numbers)
}

/// How many numbers end with a byte: the one of which it is the last byte, and the zeros behind that one.
#[inline(always)]
fn room_of(byte: u8) -> usize
    ensures value { result ≡ room_of byte }
    ensures few { result ≤ 7 }
{
    if byte < GOES_ON {
        (byte / 32) as usize + 1
    } else {
        0
    }
}

/// How many numbers these bytes spell, where they spell some.
fn room_for(bytes: &[u8]) -> usize
    requires { length bytes.now < 2 ^ 32 }
    ensures { result ≡ sum_by room_of bytes.now }
{
    let mut room = 0;
    for byte in bytes {
        room += room_of(*byte);
    }
    room
}

/// Puts the numbers that the bytes spell at the end of these zeros; the place at which they begin. `None` where they spell none.
fn place_all(bytes: &[u8], numbers: &mut [u64]) -> Option<usize>
    requires room { length numbers.old ≡ sum_by room_of bytes.now }
    requires zeros { AreZeros (length numbers.old) numbers.old }
    ensures spelled { placed numbers.new result ≡ numbers_in bytes.now }
    ensures within { IfSome result (λ from. from ≤ length numbers.new) }
{
    // from the last byte to the first, since a byte that goes on needs the bits after it
    let mut at = numbers.len();
    let mut index = bytes.len();
    while index > 0 {
        index -= 1;
        let Some(from) = place(bytes[index], at, numbers) else {
            return None;
        };
        at = from;
    }
    Some(at)
}

/// The numbers that the bytes spell, each below 2^64. Memory is taken to run out at 2^32 bytes.
pub(crate) fn spelled_in(alloc: Global, bytes: &[u8]) -> Result<Option<Spelled>, AllocError>
    ensures { IfOk result (λ r. option_map (λ v. v) r ≡ numbers_in bytes.now) }
{
    if bytes.len() > MOST_BYTES {
        return Err(AllocError);
    }
    let mut numbers = vec![in alloc; 0; room_for(bytes)]?;
    match place_all(bytes, &mut numbers) {
        Some(from) => Ok(Some(Spelled::new(numbers, from))),
        None => Ok(None),
    }
}

/// The numbers that the bytes spell, each below 2^64. Memory is taken to run out at 2^32 bytes.
pub fn read_numbers(alloc: Global, bytes: &[u8]) -> Result<Option<Vec<u64>>, AllocError>
    ensures { IfOk result (λ r. option_map (λ v. v.items) r ≡ numbers_in bytes.now) }
{
    match spelled_in(alloc, bytes)? {
        Some(spelled) => Ok(Some(Vec::from_slice(alloc, spelled.numbers())?)),
        None => Ok(None),
    }
}
