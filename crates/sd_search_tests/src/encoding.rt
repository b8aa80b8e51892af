//! Numbers as bytes, and a state, that were worked out by hand.

use sd_encoding::{Writer, decode, encode, read_numbers};
use std::alloc::{AllocError, Global};
use std::process::Abort;

/// Numbers, and their bytes: five bits in each, and above them how many zeros stand behind, or 7 where the number goes on.
const NUMBERS: [(&[u64], &[u8]); 8] = [
    (&[], &[]),
    (&[5], &[0x05]),
    (&[5, 0, 0], &[0x45]),
    (&[0, 0, 0, 0, 0, 0, 0, 0], &[0xc0, 0x00]),
    (&[0, 9, 0, 1], &[0x00, 0x29, 0x01]),
    (&[33, 0, 31], &[0xe1, 0x21, 0x1f]),
    (&[624_485], &[0xe5, 0xfb, 0xe1, 0x13]),
    (
        &[u64::MAX],
        &[
            0xff, 0xff, 0xff, 0xff, 0xff, 0xff, 0xff, 0xff, 0xff, 0xff, 0xff, 0xff, 0x0f,
        ],
    ),
];

/// Bytes that spell no numbers: the last number goes on and ends nowhere, or is not below 2^64.
const NOT_NUMBERS: [&[u8]; 2] = [
    &[0x05, 0xe0],
    &[
        0xff, 0xff, 0xff, 0xff, 0xff, 0xff, 0xff, 0xff, 0xff, 0xff, 0xff, 0xff, 0x10,
    ],
];

/// The bytes of the numbers.
fn bytes_of(alloc: Global, numbers: &[u64]) -> Result<Vec<u8>, AllocError> {
    let mut writer = Writer::new(Vec::new(alloc));
    for number in numbers {
        writer.push(*number)?;
    }
    writer.finish()
}

/// The numbers have these bytes.
fn have_bytes(alloc: Global, numbers: &[u64], bytes: &[u8]) -> Result<bool, AllocError> {
    let written = bytes_of(alloc, numbers)?;
    Ok(written.as_slice() == bytes)
}

/// The bytes are these numbers.
fn are_read(alloc: Global, bytes: &[u8], numbers: &[u64]) -> Result<bool, AllocError> {
    match read_numbers(alloc, bytes)? {
        Some(read) => Ok(read.as_slice() == numbers),
        None => Ok(false),
    }
}

/// All numbers have their bytes, and are read from them.
fn have_their_bytes(alloc: Global) -> Result<bool, AllocError> {
    for row in &NUMBERS {
        let (numbers, bytes) = *row;
        if !have_bytes(alloc, numbers, bytes)? || !are_read(alloc, bytes, numbers)? {
            return Ok(false);
        }
    }
    Ok(true)
}

#[test]
fn numbers_have_their_bytes(rt: HostRuntime) {
    judge(&rt, Judged::Numbers);
}

/// The bytes spell no numbers.
fn are_none(alloc: Global, bytes: &[u8]) -> Result<bool, AllocError> {
    match read_numbers(alloc, bytes) {
        Ok(read) => Ok(read.is_none()),
        Err(fault) => Err(fault),
    }
}

/// None of the bytes spell numbers.
fn are_no_numbers(alloc: Global) -> Result<bool, AllocError> {
    for bytes in &NOT_NUMBERS {
        if !are_none(alloc, *bytes)? {
            return Ok(false);
        }
    }
    Ok(true)
}

#[test]
fn other_bytes_are_no_numbers(rt: HostRuntime) {
    judge(&rt, Judged::OtherBytes);
}

/// A time-sharing thread waits for a lock, and a system thread stands on a queue; the processor wakes sleepers. The keys are
/// -1, 7 and 3.
const STATE: [u64; 60] = [
    2, // the first thread: its class, what it inherits, what it holds, its marks, its place
    0, 29, 0, 1, 200, 0, 1, 0, 29, 1, 0, 3, 0, 0, 0, 1, 4, 1, 0, 3, 1, 0, 1,
    // the second
    2, 70, 0, 1, 1, 5, 300, 1, 0, 0, 0, 1, 0, 1, 0, 14, // the locks, which they own
    2, 1, 0, 1, 1, // the processor
    1, 4, 0, 1, 5, 0, 6, 0, 0, 1, // a count, and the open processors of one set
    1, 9, 1, 1, 0,
];

/// Where keys stand, and their ranks as they are written.
const RANKS: [(usize, u64); 3] = [(23, 0), (39, 4), (51, 2)];

/// The numbers of the state with ranks for keys.
fn ranked_numbers(alloc: Global) -> Result<Vec<u64>, AllocError> {
    let mut numbers = Vec::from_slice(alloc, &STATE)?;
    for (at, number) in &RANKS {
        if let Some(key) = numbers.get_mut(*at) {
            *key = *number;
        }
    }
    Ok(numbers)
}

/// The bytes of the state that the bytes spell, with ranks for keys, and none where they spell no state.
fn put_again(alloc: Global, bytes: &[u8]) -> Result<Vec<u8>, AllocError> {
    match decode(alloc, bytes)? {
        Some(state) => encode(&state, Vec::new(alloc)),
        None => Ok(Vec::new(alloc)),
    }
}

/// The bytes spell a state which has those bytes with ranks for keys.
fn becomes(alloc: Global, bytes: &[u8], ranked: &[u8]) -> Result<bool, AllocError> {
    let again = put_again(alloc, bytes)?;
    Ok(again.as_slice() == ranked)
}

/// The bytes spell no state.
fn is_no_state(alloc: Global, bytes: &[u8]) -> Result<bool, AllocError> {
    let again = put_again(alloc, bytes)?;
    Ok(again.is_empty())
}

/// The bytes of the state with ranks are read back, and without the last of them they spell none.
fn is_written(alloc: Global) -> Result<bool, AllocError> {
    let bytes = bytes_of(alloc, &ranked_numbers(alloc)?)?;
    match bytes.as_slice() {
        [short @ .., _last] => Ok(becomes(alloc, &bytes, &bytes)? && is_no_state(alloc, short)?),
        [] => Ok(false),
    }
}

#[test]
fn a_state_is_read_and_written(rt: HostRuntime) {
    judge(&rt, Judged::State);
}

fn is_ranked(alloc: Global) -> Result<bool, AllocError> {
    let bytes = bytes_of(alloc, &STATE)?;
    let ranked = bytes_of(alloc, &ranked_numbers(alloc)?)?;
    becomes(alloc, &bytes, &ranked)
}

#[test]
fn keys_become_ranks(rt: HostRuntime) {
    judge(&rt, Judged::Keys);
}

/// What is judged, by one test.
#[derive(Clone, Copy)]
enum Judged {
    Numbers,
    OtherBytes,
    State,
    Keys,
}

/// It is as it should be.
fn is_so(alloc: Global, judged: Judged) -> Result<bool, AllocError> {
    match judged {
        Judged::Numbers => have_their_bytes(alloc),
        Judged::OtherBytes => are_no_numbers(alloc),
        Judged::State => is_written(alloc),
        Judged::Keys => is_ranked(alloc),
    }
}

fn judge<R: Abort + AllocGlobal>(rt: &R, judged: Judged) {
    let is_so = is_so(rt.alloc(), judged);
    assert!(rt; matches!(is_so, Ok(true)));
}
