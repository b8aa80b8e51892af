//! What no clause says: that calls which take memory succeed, that the adapters count the faults of real readers
//! and writers, and the cases of failing ends and of texts, whose results were worked out by hand.
ghost use Rattle.std.specs.Prelude.{◌≤◌};

use crate::judging::{is_so, judge};
use sd_text::{
    Failed, MemorySink, MemorySource, ReadAllFault, Sink, Source, StdSink, StdSource, WriteFault,
    next_line, next_word, number, put_number, read_all, read_up_to, signed, write_piece,
};
use std::alloc::{AllocError, Global};
use std::io;
use std::io::{ErrorKind, Read, Write};

// 27 bytes.
const INPUT: &[u8] = b"limit 5\nthread a ts 29 0 0\n";

fn input_in(alloc: Global, chunk: usize, failing: u64) -> Result<MemorySource, AllocError>
    requires { 1 ≤ chunk }
{
    let bytes = Vec::from_slice(alloc, INPUT)?;
    Ok(MemorySource::new(bytes, chunk, vec![in alloc; failing]?))
}

// Whether all is read where the ninth read would fail, and else nothing and one fault is counted.
fn is_read_or_fails(source: &mut MemorySource, alloc: Global, failing: u64) -> bool {
    match read_all(alloc, source) {
        Ok(bytes) => failing == 9 && bytes.as_slice() == INPUT && source.faults() == 0,
        Err(fault) => { failing < 9 && fault == ReadAllFault::ReadFault && source.faults() == 1 }
    }
}

// With chunk 4 the seventh read gives the last bytes, and the eighth finds the end.
fn fails_at(alloc: Global, failing: u64) -> Result<bool, AllocError> {
    let mut source = input_in(alloc, 4, failing)?;
    Ok(is_read_or_fails(&mut source, alloc, failing))
}

// The read after the last byte is the one that sees the end.
fn fails_at_the_end(alloc: Global) -> Result<bool, AllocError> {
    let mut source = input_in(alloc, 1, 28)?;
    Ok(read_all(alloc, &mut source).err() == Some(ReadAllFault::ReadFault))
}

// The first read of nine whose failing is not seen so.
fn wrong_read(alloc: Global) -> Result<Option<usize>, AllocError> {
    for failing in 1..=9u8 {
        if !fails_at(alloc, u64::from(failing))? {
            return Ok(Some(usize::from(failing)));
        }
    }
    Ok(None)
}

#[test]
fn each_read_fails_in_turn(rt: HostRuntime) {
    judge(&rt, wrong_read(rt.alloc()));
    is_so(&rt, fails_at_the_end(rt.alloc()));
}

fn is_limited(alloc: Global, most: u64, fault: Option<ReadAllFault>) -> Result<bool, AllocError>
    requires { most ≤ 1048576 }
{
    let mut source = input_in(alloc, 64, 0)?;
    Ok(read_up_to(alloc, &mut source, most).err() == fault)
}

fn long_input(alloc: Global, len: usize) -> Result<MemorySource, AllocError> {
    let bytes = vec![in alloc; b'#'; len]?;
    Ok(MemorySource::new(bytes, 100_000, vec![in alloc]?))
}

fn is_long(alloc: Global, len: usize, fault: Option<ReadAllFault>) -> Result<bool, AllocError> {
    let mut source = long_input(alloc, len)?;
    Ok(read_all(alloc, &mut source).err() == fault)
}

#[test]
fn an_input_has_at_most_the_limit(rt: HostRuntime) {
    let too_large = Some(ReadAllFault::TooLarge);
    is_so(&rt, is_limited(rt.alloc(), 27, None));
    is_so(&rt, is_limited(rt.alloc(), 26, too_large));
    is_so(&rt, is_long(rt.alloc(), 1_048_576, None));
    is_so(&rt, is_long(rt.alloc(), 1_048_577, too_large));
}

fn has_text(alloc: Global, fault: ReadAllFault, text: &str) -> Result<bool, AllocError> {
    Ok(format!(in alloc; "{fault}")?.as_str() == text)
}

fn write_fault_has_text(alloc: Global) -> Result<bool, AllocError> {
    Ok(format!(in alloc; "{WriteFault}")?.as_str() == "write fault")
}

fn failed_has_text(alloc: Global) -> Result<bool, AllocError> {
    Ok(format!(in alloc; "{Failed}")?.as_str() == "a read or a write failed")
}

#[test]
fn faults_have_their_texts(rt: HostRuntime) {
    is_so(
        &rt,
        has_text(rt.alloc(), ReadAllFault::ReadFault, "read fault"),
    );
    is_so(
        &rt,
        has_text(rt.alloc(), ReadAllFault::TooLarge, "input too large"),
    );
    is_so(
        &rt,
        has_text(rt.alloc(), ReadAllFault::Memory, "out of memory"),
    );
    is_so(&rt, write_fault_has_text(rt.alloc()));
    is_so(&rt, failed_has_text(rt.alloc()));
}

// Whether two pieces are written, and what the sink holds then.
fn takes(sink: &mut MemorySink, is_written: bool, held: &[u8]) -> bool {
    let first = write_piece(sink, b"0 c0 dispatch a 29\n");
    let both = first.is_ok() && write_piece(sink, b"1 c0 tick a\n").is_ok();
    both == is_written && sink.bytes() == held && (sink.faults() == 0) == is_written
}

fn is_taken(
    alloc: Global,
    room: usize,
    failing: u64,
    is_written: bool,
    held: &[u8],
) -> Result<bool, AllocError> {
    let mut sink = MemorySink::new(alloc, room, vec![in alloc; failing]?)?;
    Ok(takes(&mut sink, is_written, held))
}

// The room, the write that fails, whether the two pieces were written, and what the sink holds then.
const SINKS: [(usize, u64, bool, &[u8]); 6] = [
    (40, 0, true, b"0 c0 dispatch a 29\n1 c0 tick a\n"),
    (40, 2, false, b"0 c0 dispatch a 29\n"),
    (40, 1, false, b""),
    (5, 0, false, b"0 c0 "),
    (3, 9, false, b"0 c"),
    (0, 0, false, b""),
];

// The first sink that holds something else.
fn wrong_sink(alloc: Global) -> Result<Option<usize>, AllocError> {
    for (index, row) in SINKS.iter().enumerate() {
        let (room, failing, is_written, held) = *row;
        if !is_taken(alloc, room, failing, is_written, held)? {
            return Ok(Some(index));
        }
    }
    Ok(None)
}

#[test]
fn a_sink_holds_what_it_took(rt: HostRuntime) {
    judge(&rt, wrong_sink(rt.alloc()));
}

// Gives one byte a read, and fails at the third.
#[derive(Drop)]
struct Halting {
    reads: u8,
}

impl Read for Halting {
    fn read(&mut self, buf: &mut [u8]) -> io::Result<usize> {
        self.reads = self.reads.saturating_add(1);
        if self.reads == 3 {
            return Err(io::Error::from(ErrorKind::Other));
        }
        if buf.is_empty() {
            return Ok(0);
        }
        buf[0] = b'x';
        Ok(1)
    }
}

// Takes at most two bytes a write, until its room is used up.
#[derive(Drop)]
struct Narrow {
    room: usize,
}

impl Write for Narrow {
    fn write(&mut self, buf: &[u8]) -> io::Result<usize> {
        let count = buf.len().min(2).min(self.room);
        self.room -= count;
        Ok(count)
    }

    fn flush(&mut self) -> io::Result<()> {
        Ok(())
    }
}

fn reads_whole(alloc: Global) -> bool {
    let mut whole = StdSource::new(INPUT);
    match read_all(alloc, &mut whole) {
        Ok(bytes) => bytes.as_slice() == INPUT && whole.faults() == 0,
        Err(_) => false,
    }
}

fn reads_until_it_halts(alloc: Global) -> bool {
    let mut halting = StdSource::new(Halting { reads: 0 });
    let fault = read_all(alloc, &mut halting).err();
    fault == Some(ReadAllFault::ReadFault) && halting.faults() == 1
}

fn writes_while_there_is_room(narrow: &mut StdSink<Narrow>) -> bool {
    let is_written = write_piece(narrow, b"abc\n") == Ok(()) && narrow.faults() == 0;
    // One byte is taken, and then none.
    let one_fault = write_piece(narrow, b"d\n") == Err(WriteFault) && narrow.faults() == 1;
    let two_faults = narrow.write(b"\n") == Err(Failed) && narrow.faults() == 2;
    is_written && one_fault && two_faults
}

fn has_room_for_five(alloc: Global) -> bool {
    let mut narrow = StdSink::unbuffered(alloc, Narrow { room: 5 });
    writes_while_there_is_room(&mut narrow)
}

// The writer takes nothing before the flush, and five bytes of six then. What it did not take is still held back.
fn holds_back_what_is_not_taken(narrow: &mut StdSink<Narrow>) -> bool {
    let is_written = write_piece(narrow, b"abc\n") == Ok(())
        && write_piece(narrow, b"d\n") == Ok(());
    let is_quiet = narrow.faults() == 0;
    let one_fault = narrow.flush() == Err(Failed) && narrow.faults() == 1;
    let two_faults = narrow.flush() == Err(Failed) && narrow.faults() == 2;
    is_written && is_quiet && one_fault && two_faults
}

fn is_flushed_as_far_as_there_is_room(alloc: Global) -> bool {
    match StdSink::buffered(alloc, Narrow { room: 5 }) {
        Ok(mut narrow) => holds_back_what_is_not_taken(&mut narrow),
        Err(_) => false,
    }
}

fn is_flushed_whole(alloc: Global) -> bool {
    match StdSink::buffered(alloc, Narrow { room: 6 }) {
        Ok(mut wide) => {
            let is_written = write_piece(&mut wide, b"abcde\n") == Ok(());
            is_written && wide.flush() == Ok(()) && wide.faults() == 0
        }
        Err(_) => false,
    }
}

#[test]
fn adapters_count_faults(rt: HostRuntime) {
    is_so(&rt, Ok(reads_whole(rt.alloc())));
    is_so(&rt, Ok(reads_until_it_halts(rt.alloc())));
    is_so(&rt, Ok(has_room_for_five(rt.alloc())));
}

#[test]
fn a_buffer_is_handed_on_at_a_flush(rt: HostRuntime) {
    is_so(&rt, Ok(is_flushed_whole(rt.alloc())));
    is_so(&rt, Ok(is_flushed_as_far_as_there_is_room(rt.alloc())));
}

// A text, where the search begins, and from where to where the line or word is that is found.
type Found = (&'static [u8], usize, Option<(usize, usize)>);

const FOUND_LINES: [Found; 7] = [
    (b"", 0, None),
    (b"a", 0, Some((0, 1))),
    (b"a\n", 0, Some((0, 1))),
    (b"a\n", 2, None),
    (b"\n\nb", 1, Some((1, 1))),
    (b"ab\ncd", 3, Some((3, 5))),
    (b"ab\ncd", 6, None),
];

const FOUND_WORDS: [Found; 6] = [
    (b" \tlimit 5#x\r", 0, Some((2, 7))),
    (b" \tlimit 5#x\r", 7, Some((8, 9))),
    (b" \tlimit 5#x\r", 9, None),
    (b"# a", 0, None),
    (b" \r\t", 0, None),
    (b"a\x0b\x80", 0, Some((0, 3))),
];

fn wrong_line(rows: &[Found]) -> Option<usize> {
    for (index, row) in rows.iter().enumerate() {
        let (text, from, line) = *row;
        if next_line(text, from) != line {
            return Some(index);
        }
    }
    None
}

fn wrong_word(rows: &[Found]) -> Option<usize> {
    for (index, row) in rows.iter().enumerate() {
        let (text, from, word) = *row;
        if next_word(text, from) != word {
            return Some(index);
        }
    }
    None
}

#[test]
fn lines_and_words_are_found(rt: HostRuntime) {
    judge(&rt, Ok(wrong_line(&FOUND_LINES)));
    judge(&rt, Ok(wrong_word(&FOUND_WORDS)));
}

// A word, its value, and its value where a minus may stand before it.
const NUMBERS: [(&[u8], Option<u64>, Option<i64>); 13] = [
    (b"0", Some(0), Some(0)),
    (b"0000000007", Some(7), Some(7)),
    (b"00000000007", None, None),
    (b"9999999999", Some(9_999_999_999), Some(9_999_999_999)),
    (b"", None, None),
    (b"-", None, None),
    (b"-0", None, Some(0)),
    (b"-32768", None, Some(-32768)),
    (b"-9999999999", None, Some(-9_999_999_999)),
    (b"-10000000000", None, None),
    (b"--1", None, None),
    (b"+1", None, None),
    (b"1x", None, None),
];

fn wrong_number() -> Option<usize> {
    for (index, row) in NUMBERS.iter().enumerate() {
        let (word, value, signed_value) = *row;
        if number(word) != value || signed(word) != signed_value {
            return Some(index);
        }
    }
    None
}

fn put_three(text: &mut Vec<u8>) -> Result<(), AllocError> {
    put_number(text, 0)?;
    put_number(text, u64::MAX)?;
    put_number(text, 29)
}

fn are_put(alloc: Global) -> Result<bool, AllocError> {
    let mut text = Vec::new(alloc);
    put_three(&mut text)?;
    Ok(text.as_slice() == b"01844674407370955161529".as_slice())
}

#[test]
fn numbers_have_at_most_ten_digits(rt: HostRuntime) {
    judge(&rt, Ok(wrong_number()));
    is_so(&rt, are_put(rt.alloc()));
}
