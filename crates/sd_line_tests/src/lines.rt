//! Lines that are of entries, and lines that are of none.

use crate::given::{Texts, judge};
use sd_entries::EntryLine;
use sd_entry_reader::{Names, read_entry};
use sd_types::Work;
use std::alloc::{AllocError, Global};

const LINES_OF_ENTRIES: [&str; 21] = [
    "0 c0 tick a",
    "18446744073709551615 c11 spin b m",
    "3 c0 idle",
    "4 c1 idle h 0,160,7",
    "6 c2 steal c0 a 29 h 30",
    "7 c0 preempt a back",
    "8 c0 preempt a away c11",
    "9 c0 napend a to c10 h 1",
    "10 c0 wake b k a rt c0",
    "11 c0 rouse k none",
    "12 c0 will m a 110 rt c0",
    "13 c0 grant w b rt c0",
    "14 c0 prio a b ok 24 to c10",
    "15 c0 prio a b ESRCH",
    "16 c0 semav a q b to c10",
    "17 c0 semav a q 65535",
    "18 c0 assign a c1 - EBUSY",
    "19 c0 joined s",
    "20 c0 pbind a b - ok rt c0",
    "21 c0 pbind a b c1 EPERM",
    "22 c0 end w",
];

const LINES_OF_NONE: [&str; 16] = [
    "",
    "accounts",
    "0 c0",
    // zeros before a number, two spaces, a blank behind the last word
    "00 c0 tick a",
    "0 c0  tick a",
    "0 c0 tick a ",
    // a processor, a thread and a set that are not there
    "0 c12 tick a",
    "0 c0 tick c",
    "0 c0 joined t",
    // numbers that the event does not read, or that are none
    "0 c0 tick a h 1",
    "0 c0 idle h",
    "0 c0 idle h 256",
    "18446744073709551616 c0 idle",
    "0 c0 tock a",
    "0 c0 preempt a side",
    "0 c0 wake b k a",
];

/// Whether that is the line, with its newline.
fn is_line(text: &[u8], line: &[u8]) -> bool {
    match text.split_last() {
        Some((last, rest)) => *last == b'\n' && rest == line,
        None => false,
    }
}

/// The line is that of an entry, and is written again as it was.
fn is_read_and_written(
    alloc: Global,
    names: &Names<'_>,
    buffer: &mut EntryLine,
    line: &[u8],
) -> Result<bool, AllocError> {
    match read_entry(names, buffer, line) {
        None => Ok(false),
        Some(entry) => {
            let mut out = Vec::new(alloc);
            buffer.write(names.work, &entry, &mut out)?;
            Ok(is_line(out.as_slice(), line))
        }
    }
}

/// The first line of an entry that is not read and written again as it was.
pub(crate) fn wrong_line(alloc: Global, work: &Work) -> Result<Option<&'static str>, AllocError> {
    let names = Names::new(alloc, work)?;
    let mut buffer = EntryLine::new();
    for row in &LINES_OF_ENTRIES {
        let line = *row;
        if !is_read_and_written(alloc, &names, &mut buffer, line.as_bytes())? {
            return Ok(Some(line));
        }
    }
    Ok(None)
}

#[test]
fn lines_of_entries(rt: HostRuntime) {
    judge(&rt, Texts::Lines);
}

/// The line is that of no entry.
fn is_of_none(names: &Names<'_>, buffer: &mut EntryLine, line: &[u8]) -> bool {
    read_entry(names, buffer, line).is_none()
}

/// The first line of none that is read as an entry.
pub(crate) fn line_read(alloc: Global, work: &Work) -> Result<Option<&'static str>, AllocError> {
    let names = Names::new(alloc, work)?;
    let mut buffer = EntryLine::new();
    for row in &LINES_OF_NONE {
        let line = *row;
        if !is_of_none(&names, &mut buffer, line.as_bytes()) {
            return Ok(Some(line));
        }
    }
    Ok(None)
}

#[test]
fn lines_of_no_entry(rt: HostRuntime) {
    judge(&rt, Texts::OtherLines);
}
