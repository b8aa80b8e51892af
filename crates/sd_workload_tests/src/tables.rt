//! Worked tables and faults. Each expected result was worked out by hand from the rules of the files.

ghost use Rattle.std.specs.Prelude.{◌<◌, ◌≤◌};

use crate::judging::{is_so, judge};
use sd_dispadmin::{
    ReadTableFault, TableFault, default_fx, default_rt, default_ts, read_fx, read_rt, read_ts,
    write_fixed, write_ts,
};
use sd_text::put_number;
use sd_types::{FixedTable, TsTable};
use std::alloc::{AllocError, Global};

const HZ: u32 = 100;

fn rows(found: u32) -> TableFault {
    TableFault::Rows { found }
}

fn rt_fault(alloc: Global, text: &[u8]) -> Option<ReadTableFault> {
    if text.len() < 10_000 {
        read_rt(alloc, text, HZ).err()
    } else {
        None
    }
}

fn ts_fault(alloc: Global, text: &[u8]) -> Option<ReadTableFault> {
    if text.len() < 10_000 {
        read_ts(alloc, text, HZ).err()
    } else {
        None
    }
}

/// The text of the fault of a table.
fn has_own_text(alloc: Global, fault: TableFault, text: &str) -> Result<bool, AllocError> {
    Ok(format!(in alloc; "{fault}")?.as_str() == text)
}

/// The text of the fault of one that is read.
fn has_text(alloc: Global, fault: TableFault, text: &str) -> Result<bool, AllocError> {
    let unread = ReadTableFault::Table(fault);
    Ok(format!(in alloc; "{unread}")?.as_str() == text)
}

fn memory_has_text(alloc: Global) -> Result<bool, AllocError> {
    let memory = ReadTableFault::Memory;
    Ok(format!(in alloc; "{memory}")?.as_str() == "out of memory")
}

const TEXTS: [(TableFault, &str); 4] = [
    (TableFault::NotANumber { line: 3 }, "not a number"),
    (
        TableFault::Range { line: 1, column: 4 },
        "range in column 4",
    ),
    (TableFault::Rows { found: 59 }, "rows: 59"),
    (TableFault::Resolution { line: 2 }, "resolution"),
];

/// The first fault that has another text.
fn wrong_fault(alloc: Global) -> Result<Option<usize>, AllocError> {
    for (index, row) in TEXTS.iter().enumerate() {
        let (fault, text) = *row;
        if !has_own_text(alloc, fault, text)? || !has_text(alloc, fault, text)? {
            return Ok(Some(index));
        }
    }
    Ok(None)
}

#[test]
fn faults_have_their_texts(rt: HostRuntime) {
    judge(&rt, wrong_fault(rt.alloc()));
    is_so(&rt, memory_has_text(rt.alloc()));
}

/// The first text that has another fault as a table of quanta.
fn wrong_rt(alloc: Global, cases: &[(&str, TableFault)]) -> Option<usize> {
    for (index, case) in cases.iter().enumerate() {
        let (text, fault) = *case;
        if rt_fault(alloc, text.as_bytes()) != Some(ReadTableFault::Table(fault)) {
            return Some(index);
        }
    }
    None
}

/// The first text that has another fault as a table of the time-sharing class.
fn wrong_ts(alloc: Global, cases: &[(&str, TableFault)]) -> Option<usize> {
    for (index, case) in cases.iter().enumerate() {
        let (text, fault) = *case;
        if ts_fault(alloc, text.as_bytes()) != Some(ReadTableFault::Table(fault)) {
            return Some(index);
        }
    }
    None
}

const ROWS: [(&str, TableFault); 20] = [
    ("", TableFault::Rows { found: 0 }),
    ("\n\n", TableFault::Rows { found: 0 }),
    ("# only a comment", TableFault::Rows { found: 0 }),
    ("5", TableFault::Rows { found: 1 }),
    ("\n5\n\n  # between\n6\n", TableFault::Rows { found: 2 }),
    ("5 # 0", TableFault::Rows { found: 1 }),
    ("5#0", TableFault::Rows { found: 1 }),
    ("\t5 \r\n", TableFault::Rows { found: 1 }),
    ("0", TableFault::Range { line: 1, column: 1 }),
    ("1000000000", TableFault::Rows { found: 1 }),
    ("1000000001", TableFault::Range { line: 1, column: 1 }),
    ("9999999999", TableFault::Range { line: 1, column: 1 }),
    ("10000000000", TableFault::NotANumber { line: 1 }),
    ("0000000001", TableFault::Rows { found: 1 }),
    ("00000000001", TableFault::NotANumber { line: 1 }),
    ("-5", TableFault::NotANumber { line: 1 }),
    ("5x", TableFault::NotANumber { line: 1 }),
    ("5 6", TableFault::NotANumber { line: 1 }),
    ("end end", TableFault::NotANumber { line: 1 }),
    ("5\n6 7\n0\n", TableFault::NotANumber { line: 2 }),
];

#[test]
fn faults_of_rows(rt: HostRuntime) {
    judge(&rt, Ok(wrong_rt(rt.alloc(), &ROWS)));
}

const RES_LINES: [(&str, TableFault); 18] = [
    ("RES=5", TableFault::Rows { found: 0 }),
    ("RES=5 # five", TableFault::Rows { found: 0 }),
    ("RES=5#five", TableFault::Rows { found: 0 }),
    ("RES=1000000000\n7\n", TableFault::Rows { found: 1 }),
    ("RES=0000000005", TableFault::Rows { found: 0 }),
    ("RES=", TableFault::Resolution { line: 1 }),
    ("RES= 5", TableFault::Resolution { line: 1 }),
    ("RES=0", TableFault::Resolution { line: 1 }),
    ("RES=1000000001", TableFault::Resolution { line: 1 }),
    ("RES=00000000005", TableFault::Resolution { line: 1 }),
    ("RES=5x", TableFault::Resolution { line: 1 }),
    ("RES=5 6", TableFault::Resolution { line: 1 }),
    ("RES=5\nRES=6", TableFault::Resolution { line: 2 }),
    ("5\nRES=5", TableFault::Resolution { line: 2 }),
    ("5\nRES=x", TableFault::Resolution { line: 2 }),
    ("res=5", TableFault::NotANumber { line: 1 }),
    ("RES =5", TableFault::NotANumber { line: 1 }),
    ("0\nRES=0", TableFault::Range { line: 1, column: 1 }),
];

#[test]
fn faults_of_res_lines(rt: HostRuntime) {
    judge(&rt, Ok(wrong_rt(rt.alloc(), &RES_LINES)));
}

const TIME_SHARING_ROWS: [(&str, TableFault); 11] = [
    ("1 0 0 0 0", TableFault::Rows { found: 1 }),
    (
        "1000000000 59 59 32767 59 # 0",
        TableFault::Rows { found: 1 },
    ),
    ("0 60 60 32768 60", TableFault::Range { line: 1, column: 1 }),
    ("1 60 60 32768 60", TableFault::Range { line: 1, column: 2 }),
    ("1 0 60 0 0", TableFault::Range { line: 1, column: 3 }),
    ("1 0 0 32768 0", TableFault::Range { line: 1, column: 4 }),
    ("1 0 0 0 60", TableFault::Range { line: 1, column: 5 }),
    ("0 0 60 x 0", TableFault::NotANumber { line: 1 }),
    ("1 0 0 0", TableFault::NotANumber { line: 1 }),
    ("1 0 0 0 0 0", TableFault::NotANumber { line: 1 }),
    (
        "1 0 0 0 0\n0 0 0 0 0",
        TableFault::Range { line: 2, column: 1 },
    ),
];

#[test]
fn faults_of_time_sharing_tables(rt: HostRuntime) {
    judge(&rt, Ok(wrong_ts(rt.alloc(), &TIME_SHARING_ROWS)));
}

// The quanta of the default real-time table, in tens of levels.
const QUANTA: [u64; 6] = [1000, 800, 600, 400, 200, 100];

// Appends a level of a real-time file as dispadmin prints it.
fn put_level(text: &mut Vec<u8>, level: u8) -> Result<(), AllocError>
    requires { level < 60 }
{
    text.extend_from_slice(b"      ")?;
    put_number(text, QUANTA[level as usize / 10])?;
    text.extend_from_slice(b"                    #        ")?;
    put_number(text, u64::from(level))?;
    text.extend_from_slice(b"\n")
}

// Appends a real-time file as dispadmin prints it, with this many levels.
fn put_levels(text: &mut Vec<u8>, levels: u8) -> Result<(), AllocError>
    requires { levels ≤ 60 }
{
    text.extend_from_slice(b"# Real Time Dispatcher Configuration\nRES=1000\n\n")?;
    text.extend_from_slice(b"# TIME QUANTUM                    PRIORITY\n")?;
    text.extend_from_slice(b"# (rt_quantum)                      LEVEL\n")?;
    for level in 0..levels {
        put_level(text, level)?;
    }
    Ok(())
}

fn dispadmin_file(alloc: Global, levels: u8) -> Result<Vec<u8>, AllocError>
    requires { levels ≤ 60 }
{
    let mut text = Vec::new(alloc);
    put_levels(&mut text, levels)?;
    Ok(text)
}

// Appends a level of the same table as it is written.
fn put_row(text: &mut Vec<u8>, level: u8) -> Result<(), AllocError>
    requires { level < 60 }
{
    put_number(text, QUANTA[level as usize / 10])?;
    text.extend_from_slice(b" # ")?;
    put_number(text, u64::from(level))?;
    text.extend_from_slice(b"\n")
}

fn put_rows(text: &mut Vec<u8>) -> Result<(), AllocError> {
    text.extend_from_slice(b"RES=1000\n")?;
    for level in 0..60u8 {
        put_row(text, level)?;
    }
    Ok(())
}

fn written_file(alloc: Global) -> Result<Vec<u8>, AllocError> {
    let mut text = Vec::new(alloc);
    put_rows(&mut text)?;
    Ok(text)
}

fn has_sixty_rows(table: &FixedTable) -> bool {
    table.rows() == 60 && table.row(0).ticks == 100 && table.row(59).ticks == 10
}

// Whether the table is written so.
fn is_written(alloc: Global, table: &FixedTable, text: &[u8]) -> Result<bool, AllocError> {
    let mut out = Vec::new(alloc);
    write_fixed(alloc, table, &mut out)?;
    Ok(out.as_slice() == text)
}

// The text is read as the default table of the real-time class.
fn is_default_rt(alloc: Global, text: &[u8], written: &[u8]) -> Result<bool, AllocError> {
    if 10_000 <= text.len() {
        return Ok(false);
    }
    match read_rt(alloc, text, HZ) {
        Ok(table) => {
            let is_so = has_sixty_rows(&table);
            Ok(is_written(alloc, &table, written)? && is_so)
        }
        Err(_) => Ok(false),
    }
}

fn whole_is_read(alloc: Global, written: &[u8]) -> Result<bool, AllocError> {
    let whole = dispadmin_file(alloc, 60)?;
    is_default_rt(alloc, &whole, written)
}

fn short_is_refused(alloc: Global) -> Result<bool, AllocError> {
    let short = dispadmin_file(alloc, 59)?;
    Ok(rt_fault(alloc, &short) == Some(ReadTableFault::Table(rows(59))))
}

fn default_is_written(alloc: Global, written: &[u8]) -> Result<bool, AllocError> {
    let table = default_rt(alloc, HZ)?;
    is_written(alloc, &table, written)
}

// The whole file is read and written, and one without its last row is refused.
fn are_read(alloc: Global) -> Result<bool, AllocError> {
    let written = written_file(alloc)?;
    Ok(whole_is_read(alloc, &written)? && short_is_refused(alloc)?)
}

#[test]
fn dispadmin_files(rt: HostRuntime) {
    is_so(&rt, are_read(rt.alloc()));
}

// The default time-sharing table at the ends of its bands, after ts_dptbl(4): the level, then ts_quantum, the ticks
// at 100 a second, ts_tqexp (ten levels down), ts_slpret, ts_maxwait and ts_lwait.
const TIME_SHARING: [(u8, u64, u64, u8, u8, u32, u8); 13] = [
    (0, 200, 20, 0, 50, 0, 50),
    (9, 200, 20, 0, 50, 0, 50),
    (10, 160, 16, 0, 51, 0, 51),
    (19, 160, 16, 9, 51, 0, 51),
    (20, 120, 12, 10, 52, 0, 52),
    (29, 120, 12, 19, 52, 0, 52),
    (30, 80, 8, 20, 53, 0, 53),
    (39, 80, 8, 29, 53, 0, 53),
    (40, 40, 4, 30, 54, 0, 54),
    (49, 40, 4, 39, 54, 0, 54),
    (50, 40, 4, 40, 55, 0, 55),
    (58, 40, 4, 48, 55, 0, 55),
    (59, 20, 2, 49, 55, 32_000, 55),
];

fn is_time_sharing(table: &TsTable) -> bool {
    if table.rows() != 60 {
        return false;
    }
    for case in &TIME_SHARING {
        let (level, quantum, ticks, tqexp, slpret, maxwait, lwait) = *case;
        if 60 <= level {
            return false;
        }
        let row = table.row(level);
        let own = row.quantum == quantum && row.ticks == ticks && row.tqexp == tqexp;
        if !own || row.slpret != slpret || row.maxwait != maxwait || row.lwait != lwait {
            return false;
        }
    }
    true
}

// The text is read as the default table of the time-sharing class.
fn is_read_as_time_sharing(alloc: Global, text: &[u8]) -> bool {
    if 10_000 <= text.len() {
        return false;
    }
    match read_ts(alloc, text, HZ) {
        Ok(again) => is_time_sharing(&again),
        Err(_) => false,
    }
}

fn is_written_and_read(alloc: Global, ts: &TsTable) -> Result<bool, AllocError> {
    let mut text = Vec::new(alloc);
    write_ts(alloc, ts, &mut text)?;
    Ok(is_read_as_time_sharing(alloc, &text))
}

fn is_default_ts(alloc: Global) -> Result<bool, AllocError> {
    let ts = default_ts(alloc, HZ)?;
    Ok(is_time_sharing(&ts) && is_written_and_read(alloc, &ts)?)
}

#[test]
fn the_default_time_sharing_table(rt: HostRuntime) {
    is_so(&rt, is_default_ts(rt.alloc()));
}

// The level, the quantum, and the ticks at 100 a second.
const FIXED_PRIORITY: [(u8, u64, u64); 8] = [
    (0, 200, 20),
    (9, 200, 20),
    (10, 160, 16),
    (20, 120, 12),
    (30, 80, 8),
    (40, 40, 4),
    (59, 40, 4),
    (60, 20, 2),
];

fn is_fixed_priority(table: &FixedTable) -> bool {
    if table.rows() != 61 {
        return false;
    }
    for case in &FIXED_PRIORITY {
        let (level, quantum, ticks) = *case;
        if 61 <= level {
            return false;
        }
        let row = table.row(level);
        if row.quantum != quantum || row.ticks != ticks {
            return false;
        }
    }
    true
}

// The text is read as the default table of the fixed-priority class, and is none of the real-time class.
fn is_read_as_fixed_priority(alloc: Global, text: &[u8]) -> bool {
    if 10_000 <= text.len() || rt_fault(alloc, text) != Some(ReadTableFault::Table(rows(61))) {
        return false;
    }
    match read_fx(alloc, text, HZ) {
        Ok(again) => is_fixed_priority(&again),
        Err(_) => false,
    }
}

fn fixed_is_written_and_read(alloc: Global, fx: &FixedTable) -> Result<bool, AllocError> {
    let mut text = Vec::new(alloc);
    write_fixed(alloc, fx, &mut text)?;
    Ok(is_read_as_fixed_priority(alloc, &text))
}

fn is_default_fx(alloc: Global) -> Result<bool, AllocError> {
    let fx = default_fx(alloc, HZ)?;
    Ok(is_fixed_priority(&fx) && fixed_is_written_and_read(alloc, &fx)?)
}

#[test]
fn the_default_fixed_priority_table(rt: HostRuntime) {
    is_so(&rt, is_default_fx(rt.alloc()));
}

fn is_written_as_default(alloc: Global) -> Result<bool, AllocError> {
    let written = written_file(alloc)?;
    default_is_written(alloc, &written)
}

#[test]
fn the_default_real_time_table(rt: HostRuntime) {
    is_so(&rt, is_written_as_default(rt.alloc()));
}
