//! Table files in the manner of dispadmin(1M).

ghost use Rattle.std.specs.Prelude.{◌≡◌, true, ◌<◌, ◌≤◌, ◌^◌, length, map, IfOk, OnOk, IfErr};
ghost use Rattle.std.specs.List.{list_all};
ghost use Rattle.sd_dispadmin.specs.Sheets.{StandsFor, rows_of};
ghost use Rattle.sd_dispadmin.specs.TableText.{Format, word_lines, rows_in, is_unit, is_within, ts_columns, fixed_columns, ts_format, fixed_format, fx_format, rt_format, IsTableText, IsTableFault, IsRefusal, SpellsTs, SpellsFixed};
ghost use Rattle.sd_dispadmin.specs.TableRows.{ts_row_of, fixed_row_of};

use crate::columns::{Column, Numbers};
use crate::sheet::{Sheet, read_sheet};
use crate::ticks::ticks;
use crate::{ReadTableFault, TableFault};
use sd_types::{FixedRow, FixedTable, List, MOST_QUANTUM_UNITS, TsRow, TsTable};
use std::alloc::{AllocError, Global};

// The least number of rows, and the greatest but for the fixed-priority class.
const ROWS: u32 = 60;

// The row of a level, from its numbers.
#[tactic(auto, unfolding(crate::specs::TableRows::ts_row_of))]
fn ts_row(numbers: &[u64], hz: u32, res: u64) -> TsRow
    requires within { is_within ts_columns numbers.now ≡ true }
    requires hz { 1 ≤ hz }
    requires res { is_unit res ≡ true }
    ensures { result ≡ ts_row_of hz res numbers.now }
{
    TsRow {
        quantum: numbers[0],
        ticks: ticks(numbers[0], hz, res),
        tqexp: numbers[1] as u8,
        slpret: numbers[2] as u8,
        maxwait: numbers[3] as u32,
        lwait: numbers[4] as u8,
    }
}

#[tactic(auto, unfolding(crate::specs::TableRows::fixed_row_of))]
fn fixed_row(numbers: &[u64], hz: u32, res: u64) -> FixedRow
    requires within { is_within fixed_columns numbers.now ≡ true }
    requires hz { 1 ≤ hz }
    requires res { is_unit res ≡ true }
    ensures { result ≡ fixed_row_of hz res numbers.now }
{
    FixedRow {
        quantum: numbers[0],
        ticks: ticks(numbers[0], hz, res),
    }
}

fn ts_rows(alloc: Global, rows: &[Numbers], hz: u32, res: u64) -> Result<Vec<TsRow>, AllocError>
    requires within { list_all (is_within ts_columns) (map (λ r. r.items) rows.now) ≡ true }
    requires hz { 1 ≤ hz }
    requires res { is_unit res ≡ true }
    ensures { IfOk result (λ v. v.items ≡ map (ts_row_of hz res) (map (λ r. r.items) rows.now)) }
{
    let mut made = Vec::with_capacity(alloc, rows.len())?;
    for numbers in rows {
        made.push(ts_row(numbers.as_slice(), hz, res))?;
    }
    Ok(made)
}

fn fixed_rows(
    alloc: Global,
    rows: &[Numbers],
    hz: u32,
    res: u64,
) -> Result<Vec<FixedRow>, AllocError>
    requires within { list_all (is_within fixed_columns) (map (λ r. r.items) rows.now) ≡ true }
    requires hz { 1 ≤ hz }
    requires res { is_unit res ≡ true }
    ensures { IfOk result (λ v. v.items ≡ map (fixed_row_of hz res) (map (λ r. r.items) rows.now)) }
{
    let mut made = Vec::with_capacity(alloc, rows.len())?;
    for numbers in rows {
        made.push(fixed_row(numbers.as_slice(), hz, res))?;
    }
    Ok(made)
}

// The numbers of a table file with `least` to `most` rows, or its fault.
fn read_text(text: &[u8], columns: &[Column], least: u32, most: u32) -> Result<Sheet, TableFault>
    requires text { length text.now < 2 ^ 31 }
    requires columns { length columns.now ≤ 5 }
    requires most { most ≤ 61 }
    ensures ok { let format : Format = record { columns = columns.now; least = least; most = most } in OnOk result (IsTableText format text.now) }
    ensures err { let format : Format = record { columns = columns.now; least = least; most = most } in IfErr result (IsTableFault format text.now) }
    ensures sheet { IfOk result (StandsFor columns.now (word_lines text.now)) }
    ensures rows { IfOk result (λ s. rows_of s ≡ rows_in (word_lines text.now)) }
{
    let sheet = read_sheet(text, columns)?;
    if sheet.count < least || most < sheet.count {
        return Err(TableFault::Rows { found: sheet.count });
    }
    Ok(sheet)
}

/// Reads a time-sharing table: rows of five numbers (`ts_quantum`, `ts_tqexp`, `ts_slpret`, `ts_maxwait`,
/// `ts_lwait`) for 60 levels. Its quanta become ticks at `hz` ticks a second.
pub fn read_ts(alloc: Global, text: &[u8], hz: u32) -> Result<TsTable, ReadTableFault>
    requires text { length text.now < 2 ^ 31 }
    requires hz { 1 ≤ hz }
    ensures ok { IfOk result (SpellsTs text.now hz) }
    ensures err { IfErr result (IsRefusal ts_format text.now) }
{
    let quantum = Column {
        least: 1,
        greatest: MOST_QUANTUM_UNITS,
    };
    let level = Column {
        least: 0,
        greatest: 59,
    };
    let maxwait = Column {
        least: 0,
        greatest: 32_767,
    };
    let sheet = read_text(text, &[quantum, level, level, maxwait, level], ROWS, ROWS)?;
    let res = sheet.res();
    let rows = ts_rows(alloc, &sheet.rows, hz, res)?;
    Ok(TsTable::from_rows(res, List::from_vec(rows)))
}

fn read_fixed(alloc: Global, text: &[u8], hz: u32, most: u32) -> Result<FixedTable, ReadTableFault>
    requires text { length text.now < 2 ^ 31 }
    requires hz { 1 ≤ hz }
    requires most { most ≤ 61 }
    ensures ok { IfOk result (SpellsFixed (fixed_format most) text.now hz) }
    ensures err { IfErr result (IsRefusal (fixed_format most) text.now) }
{
    let quantum = Column {
        least: 1,
        greatest: MOST_QUANTUM_UNITS,
    };
    let sheet = read_text(text, &[quantum], ROWS, most)?;
    let res = sheet.res();
    let rows = fixed_rows(alloc, &sheet.rows, hz, res)?;
    Ok(FixedTable::from_rows(res, List::from_vec(rows)))
}

/// Reads a fixed-priority table: rows of one number, the quantum, for 60 or 61 levels.
pub fn read_fx(alloc: Global, text: &[u8], hz: u32) -> Result<FixedTable, ReadTableFault>
    requires text { length text.now < 2 ^ 31 }
    requires hz { 1 ≤ hz }
    ensures ok { IfOk result (SpellsFixed fx_format text.now hz) }
    ensures err { IfErr result (IsRefusal fx_format text.now) }
{
    read_fixed(alloc, text, hz, ROWS + 1)
}

/// Reads a real-time table: rows of one number, the quantum, for 60 levels.
pub fn read_rt(alloc: Global, text: &[u8], hz: u32) -> Result<FixedTable, ReadTableFault>
    requires text { length text.now < 2 ^ 31 }
    requires hz { 1 ≤ hz }
    ensures ok { IfOk result (SpellsFixed rt_format text.now hz) }
    ensures err { IfErr result (IsRefusal rt_format text.now) }
{
    read_fixed(alloc, text, hz, ROWS)
}
