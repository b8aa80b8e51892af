//! Dispatch tables. A table keeps that it has as many rows as its class has levels,
//! and that each number lies in its range.
//!
//! Source: `ts_dptbl`(4), `rt_dptbl`(4), dispadmin(1M).

ghost use Rattle.std.specs.Prelude.{◌≡◌, ◌<◌, ◌≤◌, length, IsTrue};
ghost use Rattle.std.specs.List.{list_all};
ghost use Rattle.sd_types.specs.Limits.{greatest_resolution};
ghost use Rattle.sd_types.specs.Rows.{ts_row_fits, fixed_row_fits};

use crate::List;

/// A level of the time-sharing class: `quantum` in units of 1/RES second (1 to 1,000,000,000), the same in
/// ticks (at least 1), the levels after an expired quantum, after a sleep and after a long wait (0 to 59),
/// and the seconds of waiting that are allowed (`maxwait`, at most 32,767).
#[derive(Clone, Copy)]
pub struct TsRow {
    pub quantum: u64,
    pub ticks: u64,
    pub tqexp: u8,
    pub slpret: u8,
    pub maxwait: u32,
    pub lwait: u8,
}

/// A level of the fixed-priority or the real-time class: its quantum in units of 1/RES second
/// (1 to 1,000,000,000) and in ticks (at least 1).
#[derive(Clone, Copy)]
pub struct FixedRow {
    pub quantum: u64,
    pub ticks: u64,
}

/// The time-sharing table: RES (1 to 1,000,000,000) and 60 rows.
#[derive(Drop)]
pub struct TsTable {
    pub res: u64,
    pub rows: List<TsRow>,
    ghost some_res: { 1 ≤ res },
    ghost most_res: { res ≤ greatest_resolution },
    ghost whole: { length rows ≡ 60 },
    ghost fits: { IsTrue (list_all ts_row_fits rows) },
}

/// A table of the fixed-priority class, with 60 or 61 rows, or of the real-time class, with 60.
#[derive(Drop)]
pub struct FixedTable {
    pub res: u64,
    pub rows: List<FixedRow>,
    ghost some_res: { 1 ≤ res },
    ghost most_res: { res ≤ greatest_resolution },
    ghost least: { 60 ≤ length rows },
    ghost most: { length rows ≤ 61 },
    ghost fits: { IsTrue (list_all fixed_row_fits rows) },
}

impl TsTable {
    ghost use Rattle.sd_types.specs.TableRows.{ts_row_of};

    pub fn from_rows(res: u64, rows: List<TsRow>) -> TsTable
        requires some_res { 1 ≤ res }
        requires most_res { res ≤ greatest_resolution }
        requires whole { length rows ≡ 60 }
        requires fits { IsTrue (list_all ts_row_fits rows) }
        ensures res { result.res ≡ res }
        ensures rows { result.rows ≡ rows }
    {
        TsTable { res, rows }
    }

    pub fn res(&self) -> u64
        ensures { result ≡ self.now.res }
    {
        self.res
    }

    /// The number of levels: 60.
    pub fn rows(&self) -> usize
        ensures { result ≡ length self.now.rows }
    {
        self.rows.items().len()
    }

    /// The row of a level, whose numbers are in their ranges.
    pub fn row(&self, level: u8) -> &TsRow
        requires { level < length self.now.rows }
        ensures row { result.now ≡ ts_row_of self.now level }
        ensures fits { IsTrue (ts_row_fits result.now) }
    {
        &self.rows.items()[level as usize]
    }
}

impl FixedTable {
    ghost use Rattle.sd_types.specs.TableRows.{fixed_row_of};

    pub fn from_rows(res: u64, rows: List<FixedRow>) -> FixedTable
        requires some_res { 1 ≤ res }
        requires most_res { res ≤ greatest_resolution }
        requires least { 60 ≤ length rows }
        requires most { length rows ≤ 61 }
        requires fits { IsTrue (list_all fixed_row_fits rows) }
        ensures res { result.res ≡ res }
        ensures rows { result.rows ≡ rows }
    {
        FixedTable { res, rows }
    }

    pub fn res(&self) -> u64
        ensures { result ≡ self.now.res }
    {
        self.res
    }

    /// The number of levels: 60 or 61.
    pub fn rows(&self) -> usize
        ensures { result ≡ length self.now.rows }
    {
        self.rows.items().len()
    }

    /// The row of a level, whose numbers are in their ranges.
    pub fn row(&self, level: u8) -> &FixedRow
        requires { level < length self.now.rows }
        ensures row { result.now ≡ fixed_row_of self.now level }
        ensures fits { IsTrue (fixed_row_fits result.now) }
    {
        &self.rows.items()[level as usize]
    }
}
