//! The numbers of a table file, line after line. No memory is taken.

ghost use Rattle.std.specs.Prelude.{◌≡◌, ℕ, true, false, ◌+◌, ◌<◌, ◌≤◌, ◌^◌, ◌++◌, ◌∷◌, [], ◌||◌, List, Some, None, length, is_some, is_none, nat_lt, unwrap_or, OnErr, OnOk, IfSome, IfOk, IfErr};
ghost use Rattle.sd_text.specs.Words.{words_of};
ghost use Rattle.sd_dispadmin.specs.TableText.{word_lines, AreClean, IsLineFault, is_unit};
ghost use Rattle.sd_dispadmin.specs.Sheets.{StandsFor};

use crate::TableFault;
use crate::columns::{Column, Numbers, row};
use crate::resolution::{Kind, kind_of};
use arrayvec::ArrayVec;
use sd_text::next_line;

/// The greatest number of rows that a table has.
pub const MOST_ROWS: usize = 61;

/// What the lines that were read so far give: RES, if a line gave it, the number of rows, and the rows as far as
/// a table has as many.
#[derive(Drop)]
pub struct Sheet {
    pub res: Option<u64>,
    pub count: u32,
    pub rows: ArrayVec<Numbers, 61>,
}

impl Sheet {
    ghost use Rattle.sd_dispadmin.specs.Sheets.{TakesLine};

    /// The RES that a line gives, or 1000.
    pub fn res(&self) -> u64
        ensures value { result ≡ unwrap_or self.now.res 1000 }
        ensures unit { IfSome self.now.res (λ n. is_unit n ≡ true) → is_unit result ≡ true }
    {
        self.res.unwrap_or(1000)
    }

    // Takes in a line that begins with `RES=`, with the RES that it gives.
    fn take_res(&mut self, res: Option<u64>, number: u32) -> Result<(), TableFault>
        ensures fault { IfErr result (λ fault. fault ≡ TableFault.Resolution number) }
        ensures err { OnErr result ((is_none res || is_some self.old.res || nat_lt 0 self.old.count) ≡ true) }
        ensures kept { OnErr result (self.new ≡ self.old) }
        ensures ok { OnOk result ((is_none res || is_some self.old.res || nat_lt 0 self.old.count) ≡ false) }
        ensures new_res { OnOk result (self.new.res ≡ res) }
        ensures new_count { OnOk result (self.new.count ≡ self.old.count) }
        ensures new_rows { OnOk result (self.new.rows.items ≡ self.old.rows.items) }
    {
        if res.is_none() || self.res.is_some() || 0 < self.count {
            return Err(TableFault::Resolution { line: number });
        }
        self.res = res;
        Ok(())
    }

    // Takes in the numbers of a row.
    fn take_row(&mut self, numbers: Numbers)
        requires { self.old.count < 2 ^ 31 }
        ensures res { self.new.res ≡ self.old.res }
        ensures count { self.new.count ≡ self.old.count + 1 }
        ensures rows { length self.old.rows.items < 61 → self.new.rows.items ≡ self.old.rows.items ++ numbers ∷ [] }
    {
        self.count += 1;
        if self.rows.len() < MOST_ROWS {
            self.rows.push(numbers);
        }
    }

    // Takes in a line.
    fn take_line(&mut self, line: &[u8], number: u32, columns: &[Column]) -> Result<(), TableFault>
        requires columns { length columns.now ≤ 5 }
        requires room { self.old.count < 2 ^ 31 }
        ensures taken { TakesLine columns.now (words_of line.now) number self.old self.new result }
        ensures count { self.new.count ≤ self.old.count + 1 }
    {
        match kind_of(line) {
            Kind::Blank => {}
            Kind::Resolution(res) => self.take_res(res, number)?,
            Kind::Row => self.take_row(row(line, number, columns)?),
        }
        Ok(())
    }
}

/// The numbers of a table file, line after line. Whether it has the right number of rows is not looked at.
pub fn read_sheet(text: &[u8], columns: &[Column]) -> Result<Sheet, TableFault>
    requires text { length text.now < 2 ^ 31 }
    requires columns { length columns.now ≤ 5 }
    ensures err { IfErr result (IsLineFault columns.now (word_lines text.now)) }
    ensures clean { OnOk result (AreClean columns.now (word_lines text.now) (length (word_lines text.now))) }
    ensures value { IfOk result (StandsFor columns.now (word_lines text.now)) }
    ensures count { IfOk result (λ s. s.count ≤ length text.now + 1) }
{
    let mut sheet = Sheet {
        res: None,
        count: 0,
        rows: ArrayVec::new(),
    };
    let mut lines = 0;
    let mut from = 0;
    while let Some((start, end)) = next_line(text, from) {
        lines += 1;
        sheet.take_line(&text[start..end], lines, columns)?;
        from = end + 1;
    }
    Ok(sheet)
}
