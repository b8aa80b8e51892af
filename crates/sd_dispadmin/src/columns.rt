//! Rows of a table file: a number for each column.

ghost use Rattle.std.specs.Prelude.{◌≡◌, true, false, ◌+◌, ◌<◌, ◌≤◌, not, ◌||◌, IsTrue, length, List, map, option_map, IfSome, IfNone, IfOk, OnOk, IfErr, Some, None};
ghost use Rattle.std.specs.List.{zip};
ghost use Rattle.sd_text.specs.Words.{words_of};
ghost use Rattle.sd_dispadmin.specs.TableText.{has_numbers, numbers_of, is_outside, column_outside, row_fault, is_within};

use crate::TableFault;
use arrayvec::ArrayVec;
use sd_text::{next_word, number};

/// The range of the numbers of a column.
#[derive(Clone, Copy)]
pub struct Column {
    pub least: u64,
    pub greatest: u64,
}

/// The numbers of a row, one for each column.
pub type Numbers = ArrayVec<u64, 5>;

// Whether the number lies outside the range of the column.
fn is_outside(column: Column, number: u64) -> bool
    ensures { result ≡ is_outside (column, number) }
{
    number < column.least || column.greatest < number
}

// The first column, from 0, whose number lies outside its range.
fn column_outside(columns: &[Column], numbers: &[u64]) -> Option<usize>
    ensures value { result ≡ column_outside columns.now numbers.now }
    ensures bound { IfSome result (λ column. column < length columns.now) }
{
    columns
        .iter()
        .zip(numbers)
        .position(|(column, number)| is_outside(*column, *number))
}

// The numbers of a line that is exactly as many numbers.
#[tactic(auto, unfolding(sd_text::specs::Numbers::number_of))]
fn numbers(line: &[u8], columns: &[Column]) -> Option<Numbers>
    requires { length columns.now ≤ 5 }
    ensures none { IfNone result (has_numbers columns.now (words_of line.now) ≡ false) }
    ensures some { IfSome result (λ found. has_numbers columns.now (words_of line.now) ≡ true) }
    ensures value { IfSome result (λ found. found.items ≡ numbers_of (words_of line.now)) }
{
    let mut found = Numbers::new();
    let mut from = 0;
    while let Some((start, end)) = next_word(line, from) {
        if found.len() == columns.len() {
            return None;
        }
        found.push(number(&line[start..end])?);
        from = end;
    }
    if found.len() == columns.len() {
        Some(found)
    } else {
        None
    }
}

/// The row that a line is. `number` is the line's, from 1.
pub fn row(line: &[u8], number: u32, columns: &[Column]) -> Result<Numbers, TableFault>
    requires { length columns.now ≤ 5 }
    ensures ok { OnOk result (row_fault columns.now (words_of line.now) number ≡ None) }
    ensures err { IfErr result (λ fault. row_fault columns.now (words_of line.now) number ≡ Some fault) }
    ensures value { IfOk result (λ found. found.items ≡ numbers_of (words_of line.now)) }
    ensures within { IfOk result (λ found. IsTrue (is_within columns.now found.items)) }
{
    let Some(found) = numbers(line, columns) else {
        return Err(TableFault::NotANumber { line: number });
    };
    match column_outside(columns, &found) {
        None => Ok(found),
        Some(column) => Err(TableFault::Range {
            line: number,
            column: column as u8 + 1,
        }),
    }
}
