//! The cells of a table: texts with blanks to a width, and numbers that may be none. They go straight into the text of the table, and
//! none takes memory of its own.

ghost use Rattle.std.specs.Prelude.{◌≡◌, ◌++◌, ◌≤◌, IfOk, OnOk, decimal};
ghost use Rattle.sd_text.specs.Numbers.{digits_if};
ghost use Rattle.sd_report.specs.Cells.{blanks, cell, left, right};

use itoa::{Buffer, write_digits};
use sd_text::put_number;
use std::alloc::{AllocError, Global};

/// How wide a cell may be. A text that is wider stands as it is.
pub(crate) const WIDEST: usize = 32;

const BLANKS: [u8; WIDEST] = [b' '; WIDEST];

#[tactic(auto, using(crate::proofs::CellLemmas::blanks_taken))]
fn put_blanks(n: usize, out: &mut Vec<u8>) -> Result<(), AllocError>
    requires { n ≤ WIDEST }
    ensures { OnOk result (out.new.items ≡ out.old.items ++ blanks n) }
{
    out.extend_from_slice(&BLANKS[..n])
}

/// A text, and blanks where it is not as wide.
#[tactic(auto, unfolding(crate::specs::Cells::left))]
pub(crate) fn put_left(width: usize, text: &[u8], out: &mut Vec<u8>) -> Result<(), AllocError>
    requires { width ≤ WIDEST }
    ensures { OnOk result (out.new.items ≡ out.old.items ++ left width text.now) }
{
    out.extend_from_slice(text)?;
    put_blanks(width.saturating_sub(text.len()), out)
}

/// The digits of a number, and blanks where they are not as wide.
pub(crate) fn put_left_number(width: usize, n: u64, out: &mut Vec<u8>) -> Result<(), AllocError>
    requires { width ≤ WIDEST }
    ensures { OnOk result (out.new.items ≡ out.old.items ++ left width (decimal n)) }
{
    let mut buffer = Buffer::new();
    put_left(width, buffer.format(n).as_bytes(), out)
}

/// A text, behind blanks where it is not as wide.
#[tactic(auto, unfolding(crate::specs::Cells::right))]
pub(crate) fn put_right(width: usize, text: &[u8], out: &mut Vec<u8>) -> Result<(), AllocError>
    requires { width ≤ WIDEST }
    ensures { OnOk result (out.new.items ≡ out.old.items ++ right width text.now) }
{
    put_blanks(width.saturating_sub(text.len()), out)?;
    out.extend_from_slice(text)
}

// The digits of a number, behind blanks where they are not as wide: blanks whose end the digits overwrite.
fn put_right_number(width: usize, n: u64, out: &mut Vec<u8>) -> Result<(), AllocError>
    requires { width ≤ WIDEST }
    ensures { OnOk result (out.new.items ≡ out.old.items ++ right width (decimal n)) }
{
    let mut text = [b' '; WIDEST];
    let start = write_digits(n, &mut text, WIDEST);
    out.extend_from_slice(&text[start.min(WIDEST - width)..])
}

/// A number behind blanks, and a dash for none.
pub(crate) fn put_cell(width: usize, n: Option<u64>, out: &mut Vec<u8>) -> Result<(), AllocError>
    requires { width ≤ WIDEST }
    ensures { OnOk result (out.new.items ≡ out.old.items ++ right width (cell n)) }
{
    match n {
        Some(n) => put_right_number(width, n, out),
        None => put_right(width, b"-", out),
    }
}

/// The digits of a number, and nothing for none.
pub(crate) fn digits_if(alloc: Global, n: Option<u64>) -> Result<Vec<u8>, AllocError>
    ensures { IfOk result (λ v. v.items ≡ digits_if n) }
{
    let mut text = Vec::new(alloc);
    if let Some(n) = n {
        put_number(&mut text, n)?;
    }
    Ok(text)
}
