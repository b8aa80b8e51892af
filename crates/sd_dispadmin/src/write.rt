//! Dispatch tables as texts.

ghost use Rattle.std.specs.Prelude.{◌≡◌, ◌+◌, ◌<◌, ◌≤◌, ◌^◌, ◌++◌, ◌∷◌, [], length, map, drop, decimal, codes, IfOk, OnOk, OnErr};
ghost use Rattle.std.specs.List.{flat_map};
ghost use Rattle.sd_text.specs.Lines.{text_of_lines};
ghost use Rattle.sd_dispadmin.specs.TableText.{ts_numbers, fixed_numbers};
ghost use Rattle.sd_dispadmin.specs.TableSpelling.{res_text, row_text, row_texts, ts_text, fixed_text};

use sd_text::put_number;
use sd_types::{FixedRow, FixedTable, TsRow, TsTable};
use std::alloc::{AllocError, Global};

// Each number, with a space behind it.
fn put_numbers(out: &mut Vec<u8>, numbers: &[u64]) -> Result<(), AllocError>
    ensures { OnOk result (out.new.items ≡ out.old.items ++ flat_map (λ n. decimal n ++ 32 ∷ []) numbers.now) }
{
    for number in numbers {
        put_number(out, *number)?;
        out.push(b' ')?;
    }
    Ok(())
}

// The line of a row.
fn put_row(out: &mut Vec<u8>, numbers: &[u64], level: u64) -> Result<(), AllocError>
    requires { 0 < length numbers.now }
    ensures { OnOk result (out.new.items ≡ out.old.items ++ (row_text numbers.now level ++ 10 ∷ [])) }
{
    put_numbers(out, numbers)?;
    out.extend_from_slice(b"# ")?;
    put_number(out, level)?;
    out.push(b'\n')?;
    Ok(())
}

// The line of RES.
fn put_res(out: &mut Vec<u8>, res: u64) -> Result<(), AllocError>
    ensures { OnOk result (out.new.items ≡ out.old.items ++ (res_text res ++ 10 ∷ [])) }
{
    out.extend_from_slice(b"RES=")?;
    put_number(out, res)?;
    out.push(b'\n')?;
    Ok(())
}

fn put_ts_rows(out: &mut Vec<u8>, rows: &[TsRow]) -> Result<(), AllocError>
    ensures { OnOk result (out.new.items ≡ out.old.items ++ text_of_lines (row_texts (map ts_numbers rows.now) 0)) }
{
    for (level, row) in rows.iter().enumerate() {
        let numbers = [
            row.quantum,
            u64::from(row.tqexp),
            u64::from(row.slpret),
            u64::from(row.maxwait),
            u64::from(row.lwait),
        ];
        put_row(out, &numbers, level as u64)?;
    }
    Ok(())
}

fn put_fixed_rows(out: &mut Vec<u8>, rows: &[FixedRow]) -> Result<(), AllocError>
    ensures { OnOk result (out.new.items ≡ out.old.items ++ text_of_lines (row_texts (map fixed_numbers rows.now) 0)) }
{
    for (level, row) in rows.iter().enumerate() {
        put_row(out, &[row.quantum], level as u64)?;
    }
    Ok(())
}

/// Appends the table's text: `RES=n`, and a line for each level with its numbers joined by single spaces, ` # ` and
/// the level. Where memory runs out, `out` is as it was.
pub fn write_ts(alloc: Global, t: &TsTable, out: &mut Vec<u8>) -> Result<(), AllocError>
    ensures ok { OnOk result (out.new.items ≡ out.old.items ++ ts_text t.now) }
    ensures err { OnErr result (out.new.items ≡ out.old.items) }
{
    let mut text = Vec::new(alloc);
    put_res(&mut text, t.res())?;
    put_ts_rows(&mut text, t.rows.items())?;
    out.extend_from_slice(&text)
}

/// Appends the table's text, in the manner of [`write_ts`], with the quantum alone for each level.
pub fn write_fixed(alloc: Global, t: &FixedTable, out: &mut Vec<u8>) -> Result<(), AllocError>
    ensures ok { OnOk result (out.new.items ≡ out.old.items ++ fixed_text t.now) }
    ensures err { OnErr result (out.new.items ≡ out.old.items) }
{
    let mut text = Vec::new(alloc);
    put_res(&mut text, t.res())?;
    put_fixed_rows(&mut text, t.rows.items())?;
    out.extend_from_slice(&text)
}
