//! Lines that have a name or a number in them.

ghost use Rattle.std.specs.Prelude.{◌≡◌, ◌++◌, ◌∷◌, [], ◌+◌, ◌<◌, ◌^◌, ◌==◌, OnOk, IfOk, codes, cond, decimal};
ghost use Rattle.sd_tasks.specs.Written.{written};
ghost use Rattle.sd_tasks.specs.WrittenKept.{lines_kept};
ghost use Rattle.sd_releases.specs.Clocks.{clock_name};
ghost use Rattle.sd_releases.specs.Starters.{starter_name};

use sd_tasks::{WrittenLine, push_line};
use sd_text::put_number;
use std::alloc::{AllocError, Global};

/// One more line, of three parts.
pub(crate) fn push_three(
    alloc: Global,
    lines: &mut Vec<WrittenLine>,
    first: &[u8],
    second: &[u8],
    third: &[u8],
    line: u32,
) -> Result<(), AllocError>
    ensures { OnOk result (lines_kept lines.new.items ≡ lines_kept lines.old.items ++ written (first.now ++ (second.now ++ third.now)) line ∷ []) }
{
    let mut text = Vec::from_slice(alloc, first)?;
    text.extend_from_slice(second)?;
    text.extend_from_slice(third)?;
    push_line(lines, text, line)
}

/// One more line, of a part and a number.
pub(crate) fn push_number(
    alloc: Global,
    lines: &mut Vec<WrittenLine>,
    first: &[u8],
    number: u64,
    line: u32,
) -> Result<(), AllocError>
    ensures { OnOk result (lines_kept lines.new.items ≡ lines_kept lines.old.items ++ written (first.now ++ decimal number) line ∷ []) }
{
    let mut text = Vec::from_slice(alloc, first)?;
    put_number(&mut text, number)?;
    push_line(lines, text, line)
}

/// `-2` behind the name of a clock's second script, and so on; nothing behind the first.
fn put_place(text: &mut Vec<u8>, place: u64) -> Result<(), AllocError>
    requires { place + 1 < 2 ^ 64 }
    ensures { OnOk result (text.new.items ≡ text.old.items ++ cond (place == 0) [] (codes "-" ++ decimal (place + 1))) }
{
    if place == 0 {
        return Ok(());
    }
    text.extend_from_slice(b"-")?;
    put_number(text, place + 1)
}

/// `clock-C`, `clock-C-2` and so on.
pub(crate) fn clock_name(alloc: Global, cpu: u64, place: u64) -> Result<Vec<u8>, AllocError>
    requires { place + 1 < 2 ^ 64 }
    ensures { IfOk result (λ name. name.items ≡ clock_name cpu place) }
{
    let mut name = Vec::from_slice(alloc, b"clock-")?;
    put_number(&mut name, cpu)?;
    put_place(&mut name, place)?;
    Ok(name)
}

/// `start-C`
pub(crate) fn starter_name(alloc: Global, cpu: u64) -> Result<Vec<u8>, AllocError>
    ensures { IfOk result (λ name. name.items ≡ starter_name cpu) }
{
    let mut name = Vec::from_slice(alloc, b"start-")?;
    put_number(&mut name, cpu)?;
    Ok(name)
}
