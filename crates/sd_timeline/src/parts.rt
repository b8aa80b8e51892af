//! A text of several parts is appended by one call, so that a function that puts such a text has no step of its own for each part.

ghost use Rattle.std.specs.Prelude.{◌≡◌, ◌++◌, OnOk, flat_map};
ghost use Rattle.sd_timeline.specs.Parts.{part_text};

use sd_text::put_number;
use std::alloc::AllocError;

/// A part of a text: bytes, or a number in decimal digits.
#[derive(Clone, Copy)]
pub(crate) enum Part<'a> {
    Text(&'a [u8]),
    Number(u64),
}

fn put_part(part: &Part, out: &mut Vec<u8>) -> Result<(), AllocError>
    ensures { OnOk result (out.new.items ≡ out.old.items ++ part_text part.now) }
{
    match *part {
        Part::Text(text) => out.extend_from_slice(text),
        Part::Number(n) => put_number(out, n),
    }
}

/// Appends the parts. Where memory runs out it may have appended some of them.
pub(crate) fn put_parts(parts: &[Part], out: &mut Vec<u8>) -> Result<(), AllocError>
    ensures { OnOk result (out.new.items ≡ out.old.items ++ flat_map part_text parts.now) }
{
    for part in parts {
        put_part(part, out)?;
    }
    Ok(())
}
