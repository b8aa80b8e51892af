//! The lines of an expansion, printed.

ghost use Rattle.std.specs.Prelude.{◌≡◌, ◌++◌, OnOk, IfOk};
ghost use Rattle.sd_tasks.specs.WrittenKept.{line_kept, lines_kept};
ghost use Rattle.sd_task_program.specs.Printed.{mapped_line, mapped_text, printed};

use sd_tasks::{WrittenLine, lines_text};
use sd_text::put_number;
use std::alloc::{AllocError, Global};

/// Appends a line, with the line of the set from which it comes as a comment.
fn put_mapped(text: &mut Vec<u8>, line: &WrittenLine) -> Result<(), AllocError>
    ensures { OnOk result (text.new.items ≡ text.old.items ++ mapped_line (line_kept line.now)) }
{
    text.extend_from_slice(&line.text)?;
    text.extend_from_slice(b" # ")?;
    put_number(text, u64::from(line.line))?;
    text.extend_from_slice(b"\n")
}

fn mapped_text(alloc: Global, lines: &[WrittenLine]) -> Result<Vec<u8>, AllocError>
    ensures { IfOk result (λ text. text.items ≡ mapped_text (lines_kept lines.now)) }
{
    let mut text = Vec::new(alloc);
    for line in lines {
        put_mapped(&mut text, line)?;
    }
    Ok(text)
}

/// What is printed of lines.
pub(crate) fn printed(
    alloc: Global,
    is_mapped: bool,
    lines: &[WrittenLine],
) -> Result<Vec<u8>, AllocError>
    ensures { IfOk result (λ text. text.items ≡ printed is_mapped (lines_kept lines.now)) }
{
    if is_mapped {
        mapped_text(alloc, lines)
    } else {
        lines_text(alloc, lines)
    }
}
