//! Task sets, read to the first line at fault by their own rules, or to the end.

ghost use Rattle.std.specs.Prelude.{◌≡◌, ◌<◌, ◌^◌, length, IfOk};
ghost use Rattle.sd_tasks.specs.Kept.{reading_kept};
ghost use Rattle.sd_tasks.specs.Readings.{reading_of};

use crate::reader::{Reader, cause_at_end, new_reader, take_line};
use sd_declare::WorkCause;
use sd_text::next_line;
use std::alloc::{AllocError, Global};

/// What was seen of a set; the line on which the reading ended, from 1, which is the one at fault or the line after the last;
/// and why it is at fault, if it is.
#[derive(Drop)]
pub struct SetReading {
    pub seen: Reader,
    pub number: u32,
    pub cause: Option<WorkCause>,
}

/// Reads a task set to the first line at fault by the rules of task sets, or to its end.
pub fn read_set(alloc: Global, bytes: &[u8]) -> Result<SetReading, AllocError>
    requires { length bytes.now < 2 ^ 31 }
    ensures { IfOk result (λ r. reading_kept r ≡ reading_of bytes.now) }
{
    let mut seen = new_reader(alloc);
    let mut number = 1;
    let mut from = 0;
    'lines: while let Some((start, end)) = next_line(bytes, from) {
        let cause = take_line(alloc, &mut seen, number, &bytes[start..end])?;
        if cause.is_some() {
            return Ok(SetReading {
                seen,
                number,
                cause,
            });
        }
        number += 1;
        from = end + 1;
    }
    let cause = cause_at_end(&seen);
    Ok(SetReading {
        seen,
        number,
        cause,
    })
}
