//! Where the lines of a text begin, from line to line.

ghost use Rattle.std.specs.Prelude.{◌≡◌, [], ◌∷◌, ◌+◌, ◌<◌, ◌≤◌, ◌^◌, length, drop, IfSome, IfNone};
ghost use Rattle.sd_text.specs.Lines.{lines_of};
ghost use Rattle.sd_text.specs.Words.{words_of};
ghost use Rattle.sd_workload.specs.LineStarts.{lines_from, fault_of};
ghost use Rattle.sd_workload.specs.Tables.{IsBelow};

use crate::WorkFault;
use sd_declare::Refusal;
use sd_text::next_line;

/// Where a line begins, and its number, from 1.
#[derive(Clone, Copy)]
pub struct LineStart {
    pub from: usize,
    pub number: u32,
}

/// The line that begins there, and where the line below it begins.
pub fn line_at(bytes: &[u8], at: LineStart) -> Option<(&[u8], LineStart)>
    requires text { length bytes.now < 2 ^ 31 }
    requires number { at.number ≤ at.from + 1 }
    ensures none { IfNone result (lines_from bytes.now at ≡ []) }
    ensures line { IfSome result (λ p. lines_from bytes.now at ≡ words_of p.0.now ∷ lines_from bytes.now p.1) }
    ensures raw { IfSome result (λ p. lines_of (drop at.from bytes.now) ≡ p.0.now ∷ lines_of (drop p.1.from bytes.now)) }
    ensures length { IfSome result (λ p. p.1.from ≡ at.from + length p.0.now + 1) }
    ensures number { IfSome result (λ p. p.1.number ≡ at.number + 1) }
    ensures below { IfSome result (λ p. IsBelow bytes.now at p.1) }
{
    let (start, end) = next_line(bytes, at.from)?;
    let below = LineStart {
        from: end + 1,
        number: at.number + 1,
    };
    Some((&bytes[start..end], below))
}

/// The fault that a refusal is, on this line.
pub fn fault_at(number: u32, refusal: Refusal) -> WorkFault
    ensures { result ≡ fault_of number refusal }
{
    match refusal {
        Refusal::Cause(cause) => WorkFault::At {
            line: number,
            cause,
        },
        Refusal::Memory => WorkFault::Memory { line: number },
    }
}
