//! Where two texts differ first.

ghost use Rattle.std.specs.Prelude.{◌≡◌, ◌≤◌, IfSome, IfNone, length};
ghost use Rattle.sd_audit.specs.Audits.{common_lines, whole_lines};
ghost use Rattle.sd_audit.specs.Differences.{newlines_before};

// How many newlines stand before the first byte in which the texts differ.
fn newlines_before(text: &[u8], other: &[u8]) -> usize
    ensures value { result ≡ newlines_before text.now other.now }
    ensures bound { result ≤ length text.now }
{
    let mut newlines = 0;
    let mut i = 0;
    while i < text.len() && i < other.len() && text[i] == other[i] {
        if text[i] == b'\n' {
            newlines += 1;
        }
        i += 1;
    }
    newlines
}

/// How many lines the texts have in common before the first in which they differ, where they do.
pub fn first_difference(text: &[u8], other: &[u8]) -> Option<usize>
    ensures none { IfNone result (text.now ≡ other.now) }
    ensures some { IfSome result (λ n. (n ≡ common_lines (whole_lines text.now) (whole_lines other.now)) × (text.now ≡ other.now → ⊥)) }
    ensures bound { IfSome result (λ n. n ≤ length text.now) }
{
    if text == other {
        None
    } else {
        Some(newlines_before(text, other))
    }
}
