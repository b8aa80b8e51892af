//! The lines of a text.
ghost use Rattle.std.specs.Prelude.{◌≡◌, ◌+◌, ◌≤◌, ◌<◌, [], ◌∷◌, length, drop, slice_range, slice_index, position, IfSome, IfNone};
ghost use Rattle.std.specs.List.{position_or_len};
ghost use Rattle.sd_text.specs.Lines.{lines_of, is_newline};

/// Where the first line of what stands from `from` on begins and ends. Its newline is at its end, unless the text
/// ends there. The next line is sought from the end plus 1 on.
#[tactic(auto, unfolding(crate::specs::Lines::lines_of))]
pub fn next_line(bytes: &[u8], from: usize) -> Option<(usize, usize)>
    ensures none { IfNone result (lines_of (drop from bytes.now) ≡ []) }
    ensures line { IfSome result (λ at.
        lines_of (drop from bytes.now) ≡ slice_range bytes.now at.0 at.1 ∷ lines_of (drop (at.1 + 1) bytes.now)) }

    // The line begins at `from` and ends at its newline or at the end of the text.
    ensures start { IfSome result (λ at. at.0 ≡ from) }
    ensures within { IfSome result (λ at. (from ≤ at.1) × (at.1 ≤ length bytes.now)) }
    ensures newline { IfSome result (λ at. at.1 < length bytes.now → slice_index bytes.now at.1 ≡ 10) }
{
    if bytes.len() <= from {
        return None;
    }
    let rest = &bytes[from..];
    let len = line_len(rest);
    Some((from, from + len))
}

// How many bytes stand before the first newline.
#[tactic(auto, using(crate::proofs::LineLemmas::index_or_length, crate::proofs::LineLemmas::newline_at))]
fn line_len(bytes: &[u8]) -> usize
    ensures len { result ≡ position_or_len is_newline bytes.now }
    ensures bound { result ≤ length bytes.now }
    ensures newline { result < length bytes.now → slice_index bytes.now result ≡ 10 }
{
    newline_index(bytes).unwrap_or(bytes.len())
}

fn newline_index(bytes: &[u8]) -> Option<usize>
    ensures { result ≡ position is_newline bytes.now }
{
    bytes.iter().position(|byte| *byte == b'\n')
}
