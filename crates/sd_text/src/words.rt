//! The words of a line.
ghost use Rattle.std.specs.Prelude.{◌≡◌, ◌≤◌, ◌<◌, [], ◌∷◌, length, drop, slice_range, position, IfSome, IfNone};
ghost use Rattle.std.specs.List.{position_or_len};
ghost use Rattle.sd_text.specs.Words.{words_of, is_blank, is_other, ends_word};

/// Where the first word of what stands from `from` on begins and ends: `from` is the line's start, or the end of
/// the word before. The next word is sought from the end on.
#[tactic(auto, unfolding(crate::specs::Words::words_of))]
pub fn next_word(line: &[u8], from: usize) -> Option<(usize, usize)>
    ensures none { IfNone result (words_of (drop from line.now) ≡ []) }
    ensures word { IfSome result (λ at.
        words_of (drop from line.now) ≡ slice_range line.now at.0 at.1 ∷ words_of (drop at.1 line.now)) }
    ensures within { IfSome result (λ at. (from ≤ at.0) × (at.0 < at.1) × (at.1 ≤ length line.now)) }
{
    if line.len() <= from {
        return None;
    }
    let start = from + blank_len(&line[from..]);
    let end = start + word_len(&line[start..]);
    if start < end {
        Some((start, end))
    } else {
        None
    }
}

fn is_blank(byte: u8) -> bool
    ensures { result ≡ is_blank byte }
{
    byte == b' ' || byte == b'\t' || byte == b'\r'
}

fn ends_word(byte: u8) -> bool
    ensures { result ≡ ends_word byte }
{
    is_blank(byte) || byte == b'#'
}

// How many blanks the bytes begin with.
#[tactic(auto, using(crate::proofs::LineLemmas::index_or_length))]
fn blank_len(bytes: &[u8]) -> usize
    ensures len { result ≡ position_or_len is_other bytes.now }
    ensures bound { result ≤ length bytes.now }
{
    other_index(bytes).unwrap_or(bytes.len())
}

fn other_index(bytes: &[u8]) -> Option<usize>
    ensures { result ≡ position is_other bytes.now }
{
    bytes.iter().position(|byte| !is_blank(*byte))
}

// How many bytes stand before a blank or a comment.
#[tactic(auto, using(crate::proofs::LineLemmas::index_or_length))]
fn word_len(bytes: &[u8]) -> usize
    ensures len { result ≡ position_or_len ends_word bytes.now }
    ensures bound { result ≤ length bytes.now }
{
    word_end(bytes).unwrap_or(bytes.len())
}

fn word_end(bytes: &[u8]) -> Option<usize>
    ensures { result ≡ position ends_word bytes.now }
{
    bytes.iter().position(|byte| ends_word(*byte))
}
