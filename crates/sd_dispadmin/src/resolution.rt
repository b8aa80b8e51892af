//! The line of a table file that gives RES.

ghost use Rattle.std.specs.Prelude.{◌≡◌, ℕ, true, false, List, [], ◌∷◌, Some, None, if◌then◌else◌, option_and_then};
ghost use Rattle.sd_text.specs.Numbers.{number_of};
ghost use Rattle.sd_text.specs.Words.{words_of};
ghost use Rattle.sd_dispadmin.specs.TableText.{is_res_word, is_unit, res_of_word};
ghost use Rattle.sd_dispadmin.specs.Kinds.{IsKind};

use sd_text::{next_word, number};
use sd_types::GREATEST_RESOLUTION;

/// What a line of a table file is, by its first word.
#[derive(Clone, Copy)]
pub enum Kind {
    /// No word stands on it.
    Blank,
    /// Its first word begins with `RES=`. The number is there where the line gives a RES.
    Resolution(Option<u64>),
    Row,
}

#[tactic(auto, unfolding(crate::specs::TableText::is_res_word))]
fn is_res_word(word: &[u8]) -> bool
    ensures { result ≡ is_res_word word.now }
{
    matches!(word, [b'R', b'E', b'S', b'=', ..])
}

// Whether a number is in the range of RES.
fn is_unit(n: u64) -> bool
    ensures { result ≡ is_unit n }
{
    1 <= n && n <= GREATEST_RESOLUTION
}

// The RES that a word gives.
#[tactic(auto, unfolding(crate::specs::TableText::is_res_word))]
fn res_of_word(word: &[u8]) -> Option<u64>
    ensures { result ≡ res_of_word word.now }
{
    match word {
        [b'R', b'E', b'S', b'=', digits @ ..] => unit(digits),
        _ => None,
    }
}

// A number in the range of RES.
fn unit(digits: &[u8]) -> Option<u64>
    ensures { result ≡ option_and_then (λ n. if is_unit n then Some n else None) (number_of digits.now) }
{
    let n = number(digits)?;
    if is_unit(n) { Some(n) } else { None }
}

// What a line is that begins with a word, which may stand alone there.
fn kind_by_word(word: &[u8], is_alone: bool) -> Kind
    ensures alone { is_alone ≡ true → IsKind result (word.now ∷ []) }
    ensures followed { is_alone ≡ false → (other : List ℕ) (words : List (List ℕ)) → IsKind result (word.now ∷ other ∷ words) }
{
    if !is_res_word(word) {
        Kind::Row
    } else if is_alone {
        Kind::Resolution(res_of_word(word))
    } else {
        Kind::Resolution(None)
    }
}

/// What a line is.
pub fn kind_of(line: &[u8]) -> Kind
    ensures { IsKind result (words_of line.now) }
{
    match next_word(line, 0) {
        None => Kind::Blank,
        Some((start, end)) => match next_word(line, end) {
            None => kind_by_word(&line[start..end], true),
            Some(_) => kind_by_word(&line[start..end], false),
        },
    }
}
