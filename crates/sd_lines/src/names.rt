//! Which words are names, and which are a given word.

ghost use Rattle.std.specs.Prelude.{◌≡◌, IfSome, IfNone, None, Some};
ghost use Rattle.std.specs.List.{list_all};
ghost use Rattle.sd_types.specs.NameWords.{is_letter, is_name_byte, begins_with_letter, is_name};
ghost use Rattle.sd_types.specs.Works.{same_bytes};
ghost use Rattle.sd_lines.specs.Words.{name_of};

use sd_types::{MOST_NAME_BYTES, Name};

/// Whether a word is this one.
pub fn is_word(word: &[u8], keyword: &[u8]) -> bool
    ensures { result ≡ same_bytes word.now keyword.now }
{
    word == keyword
}

fn is_letter(byte: u8) -> bool
    ensures { result ≡ is_letter byte }
{
    byte.is_ascii_lowercase()
}

fn is_name_byte(byte: u8) -> bool
    ensures { result ≡ is_name_byte byte }
{
    is_letter(byte) || byte.is_ascii_digit() || byte == b'_' || byte == b'-'
}

fn begins_with_letter(word: &[u8]) -> bool
    ensures { result ≡ begins_with_letter word.now }
{
    match word {
        [first, ..] => is_letter(*first),
        [] => false,
    }
}

fn are_name_bytes(word: &[u8]) -> bool
    ensures { result ≡ list_all is_name_byte word.now }
{
    word.iter().all(|byte| is_name_byte(*byte))
}

fn is_name(word: &[u8]) -> bool
    ensures { result ≡ is_name word.now }
{
    begins_with_letter(word) && word.len() <= MOST_NAME_BYTES && are_name_bytes(word)
}

/// The name that a word spells.
pub fn name_of(word: &[u8]) -> Option<Name>
    ensures none { IfNone result (name_of word.now ≡ None) }
    ensures some { IfSome result (λ name. name_of word.now ≡ Some name.text.items) }
{
    if is_name(word) {
        Some(Name::from_word(word))
    } else {
        None
    }
}
