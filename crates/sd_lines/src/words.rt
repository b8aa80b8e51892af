//! The words of a line, from the left to the right. What is left of a line is its bytes from a word's end on.

ghost use Rattle.std.specs.Prelude.{◌≡◌, [], ◌∷◌, ◌<◌, length, IfSome, IfNone, IfOk, None, Some, option_map};
ghost use Rattle.sd_types.specs.Works.{same_bytes};
ghost use Rattle.sd_text.specs.Words.{words_of};
ghost use Rattle.sd_text.specs.Numbers.{number_of, signed_of};
ghost use Rattle.sd_lines.specs.Words.{name_of, quantum_of, first, only_word, only, behind, is_done, all_numbers, is_end};

use crate::names::{is_word, name_of};
use sd_text::{next_word, number, signed};
use sd_types::Name;
use std::alloc::{AllocError, Global};

/// A quantum as a line gives it: that of the dispatch table, no end, or ticks, whose range is not looked at.
#[derive(Clone, Copy)]
pub enum QuantumWord {
    Def,
    Inf,
    Ticks(u64),
}

/// The first word, and what is left behind it.
pub fn first_word(rest: &[u8]) -> Option<(&[u8], &[u8])>
    ensures none { IfNone result (words_of rest.now ≡ []) }
    ensures some { IfSome result (λ p. words_of rest.now ≡ p.0.now ∷ words_of p.1.now) }
{
    let (start, end) = next_word(rest, 0)?;
    Some((&rest[start..end], &rest[end..]))
}

/// Whether no word is left.
pub fn is_done(rest: &[u8]) -> bool
    ensures { result ≡ is_done (words_of rest.now) }
{
    first_word(rest).is_none()
}

/// The word that stands alone.
#[tactic(auto, unfolding(crate::specs::Words::only_word))]
pub fn only_word(rest: &[u8]) -> Option<&[u8]>
    ensures none { IfNone result (only_word (words_of rest.now) ≡ None) }
    ensures some { IfSome result (λ word. only_word (words_of rest.now) ≡ Some word.now) }
{
    let (word, rest) = first_word(rest)?;
    match first_word(rest) {
        None => Some(word),
        Some(_) => None,
    }
}

/// What is left behind this first word.
#[tactic(auto, unfolding(crate::specs::Words::behind))]
pub fn behind<'a>(keyword: &[u8], rest: &'a [u8]) -> Option<&'a [u8]>
    ensures none { IfNone result (behind keyword.now (words_of rest.now) ≡ None) }
    ensures some { IfSome result (λ left. behind keyword.now (words_of rest.now) ≡ Some (words_of left.now)) }
{
    let (word, left) = first_word(rest)?;
    if is_word(word, keyword) {
        Some(left)
    } else {
        None
    }
}

/// The name that the first word is, and what is left.
#[tactic(auto, unfolding(crate::specs::Words::first))]
pub fn first_name(rest: &[u8]) -> Option<(Name, &[u8])>
    ensures none { IfNone result (first name_of (words_of rest.now) ≡ None) }
    ensures some { IfSome result (λ p. first name_of (words_of rest.now) ≡ Some (p.0.text.items, words_of p.1.now)) }
{
    let (word, left) = first_word(rest)?;
    let name = name_of(word)?;
    Some((name, left))
}

/// The name that stands alone.
pub fn only_name(rest: &[u8]) -> Option<Name>
    ensures none { IfNone result (only name_of (words_of rest.now) ≡ None) }
    ensures some { IfSome result (λ name. only name_of (words_of rest.now) ≡ Some name.text.items) }
{
    let word = only_word(rest)?;
    name_of(word)
}

/// The number that the first word is, and what is left.
#[tactic(auto, unfolding(crate::specs::Words::first))]
pub fn first_number(rest: &[u8]) -> Option<(u64, &[u8])>
    ensures none { IfNone result (first number_of (words_of rest.now) ≡ None) }
    ensures some { IfSome result (λ p. first number_of (words_of rest.now) ≡ Some (p.0, words_of p.1.now)) }
{
    let (word, left) = first_word(rest)?;
    let n = number(word)?;
    Some((n, left))
}

/// The number that stands alone.
pub fn only_number(rest: &[u8]) -> Option<u64>
    ensures { result ≡ only number_of (words_of rest.now) }
{
    let word = only_word(rest)?;
    number(word)
}

/// The signed number that the first word is, and what is left.
#[tactic(auto, unfolding(crate::specs::Words::first))]
pub fn first_signed(rest: &[u8]) -> Option<(i64, &[u8])>
    ensures none { IfNone result (first signed_of (words_of rest.now) ≡ None) }
    ensures some { IfSome result (λ p. first signed_of (words_of rest.now) ≡ Some (p.0, words_of p.1.now)) }
{
    let (word, left) = first_word(rest)?;
    let z = signed(word)?;
    Some((z, left))
}

/// The signed number that stands alone.
pub fn only_signed(rest: &[u8]) -> Option<i64>
    ensures { result ≡ only signed_of (words_of rest.now) }
{
    let word = only_word(rest)?;
    signed(word)
}

/// The quantum that a word is.
#[tactic(auto, unfolding(crate::specs::Words::quantum_of))]
pub fn quantum_of(word: &[u8]) -> Option<QuantumWord>
    ensures { result ≡ quantum_of word.now }
{
    if is_word(word, b"def") {
        Some(QuantumWord::Def)
    } else if is_word(word, b"inf") {
        Some(QuantumWord::Inf)
    } else {
        let ticks = number(word)?;
        Some(QuantumWord::Ticks(ticks))
    }
}

/// The quantum that the first word is, and what is left.
#[tactic(auto, unfolding(crate::specs::Words::first))]
pub fn first_quantum(rest: &[u8]) -> Option<(QuantumWord, &[u8])>
    ensures none { IfNone result (first quantum_of (words_of rest.now) ≡ None) }
    ensures some { IfSome result (λ p. first quantum_of (words_of rest.now) ≡ Some (p.0, words_of p.1.now)) }
{
    let (word, left) = first_word(rest)?;
    let quantum = quantum_of(word)?;
    Some((quantum, left))
}

/// The quantum that stands alone.
pub fn only_quantum(rest: &[u8]) -> Option<QuantumWord>
    ensures { result ≡ only quantum_of (words_of rest.now) }
{
    let word = only_word(rest)?;
    quantum_of(word)
}

/// Numbers, to the end of the line.
#[tactic(auto, unfolding(crate::specs::Words::all_numbers))]
pub fn all_numbers(alloc: Global, rest: &[u8]) -> Result<Option<Vec<u64>>, AllocError>
    ensures { IfOk result (λ found. option_map (λ v. v.items) found ≡ all_numbers (words_of rest.now)) }
{
    let mut found = Vec::new(alloc);
    let mut from = 0;
    while let Some((start, end)) = next_word(rest, from) {
        let Some(n) = number(&rest[start..end]) else {
            return Ok(None);
        };
        found.push(n)?;
        from = end;
    }
    Ok(Some(found))
}

/// Whether a line with this first word, behind which this is left, closes a block: whether it is the word `end` alone.
#[tactic(auto, using(crate::proofs::WordLemmas::end_word))]
pub fn is_end(word: &[u8], rest: &[u8]) -> bool
    ensures { result ≡ is_end (word.now ∷ words_of rest.now) }
{
    is_word(word, b"end") && is_done(rest)
}

/// Whether the line closes a block.
#[tactic(auto, unfolding(crate::specs::Words::only_word))]
pub fn is_end_line(line: &[u8]) -> bool
    ensures { result ≡ is_end (words_of line.now) }
{
    match first_word(line) {
        Some((word, rest)) => is_end(word, rest),
        None => false,
    }
}
