//! Lines as they are written, each with the line of the set from which it comes.

ghost use Rattle.std.specs.Prelude.{◌≡◌, ◌++◌, ◌∷◌, [], OnOk, IfOk, drop, take};
ghost use Rattle.sd_text.specs.Words.{words_of};
ghost use Rattle.sd_tasks.specs.Written.{again, joined, spaced, text_of, written};
ghost use Rattle.sd_tasks.specs.WrittenKept.{lines_kept};

use sd_lines::first_word;
use sd_text::next_word;
use std::alloc::{AllocError, Global};

/// A line without its newline, and the line of the set from which it comes, from 1.
#[derive(Drop)]
pub struct WrittenLine {
    pub text: Vec<u8>,
    pub line: u32,
}

/// Appends the words of what is left of a line, with a blank before each.
pub(crate) fn put_spaced(text: &mut Vec<u8>, rest: &[u8]) -> Result<(), AllocError>
    ensures { OnOk result (text.new.items ≡ text.old.items ++ spaced (words_of rest.now)) }
{
    let mut from = 0;
    while let Some((start, end)) = next_word(rest, from) {
        text.push(b' ')?;
        text.extend_from_slice(&rest[start..end])?;
        from = end;
    }
    Ok(())
}

/// The words of a line with single blanks between them.
pub(crate) fn joined(alloc: Global, word: &[u8], rest: &[u8]) -> Result<Vec<u8>, AllocError>
    ensures { IfOk result (λ text. text.items ≡ joined (word.now ∷ words_of rest.now)) }
{
    let mut text = Vec::from_slice(alloc, word)?;
    put_spaced(&mut text, rest)?;
    Ok(text)
}

/// One more line.
pub fn push_line(lines: &mut Vec<WrittenLine>, text: Vec<u8>, line: u32) -> Result<(), AllocError>
    ensures { OnOk result (lines_kept lines.new.items ≡ lines_kept lines.old.items ++ written text.items line ∷ []) }
{
    lines.push(WrittenLine { text, line })?;
    Ok(())
}

/// One more line, of two parts.
pub fn push_parts(
    alloc: Global,
    lines: &mut Vec<WrittenLine>,
    first: &[u8],
    second: &[u8],
    line: u32,
) -> Result<(), AllocError>
    ensures { OnOk result (lines_kept lines.new.items ≡ lines_kept lines.old.items ++ written (first.now ++ second.now) line ∷ []) }
{
    let mut text = Vec::from_slice(alloc, first)?;
    text.extend_from_slice(second)?;
    push_line(lines, text, line)
}

/// Appends copies of lines.
pub fn put_all(
    alloc: Global,
    out: &mut Vec<WrittenLine>,
    lines: &[WrittenLine],
) -> Result<(), AllocError>
    ensures { OnOk result (lines_kept out.new.items ≡ lines_kept out.old.items ++ lines_kept lines.now) }
{
    for line in lines {
        let text = Vec::from_slice(alloc, &line.text)?;
        push_line(out, text, line.line)?;
    }
    Ok(())
}

/// Appends copies of lines, so many times.
pub(crate) fn put_again(
    alloc: Global,
    out: &mut Vec<WrittenLine>,
    lines: &[WrittenLine],
    times: u64,
) -> Result<(), AllocError>
    ensures { OnOk result (lines_kept out.new.items ≡ lines_kept out.old.items ++ again times (lines_kept lines.now)) }
{
    for k in 0..times {
        put_all(alloc, out, lines)?;
    }
    Ok(())
}

/// The lines from a place on, none past the last.
#[tactic(auto, using(crate::proofs::Loops::kept_rest))]
pub fn lines_behind(lines: &[WrittenLine], from: usize) -> &[WrittenLine]
    ensures { lines_kept result.now ≡ drop from (lines_kept lines.now) }
{
    if lines.len() <= from {
        return &[];
    }
    &lines[from..]
}

/// The first lines, so many or all.
#[tactic(auto, using(crate::proofs::Loops::kept_front))]
pub fn lines_front(lines: &[WrittenLine], count: usize) -> &[WrittenLine]
    ensures { lines_kept result.now ≡ take count (lines_kept lines.now) }
{
    if lines.len() <= count {
        return lines;
    }
    &lines[..count]
}

/// The text of lines, each with its newline.
pub fn lines_text(alloc: Global, lines: &[WrittenLine]) -> Result<Vec<u8>, AllocError>
    ensures { IfOk result (λ text. text.items ≡ text_of (lines_kept lines.now)) }
{
    let mut text = Vec::new(alloc);
    for line in lines {
        text.extend_from_slice(&line.text)?;
        text.push(b'\n')?;
    }
    Ok(text)
}
