//! Texts written line by line: each line with its newline as one piece.

ghost use Rattle.std.specs.Prelude.{◌≡◌, ◌<◌, ◌≤◌, flat_map, length, slice_range, IsErrOf};
ghost use Rattle.sd_answers.specs.declared.writing.Unwritten.TheVariants.{Fault, Memory};
ghost use Rattle.sd_answers.specs.StreamChanges.{HandsOn, LeavesHeld, Puts};
ghost use Rattle.sd_text.specs.Lines.{EndsLine, IsOneLine};

use arrayvec::ArrayVec;
use sd_text::{Sink, WriteFault, next_line, write_piece};
use std::alloc::AllocError;

/// Why a text was not written whole.
#[derive(Clone, Copy, Debug, PartialEq, Eq)]
pub enum Unwritten {
    /// A write failed.
    Fault,
    /// Memory ran out.
    Memory,
}

impl From<WriteFault> for Unwritten {
    ghost from_gives = { λ _ e. e ≡ Fault };

    fn from(_fault: WriteFault) -> Unwritten {
        Unwritten::Fault
    }
}

impl From<AllocError> for Unwritten {
    ghost from_gives = { λ _ e. e ≡ Memory };

    fn from(_error: AllocError) -> Unwritten {
        Unwritten::Memory
    }
}

/// Writes a line, with its newline, as one piece.
pub fn put_line<K: Sink>(out: &mut K, line: &[u8]) -> Result<(), Unwritten>
    requires { IsOneLine line.now }
    ensures puts { Puts (K.contents out.old) (K.contents out.new) (K.fault_count out.old) (K.fault_count out.new) line.now result }
    ensures no_memory { IsErrOf result Memory → ⊥ }
{
    Ok(write_piece(out, line)?)
}

/// The parts one after another.
fn joined(parts: &[&[u8]]) -> ArrayVec<u8, 128>
    requires { length (flat_map (λ p. p.now) parts.now) ≤ 128 }
    ensures { result.items ≡ flat_map (λ p. p.now) parts.now }
{
    let mut line = ArrayVec::new();
    for part in parts {
        line.try_extend_from_slice(part).unwrap();
    }
    line
}

/// Writes a line that comes in parts. They are put together first, so that it goes out as one piece.
pub(crate) fn put_parts<K: Sink>(out: &mut K, parts: &[&[u8]]) -> Result<(), Unwritten>
    requires one_line { IsOneLine (flat_map (λ p. p.now) parts.now) }
    requires short { length (flat_map (λ p. p.now) parts.now) ≤ 128 }
    ensures puts { Puts (K.contents out.old) (K.contents out.new) (K.fault_count out.old) (K.fault_count out.new)
        (flat_map (λ p. p.now) parts.now) result }
    ensures no_memory { IsErrOf result Memory → ⊥ }
{
    put_line(out, &joined(parts))
}

/// Where the line ends that begins at `from`: behind its newline.
fn line_end(text: &[u8], from: usize) -> usize
    requires inside { from < length text.now }
    requires whole { EndsLine text.now }
    ensures line { IsOneLine (slice_range text.now from result) }
    ensures after { from < result }
    ensures within { result ≤ length text.now }
{
    match next_line(text, from) {
        Some(line) => line.1 + 1,
        None => text.len(),
    }
}

/// Writes a text of whole lines, each line as one piece.
pub fn put_text<K: Sink>(out: &mut K, text: &[u8]) -> Result<(), Unwritten>
    requires { EndsLine text.now }
    ensures puts { Puts (K.contents out.old) (K.contents out.new) (K.fault_count out.old) (K.fault_count out.new) text.now result }
    ensures no_memory { IsErrOf result Memory → ⊥ }
{
    let mut from = 0;
    while from < text.len() {
        let to = line_end(text, from);
        put_line(out, &text[from..to])?;
        from = to;
    }
    Ok(())
}

/// Hands on what a call has written that ended so. A fault of the call stays, and nothing more is tried then.
pub fn hand_on<K: Sink>(out: &mut K, put: Result<(), Unwritten>) -> Result<(), Unwritten>
    ensures { HandsOn put (K.contents out.old) (K.contents out.new) (K.fault_count out.old) (K.fault_count out.new) (K.held_back out.new) result }
{
    if let Err(Unwritten::Fault) = put {
        return Err(Unwritten::Fault);
    }
    match out.flush() {
        Ok(()) => put,
        Err(_) => Err(Unwritten::Fault),
    }
}

/// Writes a line, with its newline, as one piece, and hands it on.
pub fn print_line<K: Sink>(out: &mut K, line: &[u8]) -> Result<(), Unwritten>
    requires { IsOneLine line.now }
    ensures puts { Puts (K.contents out.old) (K.contents out.new) (K.fault_count out.old) (K.fault_count out.new) line.now result }
    ensures no_memory { IsErrOf result Memory → ⊥ }
    ensures leaves { LeavesHeld (K.held_back out.old) (K.held_back out.new) result }
{
    let put = put_line(out, line);
    hand_on(out, put)
}

/// Writes a text of whole lines, each line as one piece, and hands it on.
pub fn print_text<K: Sink>(out: &mut K, text: &[u8]) -> Result<(), Unwritten>
    requires { EndsLine text.now }
    ensures puts { Puts (K.contents out.old) (K.contents out.new) (K.fault_count out.old) (K.fault_count out.new) text.now result }
    ensures no_memory { IsErrOf result Memory → ⊥ }
    ensures leaves { LeavesHeld (K.held_back out.old) (K.held_back out.new) result }
{
    let put = put_text(out, text);
    hand_on(out, put)
}
