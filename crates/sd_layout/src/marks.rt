//! At which ticks something changes, as a mark for each tick.

ghost use Rattle.std.specs.Prelude.{◌≡◌, ◌+◌, ◌<◌, ◌^◌, ◌==◌, ◌||◌, ℕ, Bool, false, IfOk};
ghost use Rattle.sd_layout.specs.Folds.{is_change};
ghost use Rattle.sd_layout.specs.Marks.{AreMarks};

use crate::frames::Frame;
use std::alloc::{AllocError, Global};

// So many marks, none of which is set.
fn unmarked(alloc: Global, count: u32) -> Result<Vec<bool>, AllocError>
    ensures { IfOk result (λ marks. AreMarks (λ n. false) marks.items) }
{
    let mut marks = Vec::new(alloc);
    for _ in 0..count {
        marks.push(false)?;
    }
    Ok(marks)
}

// Sets the mark of a tick, if it has one.
fn mark(marks: &mut Vec<bool>, from: u32, tick: u32)
    ensures { (f : ℕ → Bool) → AreMarks f marks.old.items → AreMarks (λ n. f n || (tick == from + n)) marks.new.items }
{
    if tick < from {
        return;
    }
    let n = (tick - from) as usize;
    if n < marks.len() {
        marks[n] = true;
    }
}

/// A mark for each tick of the frame but the last, in order: whether it is among these.
pub(crate) fn marks_of(
    alloc: Global,
    frame: Frame,
    changes: &[u32],
) -> Result<Vec<bool>, AllocError>
    ensures { IfOk result (λ marks. AreMarks (λ n. is_change changes.now (frame.from + n)) marks.items) }
{
    let mut marks = unmarked(alloc, frame.to.saturating_sub(frame.from))?;
    for tick in changes {
        mark(&mut marks, frame.from, *tick);
    }
    Ok(marks)
}

fn is_change(changes: &[u32], tick: u32) -> bool
    ensures { result ≡ is_change changes.now tick }
{
    changes.iter().any(|c| *c == tick)
}

/// Whether tick `n` after the first is among the changes, of which these are the marks.
pub(crate) fn is_marked(marks: &[bool], changes: &[u32], from: u32, n: u32) -> bool
    requires { from + n < 2 ^ 32 }
    ensures { AreMarks (λ k. is_change changes.now (from + k)) marks.now → result ≡ is_change changes.now (from + n) }
{
    match marks.get(n as usize) {
        Some(marked) => *marked,
        None => is_change(changes, from + n),
    }
}
