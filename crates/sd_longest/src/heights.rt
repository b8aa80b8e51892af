//! The heights of the states of a graph: how many edges follow one another from each at most.

ghost use Rattle.std.specs.Prelude.{◌≡◌, ◌+◌, ◌<◌, ◌≤◌, ◌⊎◌, ℕ, List, Some, length, slice_get, slice_index, IsTrue, IfOk, IfSome};
ghost use Rattle.sd_longest.specs.Heights.{AreHeights, AreReached, AreUntold, IsHeight, LeadBelow};
ghost use Rattle.sd_longest.specs.declared.edges.Edge.{Edge as EdgeOf};
ghost use Rattle.sd_longest.specs.Edges.{LeadInside, rows_of};

use crate::Edge;
use crate::edges::row_of;
use std::alloc::{AllocError, Global};

/// The most rounds in which heights rise (this project's own): memory is taken to run out there.
const MOST_ROUNDS: u64 = 1 << 40;

/// One more than the height of the next state, where that is more than so far.
fn higher(so_far: u64, next: u32) -> u64
    ensures least { so_far ≤ result }
    ensures over { next + 1 ≤ result }
    ensures one { (result ≡ so_far) ⊎ (result ≡ next + 1) }
{
    let height = u64::from(next) + 1;
    if so_far < height { height } else { so_far }
}

/// The height of a state with these edges, by the heights of the states that they lead to.
fn height_along(row: &[Edge], heights: &[u32]) -> u64
    requires { LeadBelow row.now (length heights.now) }
    ensures { IsHeight heights.now row.now result }
{
    let mut height = 0;
    for edge in row {
        height = higher(height, heights[edge.to as usize]);
    }
    height
}

/// The height of state `i`, by the heights of the next states.
fn height_at(rows: &[Vec<Edge>], i: usize, heights: &[u32]) -> u64
    requires lead { LeadInside (rows_of rows.now) }
    requires many { length heights.now ≡ length rows.now }
    requires inside { i < length rows.now }
    ensures { (row : List EdgeOf) → slice_get (rows_of rows.now) i ≡ Some row → IsHeight heights.now row result }
{
    height_along(row_of(rows, i), heights)
}

fn narrow(height: u64) -> u32
    ensures { result ≤ height }
{
    if height < 4_294_967_295 {
        height as u32
    } else {
        u32::MAX
    }
}

/// Each state gets the height that the next states give it, from the last on.
fn refresh(rows: &[Vec<Edge>], heights: &mut [u32])
    requires lead { LeadInside (rows_of rows.now) }
    requires reached { AreReached (rows_of rows.now) heights.old }
    ensures { AreReached (rows_of rows.now) heights.new }
{
    for i in (0..rows.len()).rev() {
        heights[i] = narrow(height_at(rows, i, heights));
    }
}

/// Each state has the height that the next states give it.
fn is_stable(rows: &[Vec<Edge>], heights: &[u32]) -> bool
    requires lead { LeadInside (rows_of rows.now) }
    requires many { length heights.now ≡ length rows.now }
    ensures { IsTrue result → AreHeights (rows_of rows.now) heights.now }
{
    for i in 0..rows.len() {
        if height_at(rows, i, heights) != u64::from(heights[i]) {
            return false;
        }
    }
    true
}

fn lowest(alloc: Global, states: usize) -> Result<Vec<u32>, AllocError>
    ensures many { IfOk result (λ heights. length heights.items ≡ states) }
    ensures lowest { IfOk result (λ heights. (i : ℕ) → i < states → slice_index heights.items i ≡ 0) }
{
    vec![in alloc; 0; states]
}

/// The first state has the greatest height that can be told, or as many edges follow one another from it as there are states:
/// along a circle heights rise without end.
fn is_too_high(heights: &[u32]) -> bool
    ensures high { IsTrue result → (4294967295 ≤ slice_index heights.now 0) ⊎ (length heights.now ≤ slice_index heights.now 0) }
    ensures some { IsTrue result → 0 < length heights.now }
{
    match heights.first() {
        Some(&height) => height == u32::MAX || heights.len() <= height as usize,
        None => false,
    }
}

/// The heights of all states; None where that of the first is too great to be told, or edges lead in a circle.
pub(crate) fn heights(alloc: Global, rows: &[Vec<Edge>]) -> Result<Option<Vec<u32>>, AllocError>
    requires { LeadInside (rows_of rows.now) }
    ensures heights { IfOk result (λ o. IfSome o (λ heights. AreHeights (rows_of rows.now) heights.items)) }
    ensures untold { IfOk result (AreUntold (rows_of rows.now)) }
{
    let mut heights = lowest(alloc, rows.len())?;
    for _ in 0..MOST_ROUNDS {
        refresh(rows, &mut heights);
        if is_stable(rows, &heights) {
            return Ok(Some(heights));
        }
        if is_too_high(&heights) {
            return Ok(None);
        }
    }
    Err(AllocError)
}
