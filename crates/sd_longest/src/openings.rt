//! The edges that open waits, in the order of their ticks.

ghost use Rattle.std.specs.Prelude.{◌≡◌, ◌+◌, ◌<◌, length, IfOk, OnOk};
ghost use Rattle.std.specs.List.Sorted.{IsNonDecreasingBy};
ghost use Rattle.sd_longest.specs.Edges.{rows_of};
ghost use Rattle.sd_longest.specs.Openings.{AreOpenings, AreOpeningsBelow, HasMore};

use crate::edges::{Edge, Effect, row_of};
use std::alloc::{AllocError, Global};

/// An edge that opens a wait, and the state that it leads from.
#[derive(Clone, Copy)]
pub(crate) struct Opening {
    pub from: usize,
    pub edge: Edge,
}

/// The edge goes behind those so far, where it opens a wait.
fn note(found: &mut Vec<Opening>, from: usize, edge: Edge) -> Result<(), AllocError>
    ensures { OnOk result (HasMore found.old.items found.new.items from edge edge.effect) }
{
    match edge.effect {
        Effect::Opens => found.push(Opening { from, edge })?,
        Effect::Ends | Effect::Passes => {}
    }
    Ok(())
}

/// Those from state `from` go behind those so far.
fn note_all(found: &mut Vec<Opening>, rows: &[Vec<Edge>], from: usize) -> Result<(), AllocError>
    requires inside { from < length (rows_of rows.now) }
    requires before { AreOpeningsBelow (rows_of rows.now) from found.old.items }
    ensures { OnOk result (AreOpeningsBelow (rows_of rows.now) (from + 1) found.new.items) }
{
    let row = row_of(rows, from);
    for edge in row {
        note(found, from, *edge)?;
    }
    Ok(())
}

/// All of them, in no order that is told.
fn openings(alloc: Global, rows: &[Vec<Edge>]) -> Result<Vec<Opening>, AllocError>
    ensures { IfOk result (λ found. AreOpenings (rows_of rows.now) found.items) }
{
    let mut found = Vec::new(alloc);
    for i in 0..rows.len() {
        note_all(&mut found, rows, i)?;
    }
    Ok(found)
}

/// All of them, those with the least tick first.
pub(crate) fn rising_openings(alloc: Global, rows: &[Vec<Edge>]) -> Result<Vec<Opening>, AllocError>
    ensures all { IfOk result (λ found. AreOpenings (rows_of rows.now) found.items) }
    ensures rising { IfOk result (λ found. IsNonDecreasingBy (λ o. o.edge.tick) found.items) }
{
    let mut found = openings(alloc, rows)?;
    found.sort_by_key(|opening| opening.edge.tick)?;
    Ok(found)
}
