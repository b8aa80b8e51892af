//! The longest wait, and the walk along which it comes.

ghost use Rattle.std.specs.Prelude.{◌≡◌, ◌+◌, ◌<◌, length, IfOk};
ghost use Rattle.sd_longest.specs.Candidates.{IsBest, IsBestBelow, IsBestOf, IsBestWith, IsCandidate};
ghost use Rattle.sd_longest.specs.Edges.{IsFound, IsLongest, LeadInside, rows_of};
ghost use Rattle.sd_longest.specs.Labels.{IsLabelled, IsLabelling};

use crate::edges::{Edge, Effect, row_of};
use crate::labels::{Label, label_at};
use crate::marking::labels;
use sd_types::CpuId;
use std::alloc::{AllocError, Global};

/// A wait of so many ticks: from the state the turns of these processors, one after another, lead along it. The first opens it,
/// and the last ends it.
#[derive(Drop)]
pub struct Wait {
    pub ticks: u32,
    pub from: usize,
    pub cpus: Vec<CpuId>,
}

/// The end of a wait of so many ticks: the turn of the processor in the state.
#[derive(Clone, Copy)]
pub(crate) struct Candidate {
    pub ticks: u32,
    pub state: usize,
    pub cpu: CpuId,
}

/// The new one, where it is longer than the best so far.
fn longer(best: Option<Candidate>, new: Candidate) -> Option<Candidate>
    ensures { IsBest best new result }
{
    match best {
        Some(old) => {
            if old.ticks < new.ticks {
                Some(new)
            } else {
                best
            }
        }
        None => Some(new),
    }
}

/// The best with the wait of state `i` that the edge ends, where it does.
fn look(best: Option<Candidate>, i: usize, label: Label, edge: Edge) -> Option<Candidate>
    ensures { IsBestWith best i label edge edge.effect result }
{
    match edge.effect {
        Effect::Ends => longer(
            best,
            Candidate {
                ticks: edge.tick.saturating_sub(label.since),
                state: i,
                cpu: edge.cpu,
            },
        ),
        Effect::Opens | Effect::Passes => best,
    }
}

/// The best with those of the edges from state `i`.
fn look_along(
    rows: &[Vec<Edge>],
    labels: &[Option<Label>],
    i: usize,
    label: Label,
    so_far: Option<Candidate>,
) -> Option<Candidate>
    requires inside { i < length (rows_of rows.now) }
    requires labelled { IsLabelled labels.now i label }
    requires best { IsBestBelow (rows_of rows.now) labels.now i so_far }
    ensures { IsBestBelow (rows_of rows.now) labels.now (i + 1) result }
{
    let mut best = so_far;
    let row = row_of(rows, i);
    for edge in row {
        best = look(best, i, label, *edge);
    }
    best
}

/// The best with those of the edges from state `i`, where a wait may be open there.
fn look_from(
    rows: &[Vec<Edge>],
    labels: &[Option<Label>],
    i: usize,
    so_far: Option<Candidate>,
) -> Option<Candidate>
    requires inside { i < length (rows_of rows.now) }
    requires many { length labels.now ≡ length (rows_of rows.now) }
    requires best { IsBestBelow (rows_of rows.now) labels.now i so_far }
    ensures { IsBestBelow (rows_of rows.now) labels.now (i + 1) result }
{
    match labels[i] {
        Some(label) => look_along(rows, labels, i, label, so_far),
        None => so_far,
    }
}

/// The end of the longest wait.
fn best_of(rows: &[Vec<Edge>], labels: &[Option<Label>]) -> Option<Candidate>
    requires { length labels.now ≡ length (rows_of rows.now) }
    ensures { IsBestOf (rows_of rows.now) labels.now result }
{
    let mut best = None;
    for i in 0..rows.len() {
        best = look_from(rows, labels, i, best);
    }
    best
}

/// The wait that ends there, back to the edge that opened it.
fn wait_to(
    alloc: Global,
    rows: &[Vec<Edge>],
    labels: &[Option<Label>],
    end: Candidate,
) -> Result<Wait, AllocError>
    requires labelling { IsLabelling (rows_of rows.now) labels.now }
    requires candidate { IsCandidate (rows_of rows.now) labels.now end }
    ensures found { IfOk result (IsFound (rows_of rows.now)) }
    ensures ticks { IfOk result (λ w. w.ticks ≡ end.ticks) }
{
    let mut cpus = Vec::new(alloc);
    cpus.push(end.cpu)?;
    let mut label = label_at(labels, end.state);
    while label.steps > 0 {
        cpus.push(label.cpu)?;
        label = label_at(labels, label.before);
    }
    cpus.push(label.cpu)?;
    cpus.reverse();
    Ok(Wait {
        ticks: end.ticks,
        from: label.before,
        cpus,
    })
}

/// The longest wait along the walks of the graph, None where none ends. The time is that of going over the edges three times, and
/// of sorting those that open waits.
pub fn longest_wait(alloc: Global, rows: &[Vec<Edge>]) -> Result<Option<Wait>, AllocError>
    requires { LeadInside (rows_of rows.now) }
    ensures { IfOk result (IsLongest (rows_of rows.now)) }
{
    let labels = labels(alloc, rows)?;
    match best_of(rows, &labels) {
        Some(end) => {
            let wait = wait_to(alloc, rows, &labels, end)?;
            Ok(Some(wait))
        }
        None => Ok(None),
    }
}
