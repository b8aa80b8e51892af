//! The states in which waits are open, each with the least tick since which one is: the edges that open waits are taken in the
//! order of their ticks, and behind each the states to which its wait passes and that have no label yet.

ghost use Rattle.std.specs.Prelude.{◌≡◌, ◌+◌, ◌<◌, length, replicate, None, IfOk, OnOk};
ghost use Rattle.sd_longest.specs.Edges.{IsEdge, LeadInside, rows_of};
ghost use Rattle.sd_longest.specs.Labels.{HasLabel, IsLabelling};
ghost use Rattle.sd_longest.specs.Marking.{IsMarking, Keeps, PassesOn, Sets};

use crate::edges::{Edge, Effect, row_of};
use crate::labels::{Label, label_at};
use crate::openings::{Opening, rising_openings};
use std::alloc::{AllocError, Global};

/// Labels so far, and the states that have them in the order in which they came to them: those before `done` have passed
/// their waits on.
#[derive(Drop)]
pub(crate) struct Marking {
    pub labels: Vec<Option<Label>>,
    pub order: Vec<usize>,
    pub done: usize,
}

impl Marking {
    /// State `i` has the label, where it had none.
    fn set(&mut self, i: usize, label: Label) -> Result<(), AllocError>
        requires { i < length self.old.labels.items }
        ensures { OnOk result (Sets self.old self.new i label) }
    {
        match self.labels[i] {
            Some(_) => {}
            None => {
                self.order.push(i)?;
                self.labels[i] = Some(label);
            }
        }
        Ok(())
    }

    /// The state that the edge leads to has the wait of state `i`, where the edge does not end it and the state had none.
    fn pass(&mut self, i: usize, label: Label, edge: Edge) -> Result<(), AllocError>
        requires inside { edge.to < length self.old.labels.items }
        requires few { label.steps < length self.old.order.items }
        ensures { OnOk result (PassesOn self.old self.new i label edge edge.effect) }
    {
        match edge.effect {
            Effect::Ends => Ok(()),
            Effect::Opens | Effect::Passes => self.set(
                edge.to as usize,
                Label {
                    since: label.since,
                    before: i,
                    cpu: edge.cpu,
                    steps: label.steps + 1,
                },
            ),
        }
    }

    /// The first state that has not passed its wait on does so.
    fn expand(&mut self, rows: &[Vec<Edge>], tick: u32) -> Result<(), AllocError>
        requires inside { LeadInside (rows_of rows.now) }
        requires marking { IsMarking (rows_of rows.now) tick self.old }
        requires more { self.old.done < length self.old.order.items }
        ensures marking { OnOk result (IsMarking (rows_of rows.now) tick self.new) }
        ensures kept { OnOk result (Keeps self.old self.new) }
        ensures done { OnOk result (self.new.done ≡ self.old.done + 1) }
    {
        let i = self.order[self.done];
        let label = label_at(&self.labels, i);
        let row = row_of(rows, i);
        for edge in row {
            self.pass(i, label, *edge)?;
        }
        self.done += 1;
        Ok(())
    }

    /// Each state that has not does so, and each that a wait comes to.
    fn expand_all(&mut self, rows: &[Vec<Edge>], tick: u32) -> Result<(), AllocError>
        requires inside { LeadInside (rows_of rows.now) }
        requires marking { IsMarking (rows_of rows.now) tick self.old }
        ensures marking { OnOk result (IsMarking (rows_of rows.now) tick self.new) }
        ensures kept { OnOk result (Keeps self.old self.new) }
        ensures all { OnOk result (self.new.done ≡ length self.new.order.items) }
    {
        'states: while self.done < self.order.len() {
            self.expand(rows, tick)?;
        }
        Ok(())
    }

    /// The wait that the edge opens, in each state that it comes to and that has no label yet.
    fn open(&mut self, rows: &[Vec<Edge>], opening: Opening) -> Result<(), AllocError>
        requires inside { LeadInside (rows_of rows.now) }
        requires marking { IsMarking (rows_of rows.now) opening.edge.tick self.old }
        requires edge { IsEdge (rows_of rows.now) opening.from opening.edge }
        requires opens { opening.edge.effect ≡ Effect.Opens }
        requires all { self.old.done ≡ length self.old.order.items }
        ensures marking { OnOk result (IsMarking (rows_of rows.now) opening.edge.tick self.new) }
        ensures kept { OnOk result (Keeps self.old self.new) }
        ensures all { OnOk result (self.new.done ≡ length self.new.order.items) }
        ensures has { OnOk result (HasLabel self.new.labels.items opening.edge.to opening.edge.tick) }
    {
        let edge = opening.edge;
        self.set(
            edge.to as usize,
            Label {
                since: edge.tick,
                before: opening.from,
                cpu: edge.cpu,
                steps: 0,
            },
        )?;
        self.expand_all(rows, edge.tick)
    }
}

fn no_labels(alloc: Global, states: usize) -> Result<Vec<Option<Label>>, AllocError>
    ensures { IfOk result (λ v. v.items ≡ replicate states None) }
{
    vec![in alloc; None; states]
}

/// No state has a label.
fn unmarked(alloc: Global, rows: &[Vec<Edge>]) -> Result<Marking, AllocError>
    ensures marking { IfOk result (IsMarking (rows_of rows.now) 0) }
    ensures all { IfOk result (λ m. m.done ≡ length m.order.items) }
{
    Ok(Marking {
        labels: no_labels(alloc, rows.len())?,
        order: Vec::new(alloc),
        done: 0,
    })
}

/// Of each state the label with the least tick since which a wait may be open there; None where none may be.
pub(crate) fn labels(alloc: Global, rows: &[Vec<Edge>]) -> Result<Vec<Option<Label>>, AllocError>
    requires { LeadInside (rows_of rows.now) }
    ensures { IfOk result (λ v. IsLabelling (rows_of rows.now) v.items) }
{
    let rising = rising_openings(alloc, rows)?;
    let mut marking = unmarked(alloc, rows)?;
    let openings = rising.as_slice();
    for opening in openings {
        marking.open(rows, *opening)?;
    }
    Ok(marking.labels)
}
