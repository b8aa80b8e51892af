//! What a search has gathered: packed states, and how each was reached.

ghost use Rattle.std.specs.Prelude.{◌≡◌, ◌<◌, ℕ, length, IfOk, OnOk};
ghost use Rattle.sd_search.specs.Spelled.{IsSpelled, IsTurn};
ghost use Rattle.sd_state.specs.declared.states.State.{State as StateOf};
ghost use Rattle.sd_search.specs.Graphs.{Gathers, IsAt, IsDeep, packed, steps_of};

use crate::packing::unpack;
use indexmap::IndexSet;
use sd_state::State;
use sd_types::{CpuId, Work};
use std::alloc::{AllocError, Global};

/// How a state was reached: from the state with a smaller number, by the turn of a processor.
#[derive(Clone, Copy)]
pub struct Step {
    pub before: u32,
    pub cpu: CpuId,
}

/// States that some orders of the processors of a workload lead to, each once up to the order of keys.
#[derive(Drop)]
pub struct Graph {
    pub(crate) states: IndexSet<Vec<u8>>,
    pub(crate) steps: Vec<Step>,
    pub(crate) done: usize,
}

impl Graph {
    /// How many states were found.
    pub fn len(&self) -> usize
        ensures { result ≡ length (packed self.now) }
    {
        self.states.len()
    }

    /// State number `i`.
    pub fn state(&self, alloc: Global, work: &Work, i: usize) -> Result<State, AllocError>
        requires gathered { Gathers work.now self.now }
        requires inside { i < length (packed self.now) }
        ensures { IfOk result (IsAt (packed self.now) i) }
    {
        unpack(alloc, &self.states.as_slice()[i])
    }

    /// The processors whose turns, one after another, lead from the initial state to state number `i`.
    pub fn path(&self, alloc: Global, work: &Work, i: usize) -> Result<Vec<CpuId>, AllocError>
        requires gathered { Gathers work.now self.now }
        requires inside { i < length (packed self.now) }
        ensures spelled { IfOk result (λ cpus. (x : StateOf) → IsAt (packed self.now) i x → IsSpelled work.now cpus.items x) }
        ensures deep { IfOk result (λ cpus. IsDeep (steps_of self.now) i (length cpus.items)) }
    {
        let mut cpus = Vec::new(alloc);
        let mut at = i;
        while at > 0 {
            let step = self.steps[at];
            cpus.push(step.cpu)?;
            at = step.before as usize;
        }
        cpus.reverse();
        Ok(cpus)
    }
}
