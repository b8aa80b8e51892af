//! The answer to a question, with the run that shows it.

ghost use Rattle.std.specs.Prelude.{◌≡◌, ◌<◌, List, length, IfOk};
ghost use Rattle.sd_machine.specs.Runs.{round};
ghost use Rattle.sd_search.specs.Spelled.{IsSpelled};
ghost use Rattle.sd_state.specs.Opening.{opening};
ghost use Rattle.sd_state.specs.declared.states.State.{State as StateOf};
ghost use Rattle.sd_types.specs.declared.numbers.CpuId.{CpuId as CpuIdOf};
ghost use Rattle.sd_search.specs.Finals.{AreFinals};
ghost use Rattle.sd_search.specs.Findings.{IsFair, IsFinding, IsShortest};
ghost use Rattle.sd_search.specs.Graphs.{Gathers, IsAt, IsDeep, packed, steps_of};

use crate::graph::Graph;
use crate::questions::{Answer, Question};
use crate::witnesses::witness;
use sd_types::{Entry, Work};
use std::alloc::{AllocError, Global};

/// What a search finds: a run that ends as was asked for, or that there is none, or nothing.
#[derive(Drop)]
pub enum Finding {
    /// A run that ends so: its entries.
    Found { entries: Vec<Entry> },

    /// No run ends so in which each processor reads the numbers of the state, in whatever order the processors act.
    Never,

    /// Not all states were reached, and no state that was is as was asked for.
    More,
}

impl Graph {
    /// The run that leads to state number `i`.
    fn run_to(&self, alloc: Global, work: &Work, i: usize) -> Result<Vec<Entry>, AllocError>
        requires gathered { Gathers work.now self.now }
        requires inside { i < length (packed self.now) }
        ensures spelled { IfOk result (λ entries. (x : StateOf) → IsAt (packed self.now) i x → (cs : List CpuIdOf) × IsSpelled work.now cs x × (entries.items ≡ round work.now (opening work.now) 0 cs)) }
        ensures deep { IfOk result (λ entries. IsDeep (steps_of self.now) i (length entries.items)) }
    {
        let path = self.path(alloc, work, i)?;
        witness(alloc, work, &path)
    }

    /// The answer to a question by the numbers of the states in which runs end, with the entries of a run that ends so, where
    /// one does: as few as any such run has.
    pub fn finding(
        &self,
        alloc: Global,
        work: &Work,
        finals: &[usize],
        question: Question,
    ) -> Result<Finding, AllocError>
        requires gathered { Gathers work.now self.now }
        requires finals { AreFinals work.now (packed self.now) (length (packed self.now)) finals.now }
        ensures finding { IfOk result (IsFinding work.now question) }
        ensures fair { IfOk result (IsFair work.now question self.now) }
        ensures shortest { IfOk result (IsShortest work.now question) }
    {
        match self.find(alloc, work, finals, question)? {
            Answer::Found { index } => {
                let entries = self.run_to(alloc, work, index)?;
                Ok(Finding::Found { entries })
            }
            Answer::Never => Ok(Finding::Never),
            Answer::More => Ok(Finding::More),
        }
    }
}
