//! The states in which runs end, and which of them are as was asked for.

ghost use Rattle.std.specs.Prelude.{◌≡◌, ◌↔◌, ◌<◌, [], ◌∷◌, ◌++◌, true, length, if◌then◌else◌, IsTrue, IfOk, OnOk};
ghost use Rattle.sd_state.specs.declared.states.State.{State as StateOf};
ghost use Rattle.sd_search.specs.Finals.{AreFinals, Ends, IsAnswer, IsFirst, IsOpenAnswer};
ghost use Rattle.sd_search.specs.Graphs.{Gathers, IsAt, packed};
ghost use Rattle.sd_search.specs.Questions.{HasPart};

use crate::graph::Graph;
use crate::judging::{has_part, is_complete};
use crate::questions::{Answer, Question};
use sd_types::Work;
use std::alloc::{AllocError, Global};

fn note(finals: &mut Vec<usize>, i: usize, ends: bool) -> Result<(), AllocError>
    ensures { OnOk result (finals.new.items ≡ finals.old.items ++ (if ends then i ∷ [] else [])) }
{
    if ends {
        finals.push(i)?;
    }
    Ok(())
}

impl Graph {
    /// State number `to` was reached from state number `i`, so that no run ends there.
    fn leads_to(&self, work: &Work, i: usize, to: usize) -> bool
        requires gathered { Gathers work.now self.now }
        ensures { result ≡ true → Ends work.now (packed self.now) i → ⊥ }
    {
        if to == 0 || to >= self.steps.len() {
            return false;
        }
        self.steps[to].before as usize == i
    }

    /// The first state from number `to` on that was reached from none up to number `i`. It only says where to look: `leads_to` tells.
    fn first_after(&self, i: usize, to: usize) -> usize {
        for next in to..self.steps.len() {
            if self.steps[next].before as usize > i {
                return next;
            }
        }
        self.steps.len()
    }

    /// A run ends in state number `i`. Where state number `to` was reached from there, it is not looked at.
    fn is_final(&self, alloc: Global, work: &Work, i: usize, to: usize) -> Result<bool, AllocError>
        requires gathered { Gathers work.now self.now }
        requires inside { i < length (packed self.now) }
        ensures { IfOk result (λ r. IsTrue r ↔ Ends work.now (packed self.now) i) }
    {
        if self.leads_to(work, i, to) {
            return Ok(false);
        }
        let state = self.state(alloc, work, i)?;
        Ok(is_complete(work, &state))
    }

    /// The numbers of the states in which runs end, in rising order.
    pub fn finals(&self, alloc: Global, work: &Work) -> Result<Vec<usize>, AllocError>
        requires gathered { Gathers work.now self.now }
        ensures { IfOk result (λ v. AreFinals work.now (packed self.now) (length (packed self.now)) v.items) }
    {
        let mut finals = Vec::new(alloc);
        let mut to = 1;
        for i in 0..self.len() {
            let ends = self.is_final(alloc, work, i, to)?;
            to = self.first_after(i, to);
            note(&mut finals, i, ends)?;
        }
        Ok(finals)
    }

    /// State number `i` is as was asked for, but for whether a run ends there.
    fn is_asked(
        &self,
        alloc: Global,
        work: &Work,
        i: usize,
        question: Question,
    ) -> Result<bool, AllocError>
        requires gathered { Gathers work.now self.now }
        requires inside { i < length (packed self.now) }
        ensures { IfOk result (λ r. (x : StateOf) → IsAt (packed self.now) i x → (IsTrue r ↔ HasPart work.now question x)) }
    {
        let state = self.state(alloc, work, i)?;
        has_part(alloc, work, &state, question)
    }

    /// The answer to a question by the states in which runs end: the first that is as was asked for, where one is. `Never` only
    /// where all states were reached.
    pub fn find(
        &self,
        alloc: Global,
        work: &Work,
        finals: &[usize],
        question: Question,
    ) -> Result<Answer, AllocError>
        requires gathered { Gathers work.now self.now }
        requires finals { AreFinals work.now (packed self.now) (length (packed self.now)) finals.now }
        ensures answer { IfOk result (IsAnswer work.now question (packed self.now)) }
        ensures open { IfOk result (IsOpenAnswer self.now) }
        ensures first { IfOk result (IsFirst work.now question (packed self.now)) }
    {
        for i in finals {
            if self.is_asked(alloc, work, *i, question)? {
                return Ok(Answer::Found { index: *i });
            }
        }
        if self.is_closed() {
            Ok(Answer::Never)
        } else {
            Ok(Answer::More)
        }
    }
}
