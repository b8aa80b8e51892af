//! What is asked of one state.

ghost use Rattle.std.specs.Prelude.{◌≡◌, ◌↔◌, ◌<◌, IsTrue, IfOk};
ghost use Rattle.sd_machine.specs.Runs.{IsComplete};
ghost use Rattle.sd_search.specs.Questions.{HasPart, IsBlocked, IsStuck, is_left};
ghost use Rattle.sd_invariants.specs.Laws.{IsFit};

use crate::questions::Question;
use sd_accounts::cycles;
use sd_flat::script_of;
use sd_replay::can_enter;
use sd_state::{Place, State, ThreadState};
use sd_types::{CpuId, ThreadId, Work};
use std::alloc::{AllocError, Global};

/// No processor can make an entry, whatever it reads.
pub(crate) fn is_complete(work: &Work, state: &State) -> bool
    requires fit { IsFit work.now state.now }
    ensures { IsTrue result ↔ IsComplete work.now state.now }
{
    for c in 0..work.cpus {
        if can_enter(work, state, CpuId(c)) {
            return false;
        }
    }
    true
}

fn is_blocked(alloc: Global, state: &State) -> Result<bool, AllocError>
    ensures { IfOk result (λ r. IsTrue r ↔ IsBlocked state.now) }
{
    let found = cycles(alloc, state)?;
    Ok(found.len() > 0)
}

fn is_left(work: &Work, t: ThreadId, thread: &ThreadState) -> bool
    ensures { result ≡ is_left work.now t.0 thread.now }
{
    (thread.body.op as usize) < script_of(work, t).len() && !matches!(thread.place, Place::Ended)
}

/// A thread that has operations left has not ended.
fn is_stuck(work: &Work, state: &State) -> bool
    requires fit { IsFit work.now state.now }
    ensures { IsTrue result ↔ IsStuck work.now state.now }
{
    let threads = state.threads.items();
    for t in 0..threads.len() {
        if is_left(work, ThreadId(t as u16), &threads[t]) {
            return true;
        }
    }
    false
}

/// The state is as was asked for, but for whether a run ends there.
pub(crate) fn has_part(
    alloc: Global,
    work: &Work,
    state: &State,
    question: Question,
) -> Result<bool, AllocError>
    requires fit { IsFit work.now state.now }
    ensures { IfOk result (λ r. IsTrue r ↔ HasPart work.now question state.now) }
{
    match question {
        Question::Blocked => is_blocked(alloc, state),
        Question::Stuck => Ok(is_stuck(work, state)),
    }
}
