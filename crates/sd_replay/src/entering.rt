//! Whether a processor has an event at all, for some numbers that it may read.

ghost use Rattle.std.specs.Prelude.{◌≡◌, Option, None, false, true, IsSome};
ghost use Rattle.sd_types.specs.declared.events.Hints.{Hints};
ghost use Rattle.sd_machine.specs.Choosing.{neighbours};
ghost use Rattle.sd_machine.specs.Events.{next};
ghost use Rattle.sd_machine.specs.Runs.{serial_hints};
ghost use Rattle.sd_invariants.specs.Laws.{IsFit};
ghost use Rattle.sd_replay.specs.Entering.{can_enter, can_steal, plan_enters};

use crate::serial::plan_of;
use arrayvec::ArrayVec;
use sd_dispatcher::neighbours;
use sd_flat::{may_tick, numbers_shown};
use sd_machine::Plan;
use sd_state::State;
use sd_types::{CpuId, Which, Work};

/// The other open processors of the partition of processor `c`.
fn neighbours_of(work: &Work, s: &State, c: CpuId) -> ArrayVec<CpuId, 64>
    requires fit { IsFit work.now s.now }
    ensures { result.items ≡ neighbours s.now c.0 }
{
    match neighbours(s, c) {
        Ok(cpus) => cpus,
        Err(never) => match never {},
    }
}

/// A neighbour of processor `c` shows a thread on its queue that is bound to no processor.
#[tactic(auto, unfolding(crate::specs::Entering::can_steal))]
fn can_steal(work: &Work, s: &State, c: CpuId) -> bool
    requires fit { IsFit work.now s.now }
    ensures { result ≡ can_steal s.now c.0 }
{
    let cpus = neighbours_of(work, s, c);
    let numbers = numbers_shown(s, Which::Queued, cpus.as_slice());
    numbers.as_slice().iter().any(|n| *n > 0)
}

fn plan_enters(work: &Work, s: &State, c: CpuId, plan: Plan) -> bool
    requires fit { IsFit work.now s.now }
    ensures { result ≡ plan_enters work.now s.now c.0 plan }
{
    match plan {
        Plan::Make(event) => !event.ticks() || may_tick(work, s, c),
        Plan::Place(_, _) => true,
        Plan::Search => may_tick(work, s, c) || can_steal(work, s, c),
    }
}

#[tactic(auto, unfolding(crate::specs::Entering::can_enter))]
fn enters(work: &Work, s: &State, c: CpuId) -> bool
    requires fit { IsFit work.now s.now }
    ensures { result ≡ can_enter work.now s.now c }
{
    c.0 < work.cpus && plan_enters(work, s, c, plan_of(work, s, c))
}

/// Processor `c` has an event for some numbers that it may read. Where it has one for any, it has one for the numbers of
/// the state itself.
pub fn can_enter(work: &Work, s: &State, c: CpuId) -> bool
    requires fit { IsFit work.now s.now }
    ensures value { result ≡ can_enter work.now s.now c }
    ensures some { result ≡ true → IsSome (next work.now s.now c (serial_hints work.now s.now c)) }
    ensures none { result ≡ false → (hints : Option Hints) → next work.now s.now c hints ≡ None }
{
    enters(work, s, c)
}
