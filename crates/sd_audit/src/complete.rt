//! The processor that still has an entry.

ghost use Rattle.std.specs.Prelude.{◌≡◌, true, false, ◌<◌, ℕ, Option, None, IfSome, IfNone, IsSome};
ghost use Rattle.sd_types.specs.declared.events.Hints.{Hints};
ghost use Rattle.sd_types.specs.declared.numbers.CpuId.{CpuId as CpuValue};
ghost use Rattle.sd_machine.specs.Events.{next};
ghost use Rattle.sd_machine.specs.Runs.{IsComplete, IsReached, serial_hints};
ghost use Rattle.sd_replay.specs.Entering.{can_enter};

use sd_replay::can_enter;
use sd_state::State;
use sd_types::{CpuId, Work};

fn enters(work: &Work, s: &State, number: u64, c: CpuId) -> bool
    requires reached { IsReached work.now number s.now }
    ensures { result ≡ can_enter work.now s.now c }
{
    can_enter(work, s, c)
}

/// The least processor that has an entry in the state of a run with so many entries, whatever it reads.
pub fn first_to_enter(work: &Work, s: &State, number: u64) -> Option<CpuId>
    requires reached { IsReached work.now number s.now }
    ensures some { IfSome result (λ c. can_enter work.now s.now c ≡ true) }
    ensures least { IfSome result (λ c. (d : CpuValue) → d.0 < c.0 → can_enter work.now s.now d ≡ false) }
    ensures none { IfNone result ((d : CpuValue) → can_enter work.now s.now d ≡ false) }
{
    for c in 0..work.cpus {
        if enters(work, s, number, CpuId(c)) {
            return Some(CpuId(c));
        }
    }
    None
}
