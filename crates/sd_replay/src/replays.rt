//! Whole lists of entries, judged.

ghost use Rattle.std.specs.Prelude.{◌≡◌, take, IfOk, OnOk, IfErr};
ghost use Rattle.sd_machine.specs.Runs.{final, IsRunFrom, IsRun};
ghost use Rattle.sd_state.specs.Opening.{opening};
ghost use Rattle.sd_replay.specs.Replays.{IsIllegalFrom, IsFault};

use crate::stepping::step;
use sd_opening::opening;
use sd_state::State;
use sd_types::{Entry, Work};
use std::alloc::Global;

/// The entry that makes a list of entries no run: the one at index `number` is the first that is no step, or whose
/// number is not its index.
#[derive(Clone, Copy, Debug, PartialEq, Eq)]
pub struct IllegalEntry {
    pub number: u64,
}

/// Why no state comes of a list of entries: it is no run, since the entry at index `number` is the first that is no
/// step, or whose number is not its index; or the initial state found no memory, and no entry was judged.
#[derive(Clone, Copy, Debug, PartialEq, Eq)]
pub enum ReplayFault {
    Illegal { number: u64 },
    Memory,
}

/// Makes the entries, numbered from 0 on, on the initial state: Ok exactly where each is a step. On a refusal the state is
/// the one before the illegal entry. It takes no memory.
fn replay_from(work: &Work, s: &mut State, entries: &[Entry]) -> Result<(), IllegalEntry>
    requires start { s.old ≡ opening work.now }
    ensures run { OnOk result (IsRunFrom work.now s.old 0 entries.now) }
    ensures state { OnOk result (s.new ≡ final work.now s.old entries.now) }
    ensures illegal { IfErr result (λ fault. IsIllegalFrom work.now s.old entries.now fault.number) }
    ensures before { IfErr result (λ fault. s.new ≡ final work.now s.old (take fault.number entries.now)) }
{
    for (i, entry) in entries.iter().enumerate() {
        if entry.number != i as u64 || !step(work, s, entry) {
            return Err(IllegalEntry { number: i as u64 });
        }
    }
    Ok(())
}

/// The state after the entries, exactly where they are a run of the work. `Memory` comes only where the initial state
/// finds no memory: the entries are judged without any.
pub fn replay(alloc: Global, work: &Work, entries: &[Entry]) -> Result<State, ReplayFault>
    ensures run { OnOk result (IsRun work.now entries.now) }
    ensures state { IfOk result (λ s. s ≡ final work.now (opening work.now) entries.now) }
    ensures fault { IfErr result (IsFault work.now entries.now) }
{
    let Ok(mut s) = opening(alloc, work) else {
        return Err(ReplayFault::Memory);
    };
    match replay_from(work, &mut s, entries) {
        Ok(()) => Ok(s),
        Err(illegal) => Err(ReplayFault::Illegal {
            number: illegal.number,
        }),
    }
}
