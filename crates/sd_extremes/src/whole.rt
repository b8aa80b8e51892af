//! A run that goes to its end.

ghost use Rattle.std.specs.Prelude.{◌≡◌, None, IfOk, OnOk};
ghost use Rattle.sd_extremes.specs.WholeRuns.{BeginsWith, GoesOn, LeadsTo};
ghost use Rattle.sd_machine.specs.Runs.{IsComplete};
ghost use Rattle.sd_invariants.specs.Laws.{IsFit};

use sd_opening::opening;
use sd_replay::can_enter;
use sd_search::take_turn;
use sd_state::State;
use sd_types::{CpuId, Entry, MOST_ENTRIES, Work};
use std::alloc::{AllocError, Global};

/// A processor that can make an entry; None only where none can, whatever it reads.
fn first_able(work: &Work, state: &State) -> Option<CpuId>
    requires { IsFit work.now state.now }
    ensures { result ≡ None → IsComplete work.now state.now }
{
    for c in 0..work.cpus {
        if can_enter(work, state, CpuId(c)) {
            return Some(CpuId(c));
        }
    }
    None
}

/// The run goes on until no processor can make an entry: each time the first that can makes one.
fn finish(work: &Work, state: &mut State, entries: &mut Vec<Entry>) -> Result<(), AllocError>
    requires { LeadsTo work.now entries.old.items state.old }
    ensures leads { OnOk result (LeadsTo work.now entries.new.items state.new) }
    ensures complete { OnOk result (IsComplete work.now state.new) }
    ensures begins { OnOk result (BeginsWith entries.new.items entries.old.items) }
{
    for _n in 0..MOST_ENTRIES {
        match first_able(work, state) {
            Some(c) => take_turn(work, state, entries, c)?,
            None => return Ok(()),
        }
    }
    Err(AllocError)
}

/// The entries that these processors make from the initial state on, each where it has one, with the numbers of the state as
/// its hints, and those that follow until no processor can make one. Memory is taken to run out at 2^40 entries.
pub fn whole_run(alloc: Global, work: &Work, path: &[CpuId]) -> Result<Vec<Entry>, AllocError>
    ensures { IfOk result (λ entries. GoesOn work.now path.now entries.items) }
{
    let mut state = opening(alloc, work)?;
    let mut entries = Vec::new(alloc);
    for c in path {
        take_turn(work, &mut state, &mut entries, *c)?;
    }
    finish(work, &mut state, &mut entries)?;
    Ok(entries)
}
