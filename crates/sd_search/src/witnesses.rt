//! The entries of the run that a list of processors spells.

ghost use Rattle.std.specs.Prelude.{◌≡◌, ◌++◌, length, IfOk, OnOk};
ghost use Rattle.sd_machine.specs.Runs.{IsReached, final, round, turn};
ghost use Rattle.sd_state.specs.Opening.{opening};

use sd_opening::opening;
use sd_replay::make_entry;
use sd_state::State;
use sd_types::{CpuId, Entry, MOST_ENTRIES, Work};
use std::alloc::{AllocError, Global};

/// The entry of processor `c`, where it has one, goes behind those so far. Memory is taken to run out at 2^40 entries.
pub fn take_turn(
    work: &Work,
    state: &mut State,
    entries: &mut Vec<Entry>,
    c: CpuId,
) -> Result<(), AllocError>
    requires reached { IsReached work.now (length entries.old.items) state.old }
    ensures entries { OnOk result (entries.new.items ≡ entries.old.items ++ turn work.now state.old (length entries.old.items) c) }
    ensures state { OnOk result (state.new ≡ final work.now state.old (turn work.now state.old (length entries.old.items) c)) }
    ensures reached { OnOk result (IsReached work.now (length entries.new.items) state.new) }
{
    let number = entries.len();
    if number >= MOST_ENTRIES {
        return Err(AllocError);
    }
    match make_entry(work, state, number as u64, c) {
        Some(entry) => entries.push(entry)?,
        None => {}
    }
    Ok(())
}

/// The entries that these processors make from the initial state on, each where it has one, with the numbers of the state as
/// its hints. Memory is taken to run out at 2^40 entries.
pub fn witness(alloc: Global, work: &Work, path: &[CpuId]) -> Result<Vec<Entry>, AllocError>
    ensures { IfOk result (λ entries. entries.items ≡ round work.now (opening work.now) 0 path.now) }
{
    let mut state = opening(alloc, work)?;
    let mut entries = Vec::new(alloc);
    for c in path {
        take_turn(work, &mut state, &mut entries, *c)?;
    }
    Ok(entries)
}
