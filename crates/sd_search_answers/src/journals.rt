//! The journal of a run as a text.

ghost use Rattle.std.specs.Prelude.{◌≡◌, ◌++◌, ◌<◌, ◌≤◌, ◌^◌, length, IfOk, OnOk};
ghost use Rattle.sd_accounts.specs.Counters.{HasTaken};
ghost use Rattle.sd_machine.specs.Runs.{final};
ghost use Rattle.sd_machine.specs.Texts.{cycles_text, entries_text, journal};
ghost use Rattle.sd_state.specs.Opening.{opening};
ghost use Rattle.sd_state.specs.Texts.{accounts_text};
ghost use Rattle.sd_types.specs.Limits.{most_entries};

use sd_accounts::Accounts;
use sd_entries::EntryLine;
use sd_replay::replay;
use sd_state::State;
use sd_types::{Entry, MOST_ENTRIES, Work};
use std::alloc::{AllocError, Global};

/// Appends the entries in order.
#[tactic(auto, unfolding(sd_machine::specs::Texts::entries_text))]
fn write_entries(work: &Work, entries: &[Entry], out: &mut Vec<u8>) -> Result<(), AllocError>
    ensures { OnOk result (out.new.items ≡ out.old.items ++ entries_text work.now entries.now) }
{
    let mut line = EntryLine::new();
    for entry in entries {
        line.write(work, entry, out)?;
    }
    Ok(())
}

/// The accounts of the entries.
fn counted(alloc: Global, work: &Work, entries: &[Entry]) -> Result<Accounts, AllocError>
    requires { length entries.now < 2 ^ 48 }
    ensures { IfOk result (λ a. HasTaken work.now entries.now a) }
{
    let mut accounts = Accounts::new(alloc, work)?;
    for entry in entries {
        accounts.add(entry);
    }
    Ok(accounts)
}

/// The state after the entries of a run. Where they are no run, memory is taken to run out.
pub(crate) fn state_after(
    alloc: Global,
    work: &Work,
    entries: &[Entry],
) -> Result<State, AllocError>
    ensures { IfOk result (λ s. s ≡ final work.now (opening work.now) entries.now) }
{
    match replay(alloc, work, entries) {
        Ok(state) => Ok(state),
        Err(_) => Err(AllocError),
    }
}

/// Appends the accounts of a run, and the blocking cycles of its last state.
fn write_accounts(
    alloc: Global,
    work: &Work,
    entries: &[Entry],
    state: &State,
    out: &mut Vec<u8>,
) -> Result<(), AllocError>
    requires few { length entries.now < 2 ^ 48 }
    requires last { state.now ≡ final work.now (opening work.now) entries.now }
    ensures { OnOk result (let s = final work.now (opening work.now) entries.now in out.new.items ≡ out.old.items ++ (accounts_text work.now entries.now s ++ cycles_text work.now s)) }
{
    let accounts = counted(alloc, work, entries)?;
    accounts.write_accounts(alloc, work, state, out)
}

/// Appends the journal of a run, of which this is the last state: its entries, its accounts, the blocking cycles of that state.
#[tactic(auto, unfolding(sd_machine::specs::Texts::journal))]
pub(crate) fn write_journal_with(
    alloc: Global,
    work: &Work,
    entries: &[Entry],
    state: &State,
    out: &mut Vec<u8>,
) -> Result<(), AllocError>
    requires { state.now ≡ final work.now (opening work.now) entries.now }
    ensures text { OnOk result (out.new.items ≡ out.old.items ++ journal work.now entries.now) }
    ensures short { OnOk result (length entries.now ≤ most_entries) }
{
    if entries.len() > MOST_ENTRIES {
        return Err(AllocError);
    }
    write_entries(work, entries, out)?;
    write_accounts(alloc, work, entries, state, out)
}

/// The same, with the last state found by the entries.
pub(crate) fn write_journal(
    alloc: Global,
    work: &Work,
    entries: &[Entry],
    out: &mut Vec<u8>,
) -> Result<(), AllocError>
    ensures text { OnOk result (out.new.items ≡ out.old.items ++ journal work.now entries.now) }
    ensures short { OnOk result (length entries.now ≤ most_entries) }
{
    let state = state_after(alloc, work, entries)?;
    write_journal_with(alloc, work, entries, &state, out)
}
