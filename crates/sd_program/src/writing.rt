//! Writing what is printed of a run: each line with its newline as one piece.

ghost use Rattle.std.specs.Prelude.{◌≡◌, ◌++◌, ◌<◌, ◌≤◌, ◌^◌, List, [], length, map, IfOk, OnOk};
ghost use Rattle.sd_types.specs.declared.events.Entry.{Entry as EntryOf};
ghost use Rattle.sd_types.specs.Limits.{most_processors};
ghost use Rattle.sd_accounts.specs.Counters.{HasTaken};
ghost use Rattle.sd_log.specs.Parts.{listed, whole};
ghost use Rattle.sd_machine.specs.LockGraph.{cycles_of};
ghost use Rattle.sd_machine.specs.Runs.{final};
ghost use Rattle.sd_machine.specs.Texts.{cycles_text, entries_text, entry_text, journal, summary};
ghost use Rattle.sd_state.specs.Opening.{opening};
ghost use Rattle.sd_state.specs.Texts.{accounts_text};
ghost use Rattle.sd_program.specs.Forms.{text_of};
ghost use Rattle.sd_answers.specs.StreamChanges.{LeavesHeld, Puts};

use crate::forms::Form;
use sd_accounts::Accounts;
use sd_answers::{Unwritten, hand_on, put_line, put_text};
use sd_entries::EntryLine;
use sd_log::{EntryLog, Parts};
use sd_state::State;
use sd_text::Sink;
use sd_types::Work;
use std::alloc::{AllocError, Global};

/// Writes the line of the entry with these parts, which is made in the buffer.
fn put_entry<K: Sink>(
    work: &Work,
    parts: &Parts<'_>,
    line: &mut EntryLine,
    out: &mut K,
) -> Result<(), Unwritten>
    requires { length (listed parts.now.numbers) ≤ most_processors }
    ensures { Puts (K.contents out.old) (K.contents out.new) (K.fault_count out.old) (K.fault_count out.new)
        (entry_text work.now (whole parts.now)) result }
{
    put_line(out, line.format_parts(work, parts))
}

/// Writes the entries in order, and counts them in accounts that have none so far.
fn put_entries<K: Sink>(
    work: &Work,
    entries: &EntryLog,
    accounts: &mut Accounts,
    out: &mut K,
) -> Result<(), Unwritten>
    requires few { length entries.now.items < 2 ^ 48 }
    requires none { HasTaken work.now [] accounts.old }
    ensures puts { Puts (K.contents out.old) (K.contents out.new) (K.fault_count out.old) (K.fault_count out.new)
        (entries_text work.now entries.now.items) result }
    ensures counted { OnOk result (HasTaken work.now entries.now.items accounts.new) }
{
    let mut line = EntryLine::new();
    for i in 0..entries.len() {
        let parts = entries.parts(i);
        put_entry(work, &parts, &mut line, out)?;
        accounts.add_event(parts.cpu, parts.event);
    }
    Ok(())
}

/// The accounts of the entries.
fn counted(alloc: Global, work: &Work, entries: &EntryLog) -> Result<Accounts, AllocError>
    requires { length entries.now.items < 2 ^ 48 }
    ensures { IfOk result (λ a. HasTaken work.now entries.now.items a) }
{
    let mut accounts = Accounts::new(alloc, work)?;
    for i in 0..entries.len() {
        let parts = entries.parts(i);
        accounts.add_event(parts.cpu, parts.event);
    }
    Ok(accounts)
}

/// Writes the accounts of a run, and the blocking cycles of its final state, which are these.
fn put_accounts<K: Sink>(
    alloc: Global,
    work: &Work,
    accounts: &Accounts,
    s: &State,
    cycles: &[Vec<usize>],
    out: &mut K,
) -> Result<(), Unwritten>
    requires taken { (es : List EntryOf) × HasTaken work.now es accounts.now }
    requires cycles { map (λ v. v.items) cycles.now ≡ cycles_of s.now }
    ensures { (es : List EntryOf) → HasTaken work.now es accounts.now
        → Puts (K.contents out.old) (K.contents out.new) (K.fault_count out.old) (K.fault_count out.new) (accounts_text work.now es s.now ++ cycles_text work.now s.now) result }
{
    let mut text = Vec::new(alloc);
    accounts.write_accounts_with(alloc, work, s, cycles, &mut text)?;
    put_text(out, &text)
}

/// Writes the journal of a run: its entries in order, then its accounts and the blocking cycles of its final state.
#[tactic(auto, unfolding(sd_machine::specs::Texts::journal))]
fn put_journal<K: Sink>(
    alloc: Global,
    work: &Work,
    entries: &EntryLog,
    s: &State,
    cycles: &[Vec<usize>],
    out: &mut K,
) -> Result<(), Unwritten>
    requires few { length entries.now.items < 2 ^ 48 }
    requires cycles { map (λ v. v.items) cycles.now ≡ cycles_of s.now }
    requires state { s.now ≡ final work.now (opening work.now) entries.now.items }
    ensures { Puts (K.contents out.old) (K.contents out.new) (K.fault_count out.old) (K.fault_count out.new)
        (journal work.now entries.now.items) result }
{
    let mut accounts = Accounts::new(alloc, work)?;
    put_entries(work, entries, &mut accounts, out)?;
    put_accounts(alloc, work, &accounts, s, cycles, out)
}

/// Writes the summary of a run.
#[tactic(auto, unfolding(sd_machine::specs::Texts::summary))]
fn put_summary<K: Sink>(
    alloc: Global,
    work: &Work,
    entries: &EntryLog,
    s: &State,
    out: &mut K,
) -> Result<(), Unwritten>
    requires few { length entries.now.items < 2 ^ 48 }
    requires state { s.now ≡ final work.now (opening work.now) entries.now.items }
    ensures { Puts (K.contents out.old) (K.contents out.new) (K.fault_count out.old) (K.fault_count out.new)
        (summary work.now entries.now.items) result }
{
    let accounts = counted(alloc, work, entries)?;
    let mut text = Vec::new(alloc);
    accounts.write_summary(alloc, s, &mut text)?;
    put_text(out, &text)
}

/// Writes what the form prints of a run in whose final state these are the blocking cycles.
fn put_form<K: Sink>(
    alloc: Global,
    work: &Work,
    form: Form,
    entries: &EntryLog,
    s: &State,
    cycles: &[Vec<usize>],
    out: &mut K,
) -> Result<(), Unwritten>
    requires few { length entries.now.items < 2 ^ 48 }
    requires cycles { map (λ v. v.items) cycles.now ≡ cycles_of s.now }
    requires state { s.now ≡ final work.now (opening work.now) entries.now.items }
    ensures { Puts (K.contents out.old) (K.contents out.new) (K.fault_count out.old) (K.fault_count out.new)
        (text_of form work.now entries.now.items) result }
{
    match form {
        Form::Journal(_) => put_journal(alloc, work, entries, s, cycles, out),
        Form::Summary => put_summary(alloc, work, entries, s, out),
    }
}

/// Writes what the form prints of a run in whose final state these are the blocking cycles, and hands it on; also what was written
/// when memory ran out.
pub(crate) fn print_run<K: Sink>(
    alloc: Global,
    work: &Work,
    form: Form,
    entries: &EntryLog,
    s: &State,
    cycles: &[Vec<usize>],
    out: &mut K,
) -> Result<(), Unwritten>
    requires few { length entries.now.items < 2 ^ 48 }
    requires cycles { map (λ v. v.items) cycles.now ≡ cycles_of s.now }
    requires state { s.now ≡ final work.now (opening work.now) entries.now.items }
    ensures puts { Puts (K.contents out.old) (K.contents out.new) (K.fault_count out.old) (K.fault_count out.new)
        (text_of form work.now entries.now.items) result }
    ensures leaves { LeavesHeld (K.held_back out.old) (K.held_back out.new) result }
{
    let put = put_form(alloc, work, form, entries, s, cycles, out);
    hand_on(out, put)
}
