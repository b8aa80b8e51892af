//! The judgement of a whole text.

ghost use Rattle.std.specs.Prelude.{◌≡◌, [], ℕ, ◌+◌, ◌<◌, ◌≤◌, ◌^◌, IfOk, IfErr, OnOk, length, map, drop};
ghost use Rattle.sd_machine.specs.LockGraph.{cycles_of};
ghost use Rattle.sd_machine.specs.Runs.{IsComplete};
ghost use Rattle.sd_state.specs.declared.states.State.{State as StateValue};
ghost use Rattle.sd_state.specs.Opening.{opening as opening_of};
ghost use Rattle.sd_world.specs.Plain.{Stands, told};
ghost use Rattle.sd_audit.specs.Audits.{IsFault, IsJournal, IsMemory};
ghost use Rattle.sd_audit.specs.Collecting.{IsJournalWith};
ghost use Rattle.sd_audit.specs.Reading.{HasRead, IsAtAccounts};

use crate::collecting::{Collector, NoCollector};
use crate::complete::first_to_enter;
use crate::differences::first_difference;
use crate::entries::{EntriesRead, take_entries};
use sd_accounts::{Accounts, cycles};
use sd_entry_reader::Names;
use sd_log::EntryLog;
use sd_opening::opening;
use sd_state::State;
use sd_types::{CpuId, Work};
use sd_world::PlainWorld;
use std::alloc::{AllocError, Global};

/// Why a text is not the journal of a complete run. Lines are counted from 1, entries from 0.
#[derive(Clone, Copy, PartialEq, Eq)]
pub enum AuditFault {
    /// The first line at fault before the line `accounts` is no entry's; where no line is `accounts` and none is at fault,
    /// it is the line after the last.
    NotAnEntry { line: u32 },
    /// The first line at fault before the line `accounts` is that of an entry that is no step there, or whose number is not
    /// its place; `number` is its place.
    Illegal { number: u64 },
    /// The entries are a run, but not a complete one: this is the least processor that has an entry.
    Incomplete { cpu: CpuId },
    /// The run is complete, and in this line what stands from `accounts` on differs first from what its journal has there.
    Tail { line: u32 },
    /// Out of memory behind this many entries, which the first lines tell and which are a run.
    Memory { number: u64 },
}

/// A complete run as its journal tells it: its last state, how many entries it has, and the blocking cycles of that state.
#[derive(Drop)]
pub struct Judged {
    pub end: State,
    pub number: u64,
    pub cycles: Vec<Vec<usize>>,
}

/// Judges what stands from the line `accounts` on, where these are the blocking cycles of the state.
fn check_tail(
    alloc: Global,
    work: &Work,
    s: &State,
    accounts: &Accounts,
    text: &[u8],
    at: EntriesRead,
    cycles: &[Vec<usize>],
) -> Result<(), AuditFault>
    requires cycles { map (λ v. v.items) cycles.now ≡ cycles_of s.now }
    requires text { length text.now < 2 ^ 31 }
    requires read { HasRead work.now text.now s.now accounts.now at.number at.from }
    requires accounts { IsAtAccounts text.now at.from }
    requires complete { IsComplete work.now s.now }
    requires bound { at.number ≤ at.from }
    ensures journal { OnOk result (IsJournal work.now text.now s.now at.number) }
    ensures fault { IfErr result (IsFault work.now text.now) }
{
    let mut tail = Vec::new(alloc);
    let Ok(()) = accounts.write_accounts_with(alloc, work, s, cycles, &mut tail) else {
        return Err(AuditFault::Memory { number: at.number });
    };
    match first_difference(&text[at.from..], &tail) {
        Some(newlines) => Err(AuditFault::Tail {
            line: at.number as u32 + newlines as u32 + 1,
        }),
        None => Ok(()),
    }
}

/// Judges what stands from the line `accounts` on, and tells the blocking cycles of the state.
fn check_end(
    alloc: Global,
    work: &Work,
    s: &State,
    accounts: &Accounts,
    text: &[u8],
    at: EntriesRead,
) -> Result<Vec<Vec<usize>>, AuditFault>
    requires text { length text.now < 2 ^ 31 }
    requires read { HasRead work.now text.now s.now accounts.now at.number at.from }
    requires accounts { IsAtAccounts text.now at.from }
    requires complete { IsComplete work.now s.now }
    requires bound { at.number ≤ at.from }
    ensures journal { OnOk result (IsJournal work.now text.now s.now at.number) }
    ensures cycles { IfOk result (λ found. map (λ v. v.items) found.items ≡ cycles_of s.now) }
    ensures fault { IfErr result (IsFault work.now text.now) }
{
    let Ok(found) = cycles(alloc, s) else {
        return Err(AuditFault::Memory { number: at.number });
    };
    check_tail(alloc, work, s, accounts, text, at, &found)?;
    Ok(found)
}

/// Judges what stands behind the entries of a run, and tells the blocking cycles of the state.
fn check_rest(
    alloc: Global,
    work: &Work,
    s: &State,
    accounts: &Accounts,
    text: &[u8],
    at: EntriesRead,
) -> Result<Vec<Vec<usize>>, AuditFault>
    requires text { length text.now < 2 ^ 31 }
    requires read { HasRead work.now text.now s.now accounts.now at.number at.from }
    requires accounts { IsAtAccounts text.now at.from }
    requires bound { at.number ≤ at.from }
    ensures journal { OnOk result (IsJournal work.now text.now s.now at.number) }
    ensures cycles { IfOk result (λ found. map (λ v. v.items) found.items ≡ cycles_of s.now) }
    ensures fault { IfErr result (IsFault work.now text.now) }
{
    match first_to_enter(work, s, at.number) {
        Some(cpu) => Err(AuditFault::Incomplete { cpu }),
        None => check_end(alloc, work, s, accounts, text, at),
    }
}

/// The homes of the initial state, on which no entry was made.
fn first_world<'a>(
    alloc: Global,
    work: &'a Work,
    opening: &State,
) -> Result<PlainWorld<'a>, AllocError>
    requires start { opening.now ≡ opening_of work.now }
    ensures stands { IfOk result (λ x. Stands work.now x) }
    ensures work { IfOk result (λ x. x.work.now ≡ work.now) }
    ensures entries { IfOk result (λ x. x.entries.items ≡ []) }
{
    let log = EntryLog::new(alloc);
    PlainWorld::resume(alloc, work, opening, log)
}

/// The state to which the entries led that were read.
fn end_of(
    alloc: Global,
    work: &Work,
    world: &PlainWorld<'_>,
    accounts: &Accounts,
    text: &[u8],
    at: EntriesRead,
) -> Result<State, AuditFault>
    requires stands { Stands work.now world.now }
    requires read { HasRead work.now text.now (told work.now world.now) accounts.now at.number at.from }
    ensures state { IfOk result (λ end. end ≡ told work.now world.now) }
    ensures fault { IfErr result (IsFault work.now text.now) }
{
    match world.state(alloc, work) {
        Ok(end) => Ok(end),
        Err(_) => Err(AuditFault::Memory { number: at.number }),
    }
}

// Reads the text once, on the homes of the initial state.
fn judge<C: Collector>(
    alloc: Global,
    names: &Names<'_>,
    text: &[u8],
    opening: State,
    collector: &mut C,
) -> Result<Judged, AuditFault>
    requires text { length text.now < 2 ^ 31 }
    requires start { opening ≡ opening_of names.now.work.now }
    requires empty { C.became names.now.work.now [] collector.old collector.old }
    ensures journal { IfOk result (λ run. IsJournalWith names.now.work.now text.now run.end run.number (λ es. C.became names.now.work.now es collector.old collector.new)) }
    ensures cycles { IfOk result (λ run. map (λ v. v.items) run.cycles.items ≡ cycles_of run.end) }
    ensures fault { IfErr result (IsFault names.now.work.now text.now) }
{
    let work = names.work;
    let Ok(mut accounts) = Accounts::new(alloc, work) else {
        return Err(AuditFault::Memory { number: 0 });
    };
    let Ok(mut world) = first_world(alloc, work, &opening) else {
        return Err(AuditFault::Memory { number: 0 });
    };
    let at = take_entries(alloc, names, &mut world, &mut accounts, text, collector)?;
    let end = end_of(alloc, work, &world, &accounts, text, at)?;
    let found = check_rest(alloc, work, &end, &accounts, text, at)?;
    Ok(Judged {
        end,
        number: at.number,
        cycles: found,
    })
}

/// As `audit`, from the initial state. A collector makes the entries, and where the text is the journal of a complete run it has become
/// what it is behind that run.
pub fn audit_collecting<C: Collector>(
    alloc: Global,
    work: &Work,
    text: &[u8],
    opening: State,
    collector: &mut C,
) -> Result<Judged, AuditFault>
    requires text { length text.now < 2 ^ 31 }
    requires start { opening ≡ opening_of work.now }
    requires empty { C.became work.now [] collector.old collector.old }
    ensures journal { IfOk result (λ run. IsJournalWith work.now text.now run.end run.number (λ es. C.became work.now es collector.old collector.new)) }
    ensures cycles { IfOk result (λ run. map (λ v. v.items) run.cycles.items ≡ cycles_of run.end) }
    ensures fault { IfErr result (IsFault work.now text.now) }
    ensures exact { IfErr result (λ fault. (s : StateValue) (n : ℕ) → IsJournal work.now text.now s n → IsMemory fault) }
{
    let Ok(names) = Names::new(alloc, work) else {
        return Err(AuditFault::Memory { number: 0 });
    };
    judge(alloc, &names, text, opening, collector)
}

/// The final state and the number of entries of the complete run whose journal the text is, or what is first at fault. A
/// text that is such a journal is refused only where memory runs out, and memory runs out only behind lines that tell a run.
pub fn audit(alloc: Global, work: &Work, text: &[u8]) -> Result<(State, u64), AuditFault>
    requires { length text.now < 2 ^ 31 }
    ensures journal { IfOk result (λ found. IsJournal work.now text.now found.0 found.1) }
    ensures fault { IfErr result (IsFault work.now text.now) }
    ensures exact { IfErr result (λ fault. (s : StateValue) (n : ℕ) → IsJournal work.now text.now s n → IsMemory fault) }
{
    let Ok(s) = opening(alloc, work) else {
        return Err(AuditFault::Memory { number: 0 });
    };
    let Judged { end, number, .. } = audit_collecting(alloc, work, text, s, &mut NoCollector)?;
    Ok((end, number))
}
