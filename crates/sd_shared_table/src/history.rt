//! The logs of all processors, put together: the entries of a run in the order of their numbers, kept short.

ghost use Rattle.std.specs.Prelude.{◌≡◌, ℕ, ◌<◌, List, length, IfOk, OnOk};
ghost use Rattle.std.specs.List.{All};
ghost use Rattle.sd_types.specs.declared.events.Entry.{Entry as EntryOf};
ghost use Rattle.sd_shared_table.specs.Logs.{AreIn, AreLogsOf, HasPut, IsNumbered};

use sd_log::EntryLog;
use sd_types::{CpuId, Entry, Event};
use std::alloc::{AllocError, Global};

/// So many places for entries, none of which is filled yet.
fn places(alloc: Global, count: usize) -> Result<Vec<Entry>, AllocError>
    ensures { IfOk result (λ v. length v.items ≡ count) }
{
    let mut entries = Vec::with_capacity(alloc, count)?;
    for _ in 0..count {
        entries.push(Entry {
            number: 0,
            cpu: CpuId(0),
            event: Event::Idle,
            hints: None,
        })?;
    }
    Ok(entries)
}

/// Puts each entry of a log into the place of its number.
fn put(entries: &mut Vec<Entry>, mut log: Vec<Entry>)
    requires inside { All (λ e. e.number < length entries.old.items) log.items }
    ensures many { length entries.new.items ≡ length entries.old.items }
    ensures put { (h : List EntryOf) → IsNumbered h → AreIn h log.items → HasPut h log.items entries.old.items entries.new.items }
{
    'entries: while let Some(entry) = log.pop() {
        let at = entry.number as usize;
        entries[at] = entry;
    }
}

/// The entries of these logs, of which there are so many, each at the place of its number. `Err` only where memory runs out.
fn merged(alloc: Global, count: usize, mut logs: Vec<Vec<Entry>>) -> Result<Vec<Entry>, AllocError>
    requires logs { (h : List EntryOf) × AreLogsOf h logs.items × (length h ≡ count) }
    ensures { IfOk result (λ v. (h : List EntryOf) → AreLogsOf h logs.items → length h ≡ count → v.items ≡ h) }
{
    let mut entries = places(alloc, count)?;
    'logs: while let Some(log) = logs.pop() {
        put(&mut entries, log);
    }
    Ok(entries)
}

/// The same entries, kept short. `Err` only where memory runs out.
fn shortened(alloc: Global, entries: Vec<Entry>) -> Result<EntryLog, AllocError>
    requires { IsNumbered entries.items }
    ensures { IfOk result (λ l. l.items ≡ entries.items) }
{
    let mut log = EntryLog::new(alloc);
    for entry in entries {
        let Entry {
            cpu,
            event,
            hints,
            ..
        } = entry;
        log.reserve()?;
        log.push_reserved(cpu, event, &hints);
    }
    Ok(log)
}

/// The entries of these logs, of which there are so many, in the order of their numbers. `Err` only where memory runs out.
pub(crate) fn in_order(
    alloc: Global,
    count: usize,
    logs: Vec<Vec<Entry>>,
) -> Result<EntryLog, AllocError>
    requires logs { (h : List EntryOf) × AreLogsOf h logs.items × (length h ≡ count) }
    ensures { IfOk result (λ v. (h : List EntryOf) → AreLogsOf h logs.items → length h ≡ count → v.items ≡ h) }
{
    let entries = merged(alloc, count, logs)?;
    shortened(alloc, entries)
}
