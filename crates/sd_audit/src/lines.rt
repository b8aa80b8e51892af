//! One line before the accounts.

ghost use Rattle.std.specs.Prelude.{◌≡◌, ◌+◌, ◌<◌, ◌^◌, IfOk, IfErr, IsTrue, ◌↔◌, codes, length};
ghost use Rattle.sd_machine.specs.Events.{after};
ghost use Rattle.sd_world.specs.Plain.{Stands, told};
ghost use Rattle.sd_audit.specs.Audits.{IsLineFault, IsTaken};
ghost use Rattle.sd_audit.specs.Collecting.{IsAfter, Takes};

use crate::audits::AuditFault;
use crate::collecting::Collector;
use crate::ranges::in_range;
use sd_entry_reader::{Lines, Names};
use sd_types::Entry;
use sd_world::PlainWorld;
use std::alloc::Global;

/// Whether a line is the one that stands before the accounts.
pub(crate) fn is_accounts(line: &[u8]) -> bool
    ensures { IsTrue result ↔ (line.now ≡ codes "accounts") }
{
    line == b"accounts".as_slice()
}

/// Makes the entry that the line tells, behind `number` entries, where it is a step there, and the collector takes it in; else the
/// fault is that of the line.
pub(crate) fn take_line<'a, C: Collector>(
    alloc: Global,
    names: &Names<'_>,
    world: &mut PlainWorld<'_>,
    lines: &mut Lines<'a>,
    line: &'a [u8],
    number: u64,
    collector: &mut C,
) -> Result<Entry, AuditFault>
    requires stands { Stands names.now.work.now world.old }
    requires work { world.old.work.now ≡ names.now.work.now }
    requires counted { number ≡ length world.old.entries.items }
    requires follows { IsAfter names.now.work.now number (told names.now.work.now world.old) (λ es. (first : C) × C.became names.now.work.now es first collector.old) }
    requires number { number < 2 ^ 31 }
    ensures stands { Stands names.now.work.now world.new }
    ensures work { world.new.work ≡ world.old.work }
    ensures more { IfOk result (λ e. length world.new.entries.items ≡ number + 1) }
    ensures taken { IfOk result (IsTaken names.now.work.now (told names.now.work.now world.old) number line.now) }
    ensures state { IfOk result (λ e. told names.now.work.now world.new ≡ after names.now.work.now (told names.now.work.now world.old) e.number e.cpu e.event) }
    ensures takes { IfOk result (λ e. (first : C) → Takes names.now.work.now (told names.now.work.now world.old) e (λ es. C.became names.now.work.now es first collector.old) (λ es. C.became names.now.work.now es first collector.new)) }
    ensures fault { IfErr result (IsLineFault names.now.work.now (told names.now.work.now world.old) number line.now) }
{
    let Some(entry) = lines.read(names, line, number) else {
        return Err(AuditFault::NotAnEntry {
            line: number as u32 + 1,
        });
    };
    in_range(&entry);
    if entry.number != number {
        return Err(AuditFault::Illegal { number });
    }
    match collector.enter(alloc, names.work, world, &entry) {
        Ok(true) => Ok(entry),
        Ok(false) => Err(AuditFault::Illegal { number }),
        Err(_) => Err(AuditFault::Memory { number }),
    }
}
