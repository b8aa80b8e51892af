//! The lines before the accounts.

ghost use Rattle.std.specs.Prelude.{◌≡◌, [], ◌+◌, ◌<◌, ◌≤◌, ◌^◌, IfOk, IfErr, length, drop};
ghost use Rattle.sd_accounts.specs.Counters.{HasTaken};
ghost use Rattle.sd_world.specs.Plain.{Stands, told};
ghost use Rattle.sd_audit.specs.Audits.{IsFault};
ghost use Rattle.sd_audit.specs.Reading.{HasReadWith, IsAtAccounts};

use crate::audits::AuditFault;
use crate::collecting::Collector;
use crate::lines::{is_accounts, take_line};
use sd_accounts::Accounts;
use sd_entry_reader::{Lines, Names};
use sd_text::next_line;
use sd_world::PlainWorld;
use std::alloc::Global;

/// How many entries were read, and where the line `accounts` begins.
#[derive(Clone, Copy)]
pub struct EntriesRead {
    pub number: u64,
    pub from: usize,
}

/// Reads the lines before `accounts`, and makes their entries on a world that has made none.
pub fn take_entries<C: Collector>(
    alloc: Global,
    names: &Names<'_>,
    world: &mut PlainWorld<'_>,
    accounts: &mut Accounts,
    text: &[u8],
    collector: &mut C,
) -> Result<EntriesRead, AuditFault>
    requires text { length text.now < 2 ^ 31 }
    requires stands { Stands names.now.work.now world.old }
    requires work { world.old.work.now ≡ names.now.work.now }
    requires start { world.old.entries.items ≡ [] }
    requires none { HasTaken names.now.work.now [] accounts.old }
    requires empty { C.became names.now.work.now [] collector.old collector.old }
    ensures stands { Stands names.now.work.now world.new }
    ensures read { IfOk result (λ at. HasReadWith names.now.work.now text.now (told names.now.work.now world.new) accounts.new at.number at.from (λ es. C.became names.now.work.now es collector.old collector.new)) }
    ensures accounts { IfOk result (λ at. IsAtAccounts text.now at.from) }
    ensures bound { IfOk result (λ at. at.number ≤ at.from) }
    ensures fault { IfErr result (IsFault names.now.work.now text.now) }
{
    let mut lines = Lines::new(alloc);
    let mut at = EntriesRead { number: 0, from: 0 };
    'lines: while let Some((start, end)) = next_line(text, at.from) {
        let line = &text[start..end];
        if is_accounts(line) {
            return Ok(at);
        }
        let entry = take_line(alloc, names, world, &mut lines, line, at.number, collector)?;
        accounts.add(&entry);
        at = EntriesRead {
            number: at.number + 1,
            from: end + 1,
        };
    }
    Err(AuditFault::NotAnEntry {
        line: at.number as u32 + 1,
    })
}
