//! The lines of a workload and of a journal that are refused, put together on the stack of constant words and of digits.

ghost use Rattle.std.specs.Prelude.{◌≡◌, ◌≤◌, length, IsErrOf};
ghost use Rattle.sd_text.specs.Numbers.{digits_if};
ghost use Rattle.sd_answers.specs.Refusals.{cause_number, cause_words, journal_line, journal_number, refusal_line, script_words, table_words, words_after, words_before};
ghost use Rattle.sd_answers.specs.StreamChanges.{Puts};
ghost use Rattle.sd_answers.specs.declared.writing.Unwritten.TheVariants.{Memory};

use crate::answers::JournalFault;
use crate::writing::{Unwritten, put_parts};
use itoa::Buffer;
use sd_declare::WorkCause;
use sd_dispadmin::TableFault;
use sd_script::ScriptFault;
use sd_text::Sink;

fn table_words(fault: TableFault) -> &'static [u8]
    ensures { result.now ≡ table_words fault }
{
    match fault {
        TableFault::NotANumber { .. } => b"table: not a number",
        TableFault::Range { .. } => b"table: range in column ",
        TableFault::Rows { .. } => b"table: rows: ",
        TableFault::Resolution { .. } => b"table: resolution",
    }
}

fn script_words(fault: ScriptFault) -> &'static [u8]
    ensures { result.now ≡ script_words fault }
{
    match fault {
        ScriptFault::Unbalanced { .. } => b"script: unbalanced",
        ScriptFault::TooManyHeld { .. } => b"script: too many held",
        ScriptFault::HeldAtExit => b"script: held at exit",
        ScriptFault::TooLong => b"script: too long",
        ScriptFault::AlreadyHeld { .. } => b"script: already held",
        ScriptFault::Unpaired { .. } => b"script: unpaired",
    }
}

fn cause_words(cause: WorkCause) -> &'static [u8]
    ensures { result.now ≡ cause_words cause }
{
    match cause {
        WorkCause::Syntax => b"syntax",
        WorkCause::Unknown => b"unknown",
        WorkCause::Twice => b"twice",
        WorkCause::Range => b"range",
        WorkCause::Table(fault) => table_words(fault),
        WorkCause::Script(fault) => script_words(fault),
        WorkCause::Sets => b"sets",
        WorkCause::Limits => b"limits",
    }
}

/// The number behind the words, where there is one.
fn cause_number(cause: WorkCause) -> Option<u32>
    ensures { result ≡ cause_number cause }
{
    match cause {
        WorkCause::Table(TableFault::Range { column, .. }) => Some(u32::from(column)),
        WorkCause::Table(TableFault::Rows { found }) => Some(found),
        _ => None,
    }
}

fn digits_if<'a>(number: Option<u32>, buffer: &'a mut Buffer) -> &'a [u8]
    ensures text { result.now ≡ digits_if number }
    ensures short { length result.now ≤ 40 }
{
    match number {
        Some(number) => buffer.format(number).as_bytes(),
        None => b"",
    }
}

/// Writes that a workload is refused, at which line, and why.
pub(crate) fn put_refusal<K: Sink>(
    out: &mut K,
    line: u32,
    cause: WorkCause,
) -> Result<(), Unwritten>
    ensures puts { Puts (K.contents out.old) (K.contents out.new) (K.fault_count out.old) (K.fault_count out.new)
        (refusal_line line cause) result }
    ensures no_memory { IsErrOf result Memory → ⊥ }
{
    let mut line_digits = Buffer::new();
    let mut digits = Buffer::new();
    let parts: [&[u8]; 6] = [
        b"refused: line ",
        line_digits.format(line).as_bytes(),
        b": ",
        cause_words(cause),
        digits_if(cause_number(cause), &mut digits),
        b"\n",
    ];
    put_parts(out, &parts)
}

fn words_before(fault: JournalFault) -> &'static [u8]
    ensures { result.now ≡ words_before fault }
{
    match fault {
        JournalFault::NotAnEntry { .. } => b"line ",
        JournalFault::Illegal { .. } => b"entry ",
        JournalFault::Incomplete { .. } => b"incomplete: c",
        JournalFault::Tail { .. } => b"line ",
    }
}

/// The number of the line, the entry or the processor.
fn journal_number(fault: JournalFault) -> u64
    ensures { result ≡ journal_number fault }
{
    match fault {
        JournalFault::NotAnEntry { line } => u64::from(line),
        JournalFault::Illegal { number } => number,
        JournalFault::Incomplete { cpu } => u64::from(cpu.0),
        JournalFault::Tail { line } => u64::from(line),
    }
}

fn words_after(fault: JournalFault) -> &'static [u8]
    ensures { result.now ≡ words_after fault }
{
    match fault {
        JournalFault::NotAnEntry { .. } => b": not an entry\n",
        JournalFault::Illegal { .. } => b": illegal\n",
        JournalFault::Incomplete { .. } => b"\n",
        JournalFault::Tail { .. } => b": accounts\n",
    }
}

/// Writes what is first at fault in a journal.
pub(crate) fn put_journal_fault<K: Sink>(out: &mut K, fault: JournalFault) -> Result<(), Unwritten>
    ensures puts { Puts (K.contents out.old) (K.contents out.new) (K.fault_count out.old) (K.fault_count out.new)
        (journal_line fault) result }
    ensures no_memory { IsErrOf result Memory → ⊥ }
{
    let mut digits = Buffer::new();
    let parts: [&[u8]; 4] = [
        b"journal: ",
        words_before(fault),
        digits.format(journal_number(fault)).as_bytes(),
        words_after(fault),
    ];
    put_parts(out, &parts)
}
