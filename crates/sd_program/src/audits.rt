//! The audit of a journal that stands behind its workload in one input.

ghost use Rattle.std.specs.Prelude.{◌≡◌, IfOk, IsErrOf};
ghost use Rattle.sd_answers.specs.declared.writing.Unwritten.TheVariants.{Memory};
ghost use Rattle.sd_answers.specs.Answers.{answer_of};
ghost use Rattle.sd_answers.specs.StreamChanges.{LeavesHeld, Puts, change_of};
ghost use Rattle.sd_answers.specs.Handing.{LeavesHeldBy};
ghost use Rattle.sd_program.specs.AuditAnswers.{CausedByAudit, IsLegalReading, legal_text};

use sd_answers::{Answer, Unwritten, print_line, read_certificate};
use sd_audit::audit;
use sd_text::{Sink, Source, put_number};
use std::alloc::{AllocError, Global};

/// The line that says that a journal is that of a complete run of so many entries.
fn legal_line(alloc: Global, entries: u64) -> Result<Vec<u8>, AllocError>
    ensures { IfOk result (λ line. line.items ≡ legal_text entries) }
{
    let mut line = Vec::new(alloc);
    line.extend_from_slice(b"legal ")?;
    put_number(&mut line, entries)?;
    line.extend_from_slice(b"\n")?;
    Ok(line)
}

/// Writes that line and hands it on. Memory is taken before the first byte is written.
fn print_legal<K: Sink>(alloc: Global, entries: u64, out: &mut K) -> Result<(), Unwritten>
    ensures puts { Puts (K.contents out.old) (K.contents out.new) (K.fault_count out.old) (K.fault_count out.new) (legal_text entries) result }
    ensures kept { IsErrOf result Memory → K.contents out.new ≡ K.contents out.old }
    ensures leaves { LeavesHeld (K.held_back out.old) (K.held_back out.new) result }
{
    let line = legal_line(alloc, entries)?;
    print_line(out, &line)
}

/// How many entries the run has whose journal the input holds behind its workload, or why it holds none.
fn judge_input<S: Source>(alloc: Global, input: &mut S) -> Result<u64, Answer>
    ensures { IsLegalReading (change_of (S.remaining input.old) (S.remaining input.new) (S.fault_count input.old) (S.fault_count input.new)) result }
{
    let certificate = read_certificate(alloc, input)?;
    let (_, entries) = audit(alloc, &certificate.work, &certificate.journal)?;
    Ok(entries)
}

/// Reads a workload and a journal, and writes how many entries the journal has where it is that of a complete run.
pub(crate) fn audit_input<S: Source, K: Sink>(
    alloc: Global,
    input: &mut S,
    out: &mut K,
) -> Result<(), Answer>
    ensures caused { CausedByAudit
        (change_of (S.remaining input.old) (S.remaining input.new) (S.fault_count input.old) (S.fault_count input.new))
        (change_of (K.contents out.old) (K.contents out.new) (K.fault_count out.old) (K.fault_count out.new))
        (answer_of result) }
    ensures leaves { LeavesHeldBy (answer_of result) (K.held_back out.old) (K.held_back out.new) }
{
    let entries = judge_input(alloc, input)?;
    print_legal(alloc, entries, out)?;
    Ok(())
}
