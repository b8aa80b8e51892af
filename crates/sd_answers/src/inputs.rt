//! Inputs read to their end: a workload, or a workload with the journal of a run.

ghost use Rattle.std.specs.Prelude.{◌≤◌, IfOk, IfSome, IfNone, length, take, drop};
ghost use Rattle.sd_answers.specs.Inputs.{IsReading, IsReadingCertificate, IsReadingBytes, IsReadingParts, IsReadingText};
ghost use Rattle.sd_answers.specs.Languages.{workloads};
ghost use Rattle.sd_answers.specs.StreamChanges.{change_of};
ghost use Rattle.sd_answers.specs.Cuts.{HasNoJournal, IsCut};

use crate::answers::Answer;
use crate::cuts::{Cut, find_cut};
use sd_text::{Source, read_all, read_up_to};
use sd_types::{MOST_CERTIFICATE_BYTES, MOST_WORKLOAD_BYTES, Work};
use sd_workload::read_work;
use std::alloc::Global;

/// A workload, and a text that may be the journal of a run of it.
#[derive(Drop)]
pub struct Certificate {
    pub work: Work,
    pub journal: Vec<u8>,
}

/// The bytes of a certificate, and where they are cut.
#[derive(Drop)]
pub struct Parts {
    pub bytes: Vec<u8>,
    pub cut: Cut,
}

/// The bytes of the input: the text of a workload, as far as its length goes.
pub fn read_text<S: Source>(alloc: Global, input: &mut S) -> Result<Vec<u8>, Answer>
    ensures { IsReadingText (change_of (S.remaining input.old) (S.remaining input.new) (S.fault_count input.old) (S.fault_count input.new)) result }
{
    Ok(read_all(alloc, input)?)
}

/// The workload that the input spells, or why there is none.
pub fn read_input<S: Source>(alloc: Global, input: &mut S) -> Result<Work, Answer>
    ensures { IsReading workloads (change_of (S.remaining input.old) (S.remaining input.new) (S.fault_count input.old) (S.fault_count input.new)) result }
{
    let bytes = read_text(alloc, input)?;
    Ok(read_work(alloc, &bytes)?)
}

/// The bytes of a certificate.
fn read_bytes<S: Source>(alloc: Global, input: &mut S) -> Result<Vec<u8>, Answer>
    ensures { IsReadingBytes (change_of (S.remaining input.old) (S.remaining input.new) (S.fault_count input.old) (S.fault_count input.new)) result }
{
    match read_up_to(alloc, input, MOST_CERTIFICATE_BYTES) {
        Ok(bytes) => Ok(bytes),
        Err(fault) => Err(Answer::of_unread_certificate(fault)),
    }
}

/// The bytes of the input, and where the line `journal` cuts them, or why they are no certificate: no such line, or too many bytes before it or
/// in all.
pub fn read_parts<S: Source>(alloc: Global, input: &mut S) -> Result<Parts, Answer>
    ensures { IsReadingParts (change_of (S.remaining input.old) (S.remaining input.new) (S.fault_count input.old) (S.fault_count input.new)) result }
{
    let bytes = read_bytes(alloc, input)?;
    let Some(cut) = find_cut(&bytes) else {
        return Err(Answer::NoJournal);
    };
    if MOST_WORKLOAD_BYTES < cut.workload_end {
        return Err(Answer::TooLarge);
    }
    Ok(Parts { bytes, cut })
}

/// The workload and the text behind the line `journal`, or why there is none.
pub fn read_certificate<S: Source>(alloc: Global, input: &mut S) -> Result<Certificate, Answer>
    ensures { IsReadingCertificate workloads (change_of (S.remaining input.old) (S.remaining input.new) (S.fault_count input.old) (S.fault_count input.new)) result }
{
    let Parts { bytes, cut } = read_parts(alloc, input)?;
    let work = read_work(alloc, &bytes[..cut.workload_end])?;
    let journal = Vec::from_slice(alloc, &bytes[cut.journal_start..])?;
    Ok(Certificate { work, journal })
}
