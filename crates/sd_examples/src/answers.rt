//! What is said of stored texts of an example: the answer of a search, the expansion of a task set, a report, and the jobs.

ghost use Rattle.std.specs.Prelude.{IfOk, codes, map, string_bytes};
ghost use Rattle.sd_examples.specs.Answers.{SaysOf, SaysOfCall};
ghost use Rattle.sd_examples.specs.Calls.{Expands, Finds, Views, ViewsWith, certificate_of};

use crate::calls::{Finished, call_view, call_view_with, certificate, expand, search};
use std::alloc::{AllocError, Global};
use std::fmt;

/// What a program says, and what is stored.
#[derive(Clone, Copy, Debug, PartialEq, Eq)]
pub enum Compared {
    /// It returned this status and wrote what is stored.
    Same { status: u8 },
    /// It returned this status and wrote something else.
    Other { status: u8 },
}

impl fmt::Display for Compared {
    fn fmt<W: fmt::Write>(&self, f: &mut fmt::Formatter<W>) -> fmt::Result {
        match self {
            Compared::Same { status } => write!(f, "as stored, status {status}"),
            Compared::Other { status } => write!(f, "not as stored, status {status}"),
        }
    }
}

/// Compares what a call wrote.
fn compare(call: &Finished, stored: &[u8]) -> Compared
    ensures { SaysOfCall call.now.out.held call.now.status stored.now result }
{
    let status = call.status;
    if call.out.bytes() == stored {
        Compared::Same { status }
    } else {
        Compared::Other { status }
    }
}

/// Searches the workload for what the arguments ask, and compares.
pub fn judge_search(
    alloc: Global,
    arguments: &[String],
    workload: &[u8],
    stored: &[u8],
) -> Result<Compared, AllocError>
    ensures { IfOk result (SaysOf (Finds (map string_bytes arguments.now) workload.now) stored.now) }
{
    let call = search(alloc, arguments, workload)?;
    Ok(compare(&call, stored))
}

/// Expands the task set, and compares.
pub fn judge_expansion(alloc: Global, set: &[u8], stored: &[u8]) -> Result<Compared, AllocError>
    ensures { IfOk result (SaysOf (Expands set.now) stored.now) }
{
    let call = expand(alloc, set)?;
    Ok(compare(&call, stored))
}

/// Reports the run of a workload or of a task set with this journal, and compares.
pub fn judge_report(
    alloc: Global,
    source: &[u8],
    journal: &[u8],
    stored: &[u8],
) -> Result<Compared, AllocError>
    ensures { IfOk result (SaysOf (Views (codes "report") (certificate_of source.now journal.now)) stored.now) }
{
    let certificate = certificate(alloc, source, journal)?;
    let call = call_view(alloc, "report", &certificate)?;
    Ok(compare(&call, stored))
}

/// Reports the jobs of this run, and compares.
pub fn judge_jobs(
    alloc: Global,
    source: &[u8],
    journal: &[u8],
    stored: &[u8],
) -> Result<Compared, AllocError>
    ensures { IfOk result (SaysOf (ViewsWith (codes "report") (codes "--jobs") (certificate_of source.now journal.now)) stored.now) }
{
    let certificate = certificate(alloc, source, journal)?;
    let call = call_view_with(alloc, "report", "--jobs", &certificate)?;
    Ok(compare(&call, stored))
}
