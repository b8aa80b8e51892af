//! What is said of an example.

ghost use Rattle.std.specs.Prelude.{IfOk};
ghost use Rattle.std.specs.Option.{option_copied};
ghost use Rattle.sd_examples.specs.Calls.{certificate_of};
ghost use Rattle.sd_examples.specs.Verdicts.{Says, SaysOfCertificate, SaysOfRun, SaysOfTrace};

use crate::calls::{Outcome, certificate, draw, run};
use crate::traces::count_events;
use std::alloc::{AllocError, Global};
use std::fmt;

/// What is said of a workload, its stored picture and, where one is stored, its trace, of the stored journal or that of its run.
/// What is told is the first that differs.
#[derive(Clone, Copy, Debug, PartialEq, Eq)]
pub enum Verdict {
    /// The picture and the trace are as stored, and the trace is JSON with an array of so many events.
    Same { events: usize },
    /// `dispsim run` returned this status, and there is no journal.
    NotRun { status: u8 },
    /// `dispview timeline` returned this status.
    NotDrawn { status: u8 },
    /// The picture is not the one stored.
    OtherPicture,
    /// `dispview trace` returned this status.
    NotTraced { status: u8 },
    /// The trace is no JSON with an array of events.
    NotJson,
    /// The trace is not the one stored.
    OtherTrace,
}

impl fmt::Display for Verdict {
    fn fmt<W: fmt::Write>(&self, f: &mut fmt::Formatter<W>) -> fmt::Result {
        match self {
            Verdict::Same { events } => write!(f, "picture as stored, trace of {events} events"),
            Verdict::NotRun { status } => write!(f, "dispsim run ends with status {status}"),
            Verdict::NotDrawn { status } => {
                write!(f, "dispview timeline ends with status {status}")
            }
            Verdict::OtherPicture => write!(f, "the picture is not the one stored"),
            Verdict::NotTraced { status } => {
                write!(f, "dispview trace ends with status {status}")
            }
            Verdict::NotJson => write!(f, "the trace is no JSON with an array traceEvents"),
            Verdict::OtherTrace => write!(f, "the trace is not the one stored"),
        }
    }
}

fn judge_trace(
    alloc: Global,
    certificate: &[u8],
    stored: Option<&[u8]>,
) -> Result<Verdict, AllocError>
    ensures { IfOk result (SaysOfTrace certificate.now (option_copied stored.entry)) }
{
    let trace = match draw(alloc, "trace", certificate)? {
        Outcome::Wrote(trace) => trace,
        Outcome::Refused { status } => return Ok(Verdict::NotTraced { status }),
    };
    let text = trace.bytes();
    let Some(events) = count_events(alloc, text)? else {
        return Ok(Verdict::NotJson);
    };
    match stored {
        Some(stored) if text != stored => Ok(Verdict::OtherTrace),
        _ => Ok(Verdict::Same { events }),
    }
}

fn judge_certificate(
    alloc: Global,
    certificate: &[u8],
    picture: &[u8],
    trace: Option<&[u8]>,
) -> Result<Verdict, AllocError>
    ensures { IfOk result (SaysOfCertificate certificate.now picture.now (option_copied trace.entry)) }
{
    let drawn = match draw(alloc, "timeline", certificate)? {
        Outcome::Wrote(drawn) => drawn,
        Outcome::Refused { status } => return Ok(Verdict::NotDrawn { status }),
    };
    if drawn.bytes() != picture {
        return Ok(Verdict::OtherPicture);
    }
    judge_trace(alloc, certificate, trace)
}

// Draws the run of the workload with a journal, and compares.
fn judge_journal(
    alloc: Global,
    workload: &[u8],
    journal: &[u8],
    picture: &[u8],
    trace: Option<&[u8]>,
) -> Result<Verdict, AllocError>
    ensures { IfOk result (SaysOfCertificate (certificate_of workload.now journal.now) picture.now (option_copied trace.entry)) }
{
    let certificate = certificate(alloc, workload, journal)?;
    judge_certificate(alloc, &certificate, picture, trace)
}

// Runs the workload, draws its run, and compares.
fn judge_run(
    alloc: Global,
    workload: &[u8],
    picture: &[u8],
    trace: Option<&[u8]>,
) -> Result<Verdict, AllocError>
    ensures { IfOk result (SaysOfRun workload.now picture.now (option_copied trace.entry)) }
{
    let journal = match run(alloc, workload)? {
        Outcome::Wrote(journal) => journal,
        Outcome::Refused { status } => return Ok(Verdict::NotRun { status }),
    };
    judge_journal(alloc, workload, journal.bytes(), picture, trace)
}

/// Draws the run of the workload, or that which the stored journal tells, and compares.
pub fn judge(
    alloc: Global,
    workload: &[u8],
    journal: Option<&[u8]>,
    picture: &[u8],
    trace: Option<&[u8]>,
) -> Result<Verdict, AllocError>
    ensures { IfOk result (Says workload.now (option_copied journal.entry) picture.now (option_copied trace.entry)) }
{
    match journal {
        Some(journal) => judge_journal(alloc, workload, journal, picture, trace),
        None => judge_run(alloc, workload, picture, trace),
    }
}
