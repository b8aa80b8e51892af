//! The words of a row.

ghost use Rattle.std.specs.Prelude.{◌≡◌, ◌++◌, OnOk};
ghost use Rattle.sd_report.specs.Words.{activity_object, activity_word, deed_word, holder, measure_object, measure_word, row_object, subject_name, subject_word};

use sd_statistics::{Activity, Deed, Measure, Row, Subject};
use sd_stretches::{chan_name, lock_name, thread_name};
use sd_text::put_number;
use sd_types::Work;
use std::alloc::AllocError;

/// Of what kind it is of which a row speaks.
pub(crate) fn subject_word(subject: Subject) -> &'static [u8]
    ensures { result.now ≡ subject_word subject }
{
    match subject {
        Subject::Thread(_) => b"thread",
        Subject::Cpu(_) => b"processor",
        Subject::Lock(_) => b"lock",
        Subject::Task(_, _) => b"task",
    }
}

/// Its name, and of a processor its number.
pub(crate) fn put_subject_name(
    work: &Work,
    subject: Subject,
    out: &mut Vec<u8>,
) -> Result<(), AllocError>
    ensures { OnOk result (out.new.items ≡ out.old.items ++ subject_name work.now subject) }
{
    match subject {
        Subject::Thread(t) => out.extend_from_slice(thread_name(work, t)),
        Subject::Cpu(c) => put_number(out, u64::from(c)),
        Subject::Lock(l) => out.extend_from_slice(lock_name(work, l)),
        Subject::Task(t, _) => out.extend_from_slice(thread_name(work, t)),
    }
}

fn activity_word(activity: Activity) -> &'static [u8]
    ensures { result.now ≡ activity_word activity }
{
    match activity {
        Activity::Running => b"running",
        Activity::Spinning => b"spinning",
        Activity::Runnable => b"runnable",
        Activity::Waiting => b"waiting",
        Activity::Asleep => b"asleep",
        Activity::Napping => b"napping",
        Activity::Ended => b"ended",
        Activity::SpinningFor(_) => b"spinning for",
        Activity::WaitingFor(_) => b"waiting for",
    }
}

fn deed_word(deed: Deed) -> &'static [u8]
    ensures { result.now ≡ deed_word deed }
{
    match deed {
        Deed::Runs => b"running",
        Deed::Spins => b"spinning",
        Deed::Idles => b"idle",
        Deed::Dispatches => b"dispatches",
        Deed::Steals => b"steals",
        Deed::Preempts => b"preemptions",
    }
}

/// What a row measures.
pub(crate) fn measure_word(measure: Measure) -> &'static [u8]
    ensures { result.now ≡ measure_word measure }
{
    match measure {
        Measure::Does(activity) => activity_word(activity),
        Measure::Twice => b"in two states",
        Measure::WakeupToRun => b"wakeup to run",
        Measure::Inherits => b"inherits",
        Measure::Makes(deed) => deed_word(deed),
        Measure::Held => b"held",
        Measure::Contended => b"contended",
        Measure::HandsOn => b"hands on",
        Measure::Responds => b"response",
        Measure::Unfinished => b"unfinished",
    }
}

fn activity_object(work: &Work, activity: Activity) -> &[u8]
    ensures { result.now ≡ activity_object work.now activity }
{
    match activity {
        Activity::SpinningFor(l) => lock_name(work, l),
        Activity::WaitingFor(l) => lock_name(work, l),
        _ => b"",
    }
}

// The lock of which a measure speaks; empty where it speaks of none.
fn measure_object(work: &Work, measure: Measure) -> &[u8]
    ensures { result.now ≡ measure_object work.now measure }
{
    match measure {
        Measure::Does(activity) => activity_object(work, activity),
        _ => b"",
    }
}

/// The lock of which a row speaks, or the semaphore of a task; empty where there is none.
pub(crate) fn row_object<'a>(work: &'a Work, x: &Row) -> &'a [u8]
    ensures { result.now ≡ row_object work.now x.now }
{
    match x.subject {
        Subject::Task(_, k) => chan_name(work, k),
        _ => measure_object(work, x.measure),
    }
}

/// Of a row of a lock, the thread of the longest; else empty.
pub(crate) fn holder<'a>(work: &'a Work, x: &Row) -> &'a [u8]
    ensures { result.now ≡ holder work.now x.now }
{
    match (x.subject, x.figures.longest) {
        (Subject::Lock(_), Some(longest)) => thread_name(work, longest.thread),
        _ => b"",
    }
}
