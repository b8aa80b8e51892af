//! What a thread does, without where, and the spans over which it does it.

ghost use Rattle.std.specs.Prelude.{◌≡◌, ◌++◌, IfOk, OnOk};
ghost use Rattle.sd_statistics.specs.Activities.{is_of, span_if, span_of, spans_of};

use crate::spans::Span;
use sd_stretches::{Doing, Stretch};
use sd_types::LockId;
use std::alloc::{AllocError, Global};

/// What a thread does, on whatever processor, and for whatever lock or channel; or for one lock.
#[derive(Clone, Copy)]
pub enum Activity {
    Running,
    Spinning,
    Runnable,
    Waiting,
    Asleep,
    Napping,
    Ended,
    SpinningFor(LockId),
    WaitingFor(LockId),
}

fn is_of(activity: Activity, doing: Doing) -> bool
    ensures { result ≡ is_of activity doing }
{
    match (activity, doing) {
        (Activity::Running, Doing::Running(_)) => true,
        (Activity::Spinning, Doing::Spinning(_, _)) => true,
        (Activity::Runnable, Doing::Runnable) => true,
        (Activity::Waiting, Doing::Waiting(_)) => true,
        (Activity::Asleep, Doing::Asleep(_)) => true,
        (Activity::Napping, Doing::Napping) => true,
        (Activity::Ended, Doing::Ended) => true,
        (Activity::SpinningFor(l), Doing::Spinning(_, m)) => l.0 == m.0,
        (Activity::WaitingFor(l), Doing::Waiting(m)) => l.0 == m.0,
        _ => false,
    }
}

fn span_of(x: &Stretch) -> Span
    ensures { result ≡ span_of x.now }
{
    Span {
        thread: x.thread,
        first: x.first,
        last: x.last,
        from: x.from,
        to: x.to,
    }
}

// The span of the stretch, where it is of the activity.
fn push_span(activity: Activity, x: &Stretch, out: &mut Vec<Span>) -> Result<(), AllocError>
    ensures { OnOk result (out.new.items ≡ out.old.items ++ span_if activity x.now) }
{
    if is_of(activity, x.doing) {
        out.push(span_of(x))?;
    }
    Ok(())
}

/// The spans over which the activity lasts, in order, from stretches or their pieces.
#[tactic(auto, unfolding(crate::specs::Activities::spans_of))]
pub(crate) fn spans_of(
    alloc: Global,
    activity: Activity,
    pieces: &[Stretch],
) -> Result<Vec<Span>, AllocError>
    ensures { IfOk result (λ v. v.items ≡ spans_of activity pieces.now) }
{
    let mut found = Vec::new(alloc);
    for x in pieces {
        push_span(activity, x, &mut found)?;
    }
    Ok(found)
}
