//! Where a thread ends: the first and the last of several places.

ghost use Rattle.std.specs.Prelude.{◌≡◌};
ghost use Rattle.sd_extremes.specs.Marks.{earlier, ended_if, later, with_mark};

use sd_types::{CpuId, Event, ThreadId};

/// Where a thread ends: in a state that was found, by the turn of a processor, which has counted so many ticks.
#[derive(Clone, Copy)]
pub(crate) struct Mark {
    pub tick: u32,
    pub state: usize,
    pub cpu: CpuId,
}

/// A first mark and a last one.
#[derive(Clone, Copy)]
pub(crate) struct Span {
    pub first: Mark,
    pub last: Mark,
}

fn earlier(a: Mark, b: Mark) -> Mark
    ensures { result ≡ earlier a b }
{
    if b.tick < a.tick { b } else { a }
}

fn later(a: Mark, b: Mark) -> Mark
    ensures { result ≡ later a b }
{
    if a.tick < b.tick { b } else { a }
}

/// The span with one mark more.
pub(crate) fn with_mark(span: Option<Span>, mark: Mark) -> Span
    ensures { result ≡ with_mark span mark }
{
    match span {
        None => Span {
            first: mark,
            last: mark,
        },
        Some(span) => Span {
            first: earlier(span.first, mark),
            last: later(span.last, mark),
        },
    }
}

/// The thread that an event ends.
pub(crate) fn ended(event: Option<Event>) -> Option<ThreadId>
    ensures { result ≡ ended_if event }
{
    match event {
        Some(Event::Done { t }) => Some(t),
        _ => None,
    }
}
