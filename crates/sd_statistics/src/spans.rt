//! Spans of a run: how many there are, how long they are together, and the longest.

ghost use Rattle.std.specs.Prelude.{◌≡◌, ◌++◌, IfOk, OnOk, sum_by};
ghost use Rattle.sd_statistics.specs.Spans.{at_most_u64, longer, longest, state_after, summary_of, ticks_of};

/// A part of a run that is a thread's: from the state that `first` entries made up to the one that `last` entries made, and from
/// one count of ticks to another. Each is the count of the processor that made the entry; where the processor that ends a span
/// is a tick behind, `to` is less than `from`, and the span takes no tick.
#[derive(Clone, Copy)]
pub struct Span {
    pub thread: usize,
    pub first: u64,
    pub last: u64,
    pub from: u32,
    pub to: u32,
}

/// How many spans there are, the sum of their ticks, and the first of the longest.
#[derive(Clone, Copy)]
pub struct Summary {
    pub number: u64,
    pub ticks: u64,
    pub longest: Option<Span>,
}

/// The ticks of a span.
pub fn ticks_of(x: Span) -> u32
    ensures { result ≡ ticks_of x }
{
    x.to.saturating_sub(x.from)
}

/// The number of the state that an entry made.
pub(crate) fn state_after(entry: u64) -> u64
    ensures { result ≡ state_after entry }
{
    entry.saturating_add(1)
}

fn longer(x: Option<Span>, y: Option<Span>) -> Option<Span>
    ensures { result ≡ longer x y }
{
    match (x, y) {
        (None, _) => y,
        (Some(a), Some(b)) if ticks_of(a) < ticks_of(b) => y,
        _ => x,
    }
}

// The first of the longest.
#[tactic(auto, unfolding(crate::specs::Spans::longest))]
fn longest(spans: &[Span]) -> Option<Span>
    ensures { result ≡ longest spans.now }
{
    let mut best = None;
    let mut left = spans;
    while let Some((x, rest)) = left.split_first() {
        best = longer(best, Some(*x));
        left = rest;
    }
    best
}

// The ticks of all, or the greatest number of 64 bits.
fn total(spans: &[Span]) -> u64
    ensures { result ≡ at_most_u64 (sum_by ticks_of spans.now) }
{
    let mut ticks = 0u64;
    for x in spans {
        ticks = ticks.saturating_add(u64::from(ticks_of(*x)));
    }
    ticks
}

/// The number of the spans, their ticks, and the first of the longest.
#[tactic(auto, unfolding(crate::specs::Spans::summary_of))]
pub fn summary_of(spans: &[Span]) -> Summary
    ensures { result ≡ summary_of spans.now }
{
    Summary {
        number: spans.len() as u64,
        ticks: total(spans),
        longest: longest(spans),
    }
}
