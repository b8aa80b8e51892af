//! The numbers of an entry have as many bits as their types.

ghost use Rattle.std.specs.Prelude.{◌≡◌, true, nat_lt, ◌^◌};
ghost use Rattle.std.specs.List.{list_all};
ghost use Rattle.sd_entries.specs.Fitting.{event_in_range, hints_in_range, in_range, is_byte, prio_in_range};

use sd_types::{Entry, Event, Hints, PrioAnswer};

fn is_byte(_n: u8)
    ensures { is_byte _n ≡ true }
{}

fn is_count(_n: u32)
    ensures { nat_lt _n (2 ^ 32) ≡ true }
{}

fn is_number(_n: u64)
    ensures { nat_lt _n (2 ^ 64) ≡ true }
{}

fn prio_in_range(answer: PrioAnswer)
    ensures { prio_in_range answer ≡ true }
{
    match answer {
        PrioAnswer::Changed { p, .. } => is_byte(p),
        PrioAnswer::Refused(_) => (),
    }
}

fn event_in_range(event: &Event)
    ensures { event_in_range event.now ≡ true }
{
    match *event {
        Event::Dispatch { p, .. } => is_byte(p),
        Event::Steal { p, .. } => is_byte(p),
        Event::Will { p, .. } => is_byte(p),
        Event::Age { p, .. } => is_byte(p),
        Event::Prio { answer, .. } => prio_in_range(answer),
        Event::SemaVCount { count, .. } => is_count(count),
        _ => (),
    }
}

fn are_bytes(numbers: &[u8])
    ensures { list_all is_byte numbers.now ≡ true }
{
    for number in numbers {
        is_byte(*number);
    }
}

fn hints_in_range(hints: &Option<Hints>)
    ensures { hints_in_range hints.now ≡ true }
{
    match hints {
        None => (),
        Some(hints) => are_bytes(hints.numbers.as_slice()),
    }
}

/// The numbers of an entry have as many bits as their types.
#[tactic(auto, unfolding(sd_entries::specs::Fitting::in_range))]
pub fn in_range(entry: &Entry)
    ensures { in_range entry.now ≡ true }
{
    is_number(entry.number);
    event_in_range(&entry.event);
    hints_in_range(&entry.hints);
}
