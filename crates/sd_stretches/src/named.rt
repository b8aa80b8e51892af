//! Which threads an event names, and which of them it may alter.

ghost use Rattle.std.specs.Prelude.{◌≡◌, Some, option_map};
ghost use Rattle.sd_frames.specs.Altered.{altered};
ghost use Rattle.sd_stretches.specs.Named.{first_named, second_named};

use sd_types::{Event, Put, ThreadId};

fn woken_thread(woken: Option<(ThreadId, Put)>) -> Option<ThreadId>
    ensures { result ≡ option_map (λ x. x.0) woken }
{
    match woken {
        Some((u, _)) => Some(u),
        None => None,
    }
}

/// The thread that an event names first: the acting one, or one that a processor moves.
pub fn first_named(event: &Event) -> Option<ThreadId>
    ensures { result ≡ first_named event.now }
{
    match *event {
        Event::Idle | Event::End { .. } | Event::Passed { .. } | Event::Joined { .. } => None,
        Event::Tick { t }
        | Event::Spin { t, .. }
        | Event::Dispatch { t, .. }
        | Event::Steal { t, .. }
        | Event::Preempt { t, .. }
        | Event::Away { t, .. }
        | Event::Yield { t }
        | Event::Done { t }
        | Event::Nap { t }
        | Event::Napend { t, .. }
        | Event::Sleep { t, .. }
        | Event::Wake { t, .. }
        | Event::Wakeall { t, .. }
        | Event::Enter { t, .. }
        | Event::Read { t, .. }
        | Event::Write { t, .. }
        | Event::Block { t, .. }
        | Event::Exit { t, .. }
        | Event::Age { t, .. }
        | Event::Prio { t, .. }
        | Event::CvWait { t, .. }
        | Event::SemaP { t, .. }
        | Event::SemaWait { t, .. }
        | Event::SemaVWake { t, .. }
        | Event::SemaVCount { t, .. }
        | Event::Assign { t, .. }
        | Event::Move { t, .. }
        | Event::Bind { t, .. } => Some(t),
        Event::Will { o, .. } => Some(o),
        Event::Unblock { u, .. } | Event::Grant { u, .. } => Some(u),
        Event::Rouse { woken, .. } => woken_thread(woken),
    }
}

/// The thread that it names beside it.
pub fn second_named(event: &Event) -> Option<ThreadId>
    ensures { result ≡ second_named event.now }
{
    match *event {
        Event::Wake { woken, .. } => woken_thread(woken),
        Event::Prio { u, .. } | Event::SemaVWake { u, .. } | Event::Bind { u, .. } => Some(u),
        _ => None,
    }
}

fn index_of(t: ThreadId) -> Option<usize>
    ensures { result ≡ Some t.0 }
{
    Some(t.0 as usize)
}

/// The thread that an event may alter: its place, its class state or the priorities that it inherits.
pub fn altered(event: &Event) -> Option<usize>
    ensures { result ≡ altered event.now }
{
    match *event {
        Event::Wakeall { .. }
        | Event::Enter { .. }
        | Event::Read { .. }
        | Event::Write { .. }
        | Event::SemaP { .. }
        | Event::SemaVCount { .. }
        | Event::Assign { .. } => None,
        Event::Wake { .. } | Event::Prio { .. } | Event::SemaVWake { .. } | Event::Bind { .. } =>
            index_of(second_named(event)?),
        _ => index_of(first_named(event)?),
    }
}
