//! Of which counts an event is.

ghost use Rattle.std.specs.Prelude.{◌≡◌, option_map};
ghost use Rattle.sd_state.specs.Accounts.{is_dispatch_of, is_idle, is_preempt_of, is_tick_of, is_wake_of};
ghost use Rattle.sd_machine.specs.Accounts.{is_block, is_dispatch, is_preempt, is_steal, is_wake, is_will};
ghost use Rattle.sd_accounts.specs.Counters.{counted_thread};

use sd_types::{Event, ThreadId};

#[inline(always)]
pub(crate) fn is_tick_of(t: ThreadId, event: &Event) -> bool
    ensures { result ≡ is_tick_of t.0 event.now }
{
    match event {
        Event::Tick { t: u } => u.0 == t.0,
        Event::Spin { t: u, .. } => u.0 == t.0,
        _ => false,
    }
}

#[inline(always)]
pub(crate) fn is_dispatch_of(t: ThreadId, event: &Event) -> bool
    ensures { result ≡ is_dispatch_of t.0 event.now }
{
    match event {
        Event::Dispatch { t: u, .. } => u.0 == t.0,
        Event::Steal { t: u, .. } => u.0 == t.0,
        _ => false,
    }
}

#[inline(always)]
pub(crate) fn is_preempt_of(t: ThreadId, event: &Event) -> bool
    ensures { result ≡ is_preempt_of t.0 event.now }
{
    match event {
        Event::Preempt { t: u, .. } => u.0 == t.0,
        Event::Away { t: u, .. } => u.0 == t.0,
        _ => false,
    }
}

#[inline(always)]
pub(crate) fn is_wake_of(t: ThreadId, event: &Event) -> bool
    ensures { result ≡ is_wake_of t.0 event.now }
{
    match event {
        Event::Napend { t: u, .. } => u.0 == t.0,
        Event::Wake {
            woken: Some((u, _)),
            ..
        } => u.0 == t.0,
        Event::Rouse {
            woken: Some((u, _)),
            ..
        } => u.0 == t.0,
        Event::Unblock { u, .. } => u.0 == t.0,
        Event::Grant { u, .. } => u.0 == t.0,
        Event::SemaVWake { u, .. } => u.0 == t.0,
        _ => false,
    }
}

#[inline(always)]
pub(crate) fn is_idle(event: &Event) -> bool
    ensures { result ≡ is_idle event.now }
{
    matches!(event, Event::Idle)
}

#[inline(always)]
pub(crate) fn is_dispatch(event: &Event) -> bool
    ensures { result ≡ is_dispatch event.now }
{
    matches!(event, Event::Dispatch { .. } | Event::Steal { .. })
}

#[inline(always)]
pub(crate) fn is_steal(event: &Event) -> bool
    ensures { result ≡ is_steal event.now }
{
    matches!(event, Event::Steal { .. })
}

#[inline(always)]
pub(crate) fn is_preempt(event: &Event) -> bool
    ensures { result ≡ is_preempt event.now }
{
    matches!(event, Event::Preempt { .. } | Event::Away { .. })
}

#[inline(always)]
pub(crate) fn is_wake(event: &Event) -> bool
    ensures { result ≡ is_wake event.now }
{
    match event {
        Event::Napend { .. } => true,
        Event::Wake { woken: Some(_), .. } => true,
        Event::Rouse { woken: Some(_), .. } => true,
        Event::Unblock { .. } => true,
        Event::Grant { .. } => true,
        Event::SemaVWake { .. } => true,
        _ => false,
    }
}

#[inline(always)]
pub(crate) fn is_block(event: &Event) -> bool
    ensures { result ≡ is_block event.now }
{
    matches!(event, Event::Block { .. })
}

#[inline(always)]
pub(crate) fn is_will(event: &Event) -> bool
    ensures { result ≡ is_will event.now }
{
    matches!(event, Event::Will { .. })
}

/// The one thread of whose accounts the event is, where it is of any: the one that ticks, is dispatched, preempted or
/// woken.
#[inline(always)]
pub(crate) fn counted_thread(event: &Event) -> Option<ThreadId>
    ensures { option_map (λ t. t.0) result ≡ counted_thread event.now }
{
    match event {
        Event::Tick { t } => Some(*t),
        Event::Spin { t, .. } => Some(*t),
        Event::Dispatch { t, .. } => Some(*t),
        Event::Steal { t, .. } => Some(*t),
        Event::Preempt { t, .. } => Some(*t),
        Event::Away { t, .. } => Some(*t),
        Event::Napend { t, .. } => Some(*t),
        Event::Wake {
            woken: Some((u, _)),
            ..
        } => Some(*u),
        Event::Rouse {
            woken: Some((u, _)),
            ..
        } => Some(*u),
        Event::Unblock { u, .. } => Some(*u),
        Event::Grant { u, .. } => Some(*u),
        Event::SemaVWake { u, .. } => Some(*u),
        _ => None,
    }
}
