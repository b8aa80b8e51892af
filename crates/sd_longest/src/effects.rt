//! What an event does to the waits of a thread that was woken.

ghost use Rattle.std.specs.Prelude.{◌≡◌};
ghost use Rattle.sd_longest.specs.Effects.{effect_of};
ghost use Rattle.sd_longest.specs.Waits.{run_by};

use crate::Effect;
use sd_stretches::{is_that_thread, woken_by};
use sd_types::{Event, ThreadId};

/// The thread that an event makes run.
fn run_by(event: &Event) -> Option<ThreadId>
    ensures { result ≡ run_by event.now }
{
    match *event {
        Event::Dispatch { t, .. } => Some(t),
        Event::Steal { t, .. } => Some(t),
        _ => None,
    }
}

/// A wakeup of the thread opens a wait, its running ends each.
pub(crate) fn effect_of(thread: ThreadId, event: &Event) -> Effect
    ensures { result ≡ effect_of thread event.now }
{
    if is_that_thread(thread, run_by(event)) {
        Effect::Ends
    } else if is_that_thread(thread, woken_by(event)) {
        Effect::Opens
    } else {
        Effect::Passes
    }
}
