//! What will be seen of a thread that is about to wait for a lock, or to wait no longer, read before the event is made. A herd of threads
//! that wait for one lock makes long queues, and after the event the thread stands at their end: a look at it then would walk them.

ghost use Rattle.std.specs.Prelude.{◌≡◌, ◌<◌, IfSome, length};
ghost use Rattle.sd_state.specs.States.{thread_of};
ghost use Rattle.sd_stretches.specs.declared.sights.Doing.TheVariants.{Waiting};
ghost use Rattle.sd_stretches.specs.Sights.{sight_by};
ghost use Rattle.sd_world.specs.Plain.{Stands, told};
ghost use Rattle.sd_viewer.specs.Foreseen.{Foresees, woken_sight};

use sd_class::woken_class;
use sd_homes_replay::body_of;
use sd_stretches::{Doing, Sight, sight_by};
use sd_types::{Event, LockId, ThreadBody, ThreadId, Work};
use sd_world::PlainWorld;

// The body of a thread of the workload.
fn body_in<'a>(work: &Work, world: &'a PlainWorld, t: ThreadId) -> Option<&'a ThreadBody>
    requires stands { Stands work.now world.now }
    ensures { IfSome result (λ b. (t.0 < length (told work.now world.now).threads) × (b.now ≡ (thread_of (told work.now world.now) t.0).body)) }
{
    if work.threads.items().len() <= t.0 as usize {
        return None;
    }
    match body_of(work, world, t) {
        Some(body) => Some(body),
        None => None,
    }
}

fn blocked_sight(work: &Work, world: &PlainWorld, t: ThreadId, l: LockId) -> Option<Sight>
    requires stands { Stands work.now world.now }
    ensures { IfSome result (λ x. (t.0 < length (told work.now world.now).threads) × (x ≡ sight_by (thread_of (told work.now world.now) t.0).body (Waiting l))) }
{
    match body_in(work, world, t) {
        Some(body) => Some(sight_by(body, Doing::Waiting(l))),
        None => None,
    }
}

// A wakeup may lift a thread's own priority; it keeps those that it inherits.
fn sight_awake(work: &Work, body: &ThreadBody) -> Sight
    ensures { result ≡ woken_sight work.now body.now }
{
    let class = woken_class(work, body.class);
    let priority = body.effective_as(&class);
    Sight {
        priority,
        inherited: class.base() < priority,
        ..sight_by(body, Doing::Runnable)
    }
}

fn woken_sight(work: &Work, world: &PlainWorld, u: ThreadId) -> Option<Sight>
    requires stands { Stands work.now world.now }
    ensures { IfSome result (λ x. (u.0 < length (told work.now world.now).threads) × (x ≡ woken_sight work.now (thread_of (told work.now world.now) u.0).body)) }
{
    match body_in(work, world, u) {
        Some(body) => Some(sight_awake(work, body)),
        None => None,
    }
}

/// What is seen of the thread that the event names once it is made, where it comes to wait for a lock by it, or waits no longer. None of other
/// events: a look at the state after them says it.
pub(crate) fn foresee(work: &Work, world: &PlainWorld, event: &Event) -> Option<Sight>
    requires stands { Stands work.now world.now }
    ensures { IfSome result (Foresees work.now (told work.now world.now) event.now) }
{
    match *event {
        Event::Block { t, l } => blocked_sight(work, world, t, l),
        Event::Unblock { u, .. } => woken_sight(work, world, u),
        _ => None,
    }
}
