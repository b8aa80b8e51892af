//! Walks along a chain of owners, of which the processor that acts has the key.

ghost use Rattle.std.specs.Prelude.{◌≡◌, option_copied};
ghost use Rattle.sd_hand.specs.Walking.{next_walk_at, walk_at};

use sd_homes::ListId;
use sd_record::Record;
use sd_types::{Duty, ThreadId};

/// The walk that begins where the thread waits, which was found in this list.
pub(crate) fn walk_at(t: ThreadId, at: ListId, found: Option<&Record>) -> Option<Duty>
    ensures { result ≡ walk_at t at (option_copied found.entry) }
{
    match (at, found) {
        (ListId::Waits(lock, _), Some(thread)) => Some(Duty::Walk {
            lock,
            seek: t,
            key: thread.kept.key,
        }),
        _ => None,
    }
}

/// The walk that goes on from the owner `o`, which was found in this list.
pub(crate) fn next_walk_at(duty: Duty, o: ThreadId, at: ListId, found: Option<&Record>) -> Duty
    ensures { result ≡ next_walk_at duty o at (option_copied found.entry) }
{
    match (duty, at, found) {
        (Duty::Walk { seek, key, .. }, ListId::Waits(lock, _), Some(owner)) => {
            if owner.kept.body.looped || seek.0 == o.0 && key == owner.kept.key {
                Duty::Nothing
            } else if key < owner.kept.key {
                Duty::Walk {
                    lock,
                    seek: o,
                    key: owner.kept.key,
                }
            } else {
                Duty::Walk { lock, seek, key }
            }
        }
        _ => Duty::Nothing,
    }
}
