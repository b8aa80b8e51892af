//! The list and the key of a place.

ghost use Rattle.std.specs.Prelude.{◌≡◌, int_le, pos};
ghost use Rattle.sd_homes.specs.Standing.{list_at, record_key};

use crate::ListId;
use sd_record::Record;
use sd_state::Place;
use sd_types::CpuId;

/// Where a thread in this place stands, which ran last on this processor.
#[inline(always)]
pub fn list_at(last: CpuId, place: Place) -> ListId
    ensures { result ≡ list_at last place }
{
    match place {
        Place::Running(c) => ListId::Runs(c),
        Place::Queued(c, _) => ListId::Queues(c),
        Place::RealTime(p, _) => ListId::Urgent(p),
        Place::Waiting(l, side, _) => ListId::Waits(l, side),
        Place::Asleep(k, _) => ListId::Sleeps(k),
        Place::Napping(c, _) => ListId::Naps(c),
        Place::Ended => ListId::Ends(last),
    }
}

/// The key of the record of a thread in this place.
#[inline(always)]
pub fn record_key(place: Place) -> i64
    ensures { result ≡ record_key place }
{
    match place {
        Place::Queued(_, key) => key,
        Place::RealTime(_, key) => key,
        Place::Waiting(_, _, key) => key,
        Place::Asleep(_, key) => key,
        Place::Napping(_, due) => i64::from(due),
        Place::Running(_) => 0,
        Place::Ended => 0,
    }
}

/// Whether the nap of this thread is over at this count.
#[inline(always)]
pub fn is_over(napper: &Record, count: u32) -> bool
    ensures { result ≡ int_le napper.now.key (pos count) }
{
    napper.kept.key <= i64::from(count)
}
