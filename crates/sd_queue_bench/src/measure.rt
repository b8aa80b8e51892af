//! The time that the calls of a queue take, and what stands in the queues whose middle is measured.
ghost use Rattle.std.specs.Prelude.{◌≡◌};

use crate::items::Tag;
use std::io;
use std::time::{Clock, Duration, Instant};

/// How many calls had their effect, and the time for each of them.
#[derive(Clone, Copy)]
pub struct Measured {
    pub done: u32,
    pub time: Duration,
}

/// How many boxes stand in a queue whose middle is measured.
pub const STANDING: u32 = 1_000;
/// How often each call is made there.
pub const CALLS: u32 = 100;

/// The id of those that come and go in the middle.
pub const GUEST: u32 = u32::MAX;

// The rank of all of them.
const RANK: u8 = 80;

/// The time since the start for each of so many calls.
pub fn time_of(clock: &impl Clock, start: Instant, done: u32) -> io::Result<Measured> {
    let time = match start.elapsed(clock)?.checked_div(done) {
        Some(time) => time,
        None => Duration::from_secs(0),
    };
    Ok(Measured { done, time })
}

/// One of those that stand. Their keys rise with their ids.
pub fn standing(id: u32) -> Tag
    ensures { result.rank ≡ 80 }
{
    Tag {
        rank: RANK,
        key: id as i64,
        id,
    }
}

/// One that comes behind half of those that stand.
pub fn guest() -> Tag
    ensures { result.rank ≡ 80 }
{
    Tag {
        rank: RANK,
        key: (STANDING / 2) as i64,
        id: GUEST,
    }
}
