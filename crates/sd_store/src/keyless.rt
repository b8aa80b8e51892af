//! Places and duties with the keys that an entry gives them, and duties without. No event sees a key, so every store makes
//! its keys by these.

ghost use Rattle.std.specs.Prelude.{◌≡◌, ◌<◌, ◌^◌};
ghost use Rattle.sd_types.specs.declared.events.Duty.TheVariants.{Rouse, Walk};
ghost use Rattle.sd_machine.specs.Changes.{back_key, key_at, place_put};
ghost use Rattle.sd_machine.specs.Sleeping.{rouse_key};
ghost use Rattle.sd_state.specs.States.{set_of};
ghost use Rattle.sd_store.specs.Keyless.{duty_of, place_by, task_of};

use crate::{Chore, Destination, Task};
use sd_state::Place;
use sd_types::{ChanId, CpuId, Duty, End, LockId, Put, SetId, ThreadId, Work};

/// Keys are not below it at the back of a queue, and below it where a run begins.
const FIRST_BACK_KEY: i64 = 4096;

/// The key of a thread that entry `number` puts at the back of a queue.
fn back_key(number: u64) -> i64
    requires { number < 2 ^ 62 }
    ensures { result ≡ back_key number }
{
    FIRST_BACK_KEY + number as i64
}

/// The key of a thread that entry `number` puts at an end of a queue.
fn key_at(number: u64, end: End) -> i64
    requires { number < 2 ^ 62 }
    ensures { result ≡ key_at number end }
{
    match end {
        End::Back => back_key(number),
        End::Front => -1 - number as i64,
    }
}

/// The place to which a thread goes by entry `number` when it leaves processor `c`.
pub fn place_by(number: u64, c: CpuId, to: Destination) -> Place
    requires { number < 2 ^ 62 }
    ensures { result ≡ place_by number c to }
{
    match to {
        Destination::Queue(d, end) => Place::Queued(d, key_at(number, end)),
        Destination::RealTime(p, end) => Place::RealTime(p, key_at(number, end)),
        Destination::Turnstile(l, side) => Place::Waiting(l, side, back_key(number)),
        Destination::SleepQueue(k) => Place::Asleep(k, back_key(number)),
        Destination::Nap(due) => Place::Napping(c, due),
        Destination::Nowhere => Place::Ended,
    }
}

/// The partition of a thread, which its declaration names.
pub fn set_of(work: &Work, t: ThreadId) -> SetId
    ensures { result ≡ set_of work.now t.0 }
{
    match work.threads.items().get(t.0 as usize) {
        Some(decl) => decl.set,
        None => SetId(0),
    }
}

/// The place to which entry `number` puts a thread.
pub fn place_put(work: &Work, number: u64, t: ThreadId, at: Put) -> Place
    requires { number < 2 ^ 62 }
    ensures { result ≡ place_put work.now number t.0 at }
{
    let key = back_key(number);
    match at {
        Put::Cpu(x) => Place::Queued(x, key),
        Put::RealTime(_) => Place::RealTime(set_of(work, t), key),
    }
}

/// The duty that has no key.
pub fn duty_of(chore: Chore) -> Duty
    ensures { result ≡ duty_of chore }
{
    match chore {
        Chore::Nothing => Duty::Nothing,
        Chore::WakeMutex(l) => Duty::WakeMutex(l),
        Chore::GrantWriter(l) => Duty::GrantWriter(l),
        Chore::GrantReaders(l) => Duty::GrantReaders(l),
        Chore::Age(u) => Duty::Age(u),
    }
}

/// A duty without its key.
pub fn task_of(duty: Duty) -> Task
    ensures { result ≡ task_of duty }
{
    match duty {
        Duty::Nothing => Task::Nothing,
        Duty::Walk { lock, seek, .. } => Task::Walk { lock, seek },
        Duty::WakeMutex(l) => Task::WakeMutex(l),
        Duty::GrantWriter(l) => Task::GrantWriter(l),
        Duty::GrantReaders(l) => Task::GrantReaders(l),
        Duty::Rouse(k, _) => Task::Rouse(k),
        Duty::Age(u) => Task::Age(u),
    }
}

/// The duty of entry `number` to wake all that sleep on channel `k`.
pub fn rouse(number: u64, k: ChanId) -> Duty
    requires { number < 2 ^ 62 }
    ensures { result ≡ Rouse k (back_key number) }
{
    Duty::Rouse(k, back_key(number))
}

/// The duty of entry `number` to walk on from lock `l`, for which that entry lets thread `t` wait.
pub fn walk(number: u64, l: LockId, t: ThreadId) -> Duty
    requires { number < 2 ^ 62 }
    ensures { result ≡ Walk l t (back_key number) }
{
    Duty::Walk {
        lock: l,
        seek: t,
        key: back_key(number),
    }
}

/// The number of a duty to wake sleepers, below which their keys are.
pub fn rouse_key(duty: Duty) -> i64
    ensures { result ≡ rouse_key duty }
{
    match duty {
        Duty::Rouse(_, below) => below,
        _ => 0,
    }
}
