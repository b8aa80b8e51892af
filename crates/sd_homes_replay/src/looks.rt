//! Looks at the state to which the entries of a run led. All homes are there, so that no look lacks anything; a number that is out of
//! range reads what the definitions of the state say of it.

ghost use Rattle.std.specs.Prelude.{◌≡◌, ◌<◌, option_copied, option_map, unwrap_or};
ghost use Rattle.sd_state.specs.States.{cpu_of, eff_of, no_body, thread_of};
ghost use Rattle.sd_machine.specs.Locking.{others_waiting as others_of};
ghost use Rattle.sd_machine.specs.Threads.{count_of as tokens_in, greatest_waiting as greatest_of, has_waiters as have_waiters, lock_of as lock_in, runner};
ghost use Rattle.sd_store.specs.Keyless.{spot_of as spot_at};
ghost use Rattle.sd_store.specs.Parts.{number};
ghost use Rattle.sd_world.specs.Plain.{Stands, told};

use sd_state::LockState;
use sd_store::{Look, Spot};
use sd_types::{ChanId, CpuId, Duty, LockId, ThreadBody, ThreadId, Work};
use sd_world::PlainWorld;

/// The thread that runs on processor `c`.
pub fn runner_of(work: &Work, world: &PlainWorld, c: CpuId) -> Option<ThreadId>
    requires stands { Stands work.now world.now }
    requires cpu { c.0 < work.now.cpus }
    ensures { option_map number result ≡ runner (told work.now world.now) c.0 }
{
    match world.acting.runner(c) {
        Ok(found) => found,
        Err(_) => unreachable!(),
    }
}

/// The state of lock `l`; of a number that is out of range a free one.
pub fn lock_of(work: &Work, world: &PlainWorld, l: LockId) -> LockState
    requires stands { Stands work.now world.now }
    ensures { result ≡ lock_in (told work.now world.now) l.0 }
{
    match world.acting.lock(l) {
        Ok(lock) => lock,
        Err(_) => unreachable!(),
    }
}

/// Somebody waits for lock `l`, on either side.
pub fn has_waiters(work: &Work, world: &PlainWorld, l: LockId) -> bool
    requires stands { Stands work.now world.now }
    ensures { result ≡ have_waiters (told work.now world.now) l.0 }
{
    match world.acting.has_waiters(l) {
        Ok(waits) => waits,
        Err(_) => unreachable!(),
    }
}

/// The greatest effective priority of those who wait for lock `l`; None where nobody waits.
pub fn greatest_waiting(work: &Work, world: &PlainWorld, l: LockId) -> Option<u8>
    requires stands { Stands work.now world.now }
    ensures { result ≡ greatest_of l.0 (told work.now world.now).threads }
{
    match world.acting.greatest_waiting(l) {
        Ok(greatest) => greatest,
        Err(_) => unreachable!(),
    }
}

/// The same of all but thread `u`.
pub fn others_waiting(work: &Work, world: &PlainWorld, l: LockId, u: ThreadId) -> Option<u8>
    requires stands { Stands work.now world.now }
    ensures { result ≡ others_of (told work.now world.now) l u.0 }
{
    match world.acting.others_waiting(l, u) {
        Ok(greatest) => greatest,
        Err(_) => unreachable!(),
    }
}

/// The count of semaphore `k`; of a number that is out of range 0.
pub fn tokens_of(work: &Work, world: &PlainWorld, k: ChanId) -> u32
    requires stands { Stands work.now world.now }
    ensures { result ≡ tokens_in (told work.now world.now) k.0 }
{
    match world.acting.tokens(k) {
        Ok(tokens) => tokens,
        Err(_) => unreachable!(),
    }
}

/// The body of thread `t`; None where there is no such thread.
pub fn body_of<'a>(work: &Work, world: &'a PlainWorld, t: ThreadId) -> Option<&'a ThreadBody>
    requires stands { Stands work.now world.now }
    ensures { unwrap_or (option_copied result) no_body ≡ (thread_of (told work.now world.now) t.0).body }
{
    match world.acting.body(t) {
        Ok(body) => body,
        Err(_) => None,
    }
}

/// The effective priority of thread `t`; of a number that is out of range that of a thread that has ended.
pub fn effective_of(work: &Work, world: &PlainWorld, t: ThreadId) -> u8
    requires stands { Stands work.now world.now }
    ensures { result ≡ eff_of (told work.now world.now) t.0 }
{
    match body_of(work, world, t) {
        Some(body) => body.effective(),
        None => 60,
    }
}

/// Where thread `t` stands; a number that is out of range has ended.
pub fn spot_of(work: &Work, world: &PlainWorld, t: ThreadId) -> Spot
    requires stands { Stands work.now world.now }
    ensures { result ≡ spot_at (thread_of (told work.now world.now) t.0).place }
{
    match world.acting.spot(t) {
        Ok(spot) => spot,
        Err(_) => Spot::Ended,
    }
}

/// The ticks that processor `c` has counted; of a number that is out of range 0.
pub fn count_of(work: &Work, world: &PlainWorld, c: CpuId) -> u32
    requires stands { Stands work.now world.now }
    ensures { result ≡ (cpu_of (told work.now world.now) c.0).count }
{
    match world.actors.get(c.0 as usize) {
        Some(actor) => actor.count,
        None => 0,
    }
}

/// The duty of processor `c`; a number that is out of range has none.
pub fn duty_of(work: &Work, world: &PlainWorld, c: CpuId) -> Duty
    requires stands { Stands work.now world.now }
    ensures { result ≡ (cpu_of (told work.now world.now) c.0).duty }
{
    match world.actors.get(c.0 as usize) {
        Some(actor) => actor.duty,
        None => Duty::Nothing,
    }
}
