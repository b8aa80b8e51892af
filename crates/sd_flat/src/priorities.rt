//! The priorities of those who wait for a lock, and what they leave of a thread's priority.

ghost use Rattle.std.specs.Prelude.{◌≡◌, ◌<◌, ◌&&◌, length, not, slice_index_or};
ghost use Rattle.sd_flat.specs.Standings.{greatest_but, is_number};
ghost use Rattle.sd_state.specs.States.{no_thread};
ghost use Rattle.sd_machine.specs.Threads.{greater, greatest_waiting, has_waiters, is_waiting};
ghost use Rattle.sd_machine.specs.Locking.{others_waiting};
ghost use Rattle.sd_types.specs.Priorities.{greatest_willed};
ghost use Rattle.sd_types.specs.Willed.{without_number};

use crate::standings::is_waiting;
use sd_state::{State, ThreadState};
use sd_types::{LockId, ThreadId};

/// Somebody waits for lock `l`, on either side.
#[tactic(auto, unfolding(sd_machine::specs::Threads::has_waiters))]
pub fn has_waiters(s: &State, l: LockId) -> bool
    ensures { result ≡ has_waiters s.now l.0 }
{
    s.threads.items().iter().any(|x| is_waiting(l, &x.place))
}

/// The greater of a priority and another, if there is one.
pub fn greater(p: u8, other: Option<u8>) -> u8
    ensures { result ≡ greater p other }
{
    match other {
        None => p,
        Some(q) => p.max(q),
    }
}

/// The greatest of `base` and the numbers for other locks than `l`.
pub fn greatest_without(base: u8, l: LockId, willed: &[(LockId, u8)]) -> u8
    ensures { result ≡ greatest_willed base (without_number l willed.now) }
{
    let mut greatest = base;
    let mut i = willed.len();
    while i > 0 {
        i -= 1;
        let (lock, number) = willed[i];
        if l.0 != lock.0 {
            greatest = number.max(greatest);
        }
    }
    greatest
}

/// Thread `i` waits for lock `l`, and is not the one that is left out.
fn counts(l: LockId, threads: &[ThreadState], but: Option<usize>, i: usize) -> bool
    requires { i < length threads.now }
    ensures { result ≡ (not (is_number i but) && is_waiting l.0 (slice_index_or threads.now i no_thread).place) }
{
    let left_out = match but {
        None => false,
        Some(j) => i == j,
    };
    !left_out && is_waiting(l, &threads[i].place)
}

/// The greatest effective priority of those who wait for lock `l`, but for thread `but`.
fn greatest_but(l: LockId, threads: &[ThreadState], but: Option<usize>) -> Option<u8>
    ensures { result ≡ greatest_but l.0 but 0 threads.now }
{
    let mut greatest = None;
    let mut i = threads.len();
    while i > 0 {
        i -= 1;
        if counts(l, threads, but, i) {
            greatest = Some(greater(threads[i].body.effective(), greatest));
        }
    }
    greatest
}

/// The greatest effective priority of those who wait for lock `l`, on both sides; None where nobody waits.
pub fn greatest_waiting(s: &State, l: LockId) -> Option<u8>
    ensures { result ≡ greatest_waiting l.0 s.now.threads }
{
    greatest_but(l, s.threads.items(), None)
}

/// The same of all but thread `u`, as if it waited no more.
pub fn others_waiting(s: &State, l: LockId, u: ThreadId) -> Option<u8>
    ensures { result ≡ others_waiting s.now l u.0 }
{
    greatest_but(l, s.threads.items(), Some(u.0 as usize))
}
