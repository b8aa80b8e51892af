//! A processor takes the home in which a thread stands, which may be another one a moment later.

ghost use Rattle.std.specs.Prelude.{◌≡◌, ◌<◌, false};
ghost use Rattle.sd_hand.specs.Hands.{how_many_held};
ghost use Rattle.sd_shared_rule.specs.Places.{holds, sizes};
ghost use Rattle.sd_shared_rule.specs.Words.{thread_count};
ghost use Rattle.sd_world.specs.Homes.{IsNumberAt};
ghost use Rattle.sd_shared_table.specs.Seats.{Fits, desk, id_of, work_of};
ghost use Rattle.sd_threads.specs.Locks.{ReadsHome, SeatLocks, SeatTries};

use sd_shared_table::{Seat, Shared};
use sd_types::{CpuId, HomeId, ThreadId};
use sd_world::ThreadLock;
use std::marker::Brand;

/// Reads which home the word of a thread names, with its index. Where that home is held, the thread stands there.
fn read_home(shared: &Shared, seat: &mut Seat, t: ThreadId) -> (usize, HomeId)
    requires fits { Fits (id_of shared.now) (work_of shared.now) seat.old }
    requires there { t.0 < thread_count (work_of shared.now) }
    ensures fits { Fits (id_of shared.now) (work_of shared.now) seat.new }
    ensures number { IsNumberAt (sizes (work_of shared.now)) result.0 result.1 }
    ensures reads { ReadsHome (work_of shared.now) seat.old seat.new t.0 result.1 }
{
    let index = shared.look::<Brand>(&mut seat.place, t.0 as usize) as usize;
    (index, shared.home_at(index))
}

/// One try to take the home of this index, which the word of the thread named: the word is read again while the home is held. Where it
/// names another home by then, the home is given back.
fn try_home(shared: &Shared, seat: &mut Seat, t: ThreadId, index: usize, k: HomeId) -> ThreadLock
    requires fits { Fits (id_of shared.now) (work_of shared.now) seat.old }
    requires number { IsNumberAt (sizes (work_of shared.now)) index k }
    requires there { t.0 < thread_count (work_of shared.now) }
    requires room { how_many_held seat.old.acting.hand.slots < 4 }
    requires fresh { holds index (desk seat.old).held ≡ false }
    ensures fits { Fits (id_of shared.now) (work_of shared.now) seat.new }
    ensures tries { SeatTries (work_of shared.now) seat.old seat.new t k result }
{
    let mine = u64::from(seat.acting.actor.cpu.0) + 1;
    let found = shared.grab::<Brand>(&mut seat.place, index, mine);
    if found != 0 {
        return ThreadLock::Busy {
            home: k,
            holder: CpuId((found - 1) as u16),
        };
    }
    let again = shared.look::<Brand>(&mut seat.place, t.0 as usize) as usize;
    if again == index {
        shared.lift(seat, k, index);
        return ThreadLock::Held { home: k };
    }
    shared.lay::<Brand>(&mut seat.place, index);
    ThreadLock::Moved {
        from: k,
        to: shared.home_at(again),
    }
}

/// One try to take the home in which a thread stands: the word of the thread is read, the home that it names is taken, and the word is
/// read again. `Held`: the home is in the hand, and the thread stands in it; both times the word named that home. Where the hand has the
/// home that the word names, nothing is taken, and the word is read once. `Busy` only where the word named that home, whose lock had the
/// holder's number plus 1. `Moved` only where the word named `from` and then `to`, which differ; the home was given back.
pub fn try_lock_thread(shared: &Shared, seat: &mut Seat, t: ThreadId) -> ThreadLock
    requires fits { Fits (id_of shared.now) (work_of shared.now) seat.old }
    requires there { t.0 < thread_count (work_of shared.now) }
    requires room { how_many_held seat.old.acting.hand.slots < 4 }
    ensures fits { Fits (id_of shared.now) (work_of shared.now) seat.new }
    ensures locks { SeatLocks (work_of shared.now) seat.old seat.new t result }
{
    let (index, home) = read_home(shared, seat, t);
    match seat.acting.hand.home(home) {
        Ok(_) => ThreadLock::Held { home },
        Err(_) => try_home(shared, seat, t, index, home),
    }
}
