//! What a processor does on a thread of the host of its own: four turns, and a thousand tries to take one home.

ghost use Rattle.std.specs.Prelude.{◌≡◌, ℕ};
ghost use Rattle.sd_hand.specs.Hands.{how_many_held};
ghost use Rattle.sd_shared_table.specs.Seats.{Fits, id_of, work_of};
ghost use Rattle.sd_shared_table.specs.Whole.{IsSeatOf};
ghost use Rattle.sd_shared_table_tests.specs.Sitting.{IsFreeAfter};

use crate::deeds::{Deed, judge};
use crate::joining::{Act, Acted};
use crate::trying::{give_back, try_home};
use sd_cpu::{OpenGate, turn};
use sd_shared_table::{Seat, Shared};
use sd_threads::TableWorld;
use sd_types::{Entry, Event, Work};
use sd_world::Take;
use std::sync::Wait;
use std::test::Fail;

/// The processor's entries are two threads that are dispatched and done.
fn is_done_twice(log: &[Entry]) -> bool {
    match log {
        [a, b, d, e] => {
            matches!(a.event, Event::Dispatch { .. })
                && matches!(b.event, Event::Done { .. })
                && matches!(d.event, Event::Dispatch { .. })
                && matches!(e.event, Event::Done { .. })
        }
        _ => false,
    }
}

/// Four turns of a processor.
pub(crate) fn four_turns<R: Wait>(rt: &R, shared: &Shared, work: &Work, seat: Seat) -> Acted
    requires work { work.now ≡ work_of shared.now }
    requires fits { Fits (id_of shared.now) (work_of shared.now) seat }
    requires free { how_many_held seat.acting.hand.slots ≡ 0 }
    ensures { (c : ℕ) → IsSeatOf (id_of shared.now) (work_of shared.now) c seat → IsSeatOf (id_of shared.now) (work_of shared.now) c result.seat }
{
    let mut world = TableWorld::new(shared, seat);
    for number in 0..4 {
        let _ = turn(rt, &mut world, &OpenGate, work, number);
    }
    let seat = world.into_seat();
    let is_right = is_done_twice(&seat.log);
    let count = seat.log.len() as u64;
    Acted {
        seat,
        is_right,
        count,
    }
}

#[test]
fn two_threads_of_the_host_share_a_table(rt: HostRuntime) -> Result<(), Fail> {
    judge(&rt, Deed::Both(Act::Turns))
}

/// One try to take the home of processor 0, which is given back: 1 where it was taken, and else 0.
fn try_once(shared: &Shared, seat: &mut Seat) -> u64
    requires fits { Fits (id_of shared.now) (work_of shared.now) seat.old }
    requires free { how_many_held seat.old.acting.hand.slots ≡ 0 }
    ensures { IsFreeAfter (id_of shared.now) (work_of shared.now) seat.old seat.new }
{
    match try_home(shared, seat) {
        Take::Taken => {
            give_back(shared, seat);
            1
        }
        Take::Busy { .. } => 0,
    }
}

/// A thousand tries.
pub(crate) fn try_often(shared: &Shared, seat: Seat) -> Acted
    requires fits { Fits (id_of shared.now) (work_of shared.now) seat }
    requires free { how_many_held seat.acting.hand.slots ≡ 0 }
    ensures { (c : ℕ) → IsSeatOf (id_of shared.now) (work_of shared.now) c seat → IsSeatOf (id_of shared.now) (work_of shared.now) c result.seat }
{
    let mut trying = seat;
    let mut taken = 0u64;
    for _ in 0..1000 {
        taken = taken.saturating_add(try_once(shared, &mut trying));
    }
    Acted {
        seat: trying,
        is_right: true,
        count: taken,
    }
}

#[test]
fn a_home_is_taken_by_two_threads_of_the_host(rt: HostRuntime) -> Result<(), Fail> {
    judge(&rt, Deed::Both(Act::Tries))
}
