//! Two processors on one thread of the host: one holds a home, and the other finds it busy.

ghost use Rattle.std.specs.Prelude.{◌≡◌, ℕ, ◌<◌, length, IfOk, OnOk};
ghost use Rattle.sd_hand.specs.Hands.{how_many_held};
ghost use Rattle.sd_shared_table.specs.Seats.{Fits, id_of, work_of};
ghost use Rattle.sd_shared_table.specs.Whole.{IsSeatOf};
ghost use Rattle.sd_shared_table_tests.specs.Sitting.{HasSought, HasTried, IsFreeAfter};

use crate::deeds::{Deed, Done, judge};
use crate::tables::Seats;
use sd_cpu::{OpenGate, attempt};
use sd_shared_table::{Seat, Shared};
use sd_threads::{TableWorld, try_lock_thread};
use sd_types::{CpuId, Event, HomeId, ThreadId, Work};
use sd_world::{Take, ThreadLock};
use std::test::Fail;

const CPU: CpuId = CpuId(0);

const HOME: HomeId = HomeId::Cpu(CPU);

const THREAD: ThreadId = ThreadId(0);

/// One try of a processor that holds nothing to take the home of processor 0.
pub(crate) fn try_home(shared: &Shared, seat: &mut Seat) -> Take
    requires fits { Fits (id_of shared.now) (work_of shared.now) seat.old }
    requires free { how_many_held seat.old.acting.hand.slots ≡ 0 }
    ensures { HasTried (id_of shared.now) (work_of shared.now) seat.old seat.new result }
{
    shared.try_take(seat, HOME)
}

/// One try of a processor that holds nothing to take the home in which thread 0 stands.
fn seek_thread(shared: &Shared, seat: &mut Seat) -> ThreadLock
    requires fits { Fits (id_of shared.now) (work_of shared.now) seat.old }
    requires free { how_many_held seat.old.acting.hand.slots ≡ 0 }
    requires there { 0 < length (work_of shared.now).threads }
    ensures { HasSought (id_of shared.now) (work_of shared.now) seat.old seat.new result }
{
    try_lock_thread(shared, seat, THREAD)
}

/// Gives all homes back.
pub(crate) fn give_back(shared: &Shared, seat: &mut Seat)
    requires fits { Fits (id_of shared.now) (work_of shared.now) seat.old }
    ensures { IsFreeAfter (id_of shared.now) (work_of shared.now) seat.old seat.new }
{
    'giving: while seat.order.len() > 0 {
        shared.give(seat);
    }
}

/// One attempt of a processor.
fn act(shared: &Shared, work: &Work, seat: Seat) -> Seat
    requires work { work.now ≡ work_of shared.now }
    requires fits { Fits (id_of shared.now) (work_of shared.now) seat }
    requires free { how_many_held seat.acting.hand.slots ≡ 0 }
    ensures { (c : ℕ) → IsSeatOf (id_of shared.now) (work_of shared.now) c seat → IsSeatOf (id_of shared.now) (work_of shared.now) c result }
{
    let mut world = TableWorld::new(shared, seat);
    let _ = attempt(&mut world, &OpenGate, work, 0, false);
    world.into_seat()
}

/// The second processor finds the home busy while the first holds it, and then takes it. `Err` says what went otherwise.
fn take_by_turns(shared: &Shared, first: &mut Seat, second: &mut Seat) -> Result<(), &'static str>
    requires first { IsSeatOf (id_of shared.now) (work_of shared.now) 0 first.old }
    requires second { IsSeatOf (id_of shared.now) (work_of shared.now) 1 second.old }
    ensures first { OnOk result (IsSeatOf (id_of shared.now) (work_of shared.now) 0 first.new) }
    ensures second { OnOk result (IsSeatOf (id_of shared.now) (work_of shared.now) 1 second.new) }
{
    let Take::Taken = try_home(shared, first) else {
        return Err("the first does not take the home");
    };
    let Take::Busy { holder } = try_home(shared, second) else {
        return Err("the second takes a home that is held");
    };
    if holder.0 != 0 || second.order.len() > 0 {
        return Err("the second does not see who holds the home");
    }
    give_back(shared, first);
    let Take::Taken = try_home(shared, second) else {
        return Err("the second does not take a home that was given back");
    };
    give_back(shared, second);
    Ok(())
}

/// The home is taken by turns.
pub(crate) fn taken(shared: &Shared, seats: Seats) -> Result<Done, &'static str>
    requires first { IsSeatOf (id_of shared.now) (work_of shared.now) 0 seats.first }
    requires second { IsSeatOf (id_of shared.now) (work_of shared.now) 1 seats.second }
    ensures first { IfOk result (λ r. IsSeatOf (id_of shared.now) (work_of shared.now) 0 r.seats.first) }
    ensures second { IfOk result (λ r. IsSeatOf (id_of shared.now) (work_of shared.now) 1 r.seats.second) }
{
    let Seats {
        mut first,
        mut second,
    } = seats;
    match take_by_turns(shared, &mut first, &mut second) {
        Ok(()) => Ok(Done {
            seats: Seats { first, second },
            made: 0,
        }),
        Err(wrong) => Err(wrong),
    }
}

#[test]
fn a_home_is_busy_while_it_is_held(rt: HostRuntime) -> Result<(), Fail> {
    judge(&rt, Deed::Take)
}

/// The entries of the seat are the dispatch of thread 0 alone.
fn has_dispatched(seat: &Seat) -> bool {
    match seat.log.as_slice() {
        [entry] => match entry.event {
            Event::Dispatch { t, .. } => t == THREAD,
            _ => false,
        },
        _ => false,
    }
}

/// The second processor finds the home of thread 0 busy while the first holds it, and then takes it. `Err` says what went otherwise.
fn seek_by_turns(shared: &Shared, first: &mut Seat, second: &mut Seat) -> Result<(), &'static str>
    requires first { IsSeatOf (id_of shared.now) (work_of shared.now) 0 first.old }
    requires second { IsSeatOf (id_of shared.now) (work_of shared.now) 1 second.old }
    requires there { 0 < length (work_of shared.now).threads }
    ensures first { OnOk result (IsSeatOf (id_of shared.now) (work_of shared.now) 0 first.new) }
    ensures second { OnOk result (IsSeatOf (id_of shared.now) (work_of shared.now) 1 second.new) }
{
    if !has_dispatched(first) {
        return Err("the first does not dispatch the thread");
    }
    let Take::Taken = try_home(shared, first) else {
        return Err("the first does not take the home");
    };
    let ThreadLock::Busy { home, holder } = seek_thread(shared, second) else {
        return Err("the thread is locked although its home is held");
    };
    if home != HOME || holder.0 != 0 || second.order.len() > 0 {
        return Err("the second does not see who holds the home of the thread");
    }
    give_back(shared, first);
    let ThreadLock::Held { home } = seek_thread(shared, second) else {
        return Err("the thread is not locked although its home was given back");
    };
    if home != HOME {
        return Err("the thread is locked in another home");
    }
    give_back(shared, second);
    Ok(())
}

/// The home of thread 0, which the first processor has dispatched, is taken by turns.
pub(crate) fn sought(shared: &Shared, work: &Work, seats: Seats) -> Result<Done, &'static str>
    requires work { work.now ≡ work_of shared.now }
    requires there { 0 < length (work_of shared.now).threads }
    requires first { IsSeatOf (id_of shared.now) (work_of shared.now) 0 seats.first }
    requires second { IsSeatOf (id_of shared.now) (work_of shared.now) 1 seats.second }
    ensures first { IfOk result (λ r. IsSeatOf (id_of shared.now) (work_of shared.now) 0 r.seats.first) }
    ensures second { IfOk result (λ r. IsSeatOf (id_of shared.now) (work_of shared.now) 1 r.seats.second) }
{
    let Seats { first, mut second } = seats;
    let mut first = act(shared, work, first);
    match seek_by_turns(shared, &mut first, &mut second) {
        Ok(()) => Ok(Done {
            seats: Seats { first, second },
            made: 1,
        }),
        Err(wrong) => Err(wrong),
    }
}

#[test]
fn a_thread_is_locked_with_its_home(rt: HostRuntime) -> Result<(), Fail> {
    judge(&rt, Deed::Seek)
}
