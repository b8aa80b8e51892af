//! A processor takes homes and gives them back.

ghost use Rattle.std.specs.Prelude.{◌≡◌, ◌+◌, ◌<◌, ◌∷◌, Some, None};
ghost use Rattle.arrayvec.specs.ArrayVec.{array_vec_len};
ghost use Rattle.atomic_table.specs.Table.{rest};
ghost use Rattle.sd_homes.specs.declared.home.Home.{Home as HomeOf};
ghost use Rattle.sd_homes.specs.Families.{home_id};
ghost use Rattle.sd_hand.specs.Hands.{held as held_in, how_many_held};
ghost use Rattle.sd_world.specs.Worlds.{CanTake};
ghost use Rattle.sd_shared_table.specs.Seats.{Fits, HasLast, Lifted, Lowered, SeatQuiet, SeatStays, SeatTakes, id_of, seat_meaning, work_of};

use crate::seat::{Held, Seat};
use crate::shared::Shared;
use sd_homes::Home;
use sd_types::{CpuId, HomeId};
use sd_world::Take;
use std::marker::Brand;

impl Shared {
    /// One try to take a home: one exchange of its lock. `Busy` only where the lock of this home had the holder's number plus 1 at this step,
    /// which the seat notes.
    pub fn try_take(&self, seat: &mut Seat, k: HomeId) -> Take
        requires fits { Fits (id_of self.now) (work_of self.now) seat.old }
        requires can { CanTake (seat_meaning (work_of self.now) seat.old) k }
        ensures fits { Fits (id_of self.now) (work_of self.now) seat.new }
        ensures takes { SeatTakes (work_of self.now) seat.old seat.new k result }
    {
        let index = self.index(k);
        let mine = u64::from(seat.acting.actor.cpu.0) + 1;
        let found = self.grab::<Brand>(&mut seat.place, index, mine);
        if found != 0 {
            return Take::Busy {
                holder: CpuId((found - 1) as u16),
            };
        }
        self.lift(seat, k, index);
        Take::Taken
    }

    /// The home that was taken last comes from its slot to the hand.
    pub fn lift(&self, seat: &mut Seat, k: HomeId, index: usize)
        requires out { (x : HomeOf) × (home_id x ≡ k) × (seat.old.place.me.1 ≡ (index, Some x) ∷ rest seat.old.place.me.1) }
        requires table { seat.old.place.table_id ≡ id_of self.now }
        requires fresh { held_in k seat.old.acting.hand.slots ≡ None }
        requires room { (how_many_held seat.old.acting.hand.slots < 4) × (array_vec_len seat.old.order < 4) }
        ensures lifted { Lifted k index seat.old seat.new }
    {
        let Some(home) = self.table.shared.exchange(&mut seat.place, index, None) else {
            unreachable!()
        };
        match seat.acting.hand.hold(home) {
            Ok(()) => seat.order.push(Held(k)),
            Err(_) => unreachable!(),
        }
    }

    /// Gives back the home that was taken last.
    pub fn give(&self, seat: &mut Seat)
        requires fits { Fits (id_of self.now) (work_of self.now) seat.old }
        requires some { 0 < how_many_held seat.old.acting.hand.slots }
        ensures fits { Fits (id_of self.now) (work_of self.now) seat.new }
        ensures stays { SeatStays (work_of self.now) seat.old seat.new }
        ensures quiet { SeatQuiet (work_of self.now) seat.old seat.new }
        ensures less { how_many_held seat.old.acting.hand.slots ≡ how_many_held seat.new.acting.hand.slots + 1 }
    {
        let home = seat.put_down();
        let index = self.index(home.id());
        self.table
            .shared
            .exchange(&mut seat.place, index, Some(home));
        self.lay::<Brand>(&mut seat.place, index);
    }
}

impl Seat {
    /// The home that was taken last, out of the hand.
    fn put_down(&mut self) -> Home
        requires some { 0 < array_vec_len self.old.order }
        requires held { HasLast self.old }
        ensures lowered { Lowered self.old self.new result }
    {
        let Some(Held(k)) = self.order.pop() else {
            unreachable!()
        };
        match self.acting.hand.release(k) {
            Some(home) => home,
            None => unreachable!(),
        }
    }
}
