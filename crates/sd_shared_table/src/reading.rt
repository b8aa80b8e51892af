//! A processor reads what others show, and makes room for an entry.

ghost use Rattle.std.specs.Prelude.{◌≡◌, ◌-◌, ◌<◌, vec_capacity, vec_len};
ghost use Rattle.sd_world.specs.Worlds.{HasReserved, HasRoomFor, Reserves};
ghost use Rattle.sd_shared_table.specs.Seats.{Fits, SeatCounts, SeatHints, id_of, seat_meaning, work_of};

use crate::seat::Seat;
use crate::shared::Shared;
use sd_types::{CpuId, Entry, MOST_ENTRIES, Stop, Which};
use std::marker::Brand;

/// Makes room in the log of a seat for one entry. `Full` exactly where it has 2^40 entries or more.
fn reserve_seat_entry(log: &mut Vec<Entry>) -> Result<(), Stop>
    ensures same { log.new.items ≡ log.old.items }
    ensures room { HasRoomFor log.old.items (vec_capacity log.new - vec_len log.new) result }
{
    if log.len() >= MOST_ENTRIES {
        return Err(Stop::Full);
    }
    if log.reserve(1).is_err() {
        return Err(Stop::Memory);
    }
    Ok(())
}

impl Shared {
    /// Room for one entry. `Full` exactly where the log holds 2^40 entries or more; `Memory` where memory runs out. Nothing changes but
    /// the room.
    pub fn reserve(&self, seat: &mut Seat) -> Result<(), Stop>
        requires fits { Fits (id_of self.now) (work_of self.now) seat.old }
        ensures fits { Fits (id_of self.now) (work_of self.now) seat.new }
        ensures same { Reserves (seat_meaning (work_of self.now) seat.old) (seat_meaning (work_of self.now) seat.new) }
        ensures room { HasReserved (seat_meaning (work_of self.now) seat.old) (seat_meaning (work_of self.now) seat.new) result }
    {
        reserve_seat_entry(&mut seat.log)
    }

    /// Reads the count of a processor, as it published it: its count has reached that number.
    pub fn count_of(&self, seat: &mut Seat, c: CpuId) -> u32
        requires fits { Fits (id_of self.now) (work_of self.now) seat.old }
        requires cpu { c.0 < (work_of self.now).cpus }
        ensures fits { Fits (id_of self.now) (work_of self.now) seat.new }
        ensures counts { SeatCounts (work_of self.now) seat.old seat.new c.0 result }
    {
        let count = self.read_count::<Brand>(&mut seat.place, c.0 as usize);
        count as u32
    }

    /// Reads a hint of a processor, as it was published.
    pub fn hint(&self, seat: &mut Seat, c: CpuId, which: Which) -> u8
        requires fits { Fits (id_of self.now) (work_of self.now) seat.old }
        requires cpu { c.0 < (work_of self.now).cpus }
        ensures fits { Fits (id_of self.now) (work_of self.now) seat.new }
        ensures hints { SeatHints (work_of self.now) seat.old seat.new c.0 which result }
    {
        let hint = self.read_hint::<Brand>(&mut seat.place, c.0 as usize, which);
        hint as u8
    }
}
