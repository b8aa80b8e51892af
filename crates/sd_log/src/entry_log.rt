//! The entries of a run in the order of their numbers. Contracts see them as a list of entries, and for how many more there is room.

ghost use Rattle.std.specs.Prelude.{◌≡◌, ◌++◌, ◌<◌, ◌≤◌, ◌∷◌, [], Some, length, slice_get, true, OnOk};
ghost use Rattle.sd_types.specs.declared.events.Event.TheVariants.{Idle};
ghost use Rattle.sd_types.specs.Limits.{most_processors};
ghost use Rattle.sd_log.specs.Parts.{listed, whole, zeros_read};

use crate::parts::Parts;
use crate::short::{ShortEntry, idle, parts_at, shorten};
use sd_types::{CpuId, Entry, Event, Hints, MOST_PROCESSORS};
use std::alloc::{AllocError, Global};
use std::marker::Model;

/// The most bytes of numbers: their places have 32 bits.
const MOST_NUMBER_BYTES: usize = 1 << 32;

/// For so many bytes of numbers room is made at once, so that few entries make room: for those of 256 entries.
const NUMBER_BYTES_AT_ONCE: usize = 256 * MOST_PROCESSORS;

/// Entries, of which the numbers are their places. The numbers that they read of processors lie one behind another in `bytes`. For `room` entries
/// more there surely is room in both, so that before an entry one number is asked and no capacity.
#[derive(Drop)]
pub struct EntryLog {
    short: Vec<ShortEntry>,
    bytes: Vec<u8>,
    room: usize,
}

impl Model for EntryLog {
    ghost use Rattle.std.specs.Prelude.{length, vec_capacity, vec_len};
    ghost use Rattle.sd_log.specs.Logged.{AreWithin, HasRoom, Logged, entries_from};

    ghost Value = { Logged };

    ghost view = { λ l. record {
      items = entries_from l.bytes.items 0 l.short.items;
      room = l.room;
    } };

    ghost invariant = { λ l. AreWithin (length l.bytes.items) l.short.items
        × HasRoom l.room (vec_len l.short) (vec_capacity l.short) (vec_len l.bytes) (vec_capacity l.bytes) };
}

impl EntryLog {
    /// No entries.
    pub fn new(alloc: Global) -> EntryLog
        ensures items { result.items ≡ [] }
    {
        EntryLog {
            short: Vec::new(alloc),
            bytes: Vec::new(alloc),
            room: 0,
        }
    }

    /// How many entries there are.
    pub fn len(&self) -> usize
        ensures { result ≡ length self.now.items }
    {
        self.short.len()
    }

    /// Makes room for one entry more, where there is none, and mostly for many more.
    #[inline(never)]
    fn grow(&mut self) -> Result<(), AllocError>
        ensures same { self.new.items ≡ self.old.items }
        ensures room { OnOk result (0 < self.new.room) }
    {
        let left = MOST_NUMBER_BYTES - self.bytes.len();
        if left < MOST_PROCESSORS {
            return Err(AllocError);
        }
        self.short.reserve(1)?;
        self.bytes.reserve(left.min(NUMBER_BYTES_AT_ONCE))?;
        let places = self.short.capacity() - self.short.len();
        let bytes = self.bytes.capacity().min(MOST_NUMBER_BYTES) - self.bytes.len();
        self.room = places.min(bytes / MOST_PROCESSORS);
        Ok(())
    }

    /// Makes room for one entry more. `Err` only where memory runs out, or where fewer than 64 of 2^32 bytes are left for numbers.
    #[inline(always)]
    pub fn reserve(&mut self) -> Result<(), AllocError>
        ensures same { self.new.items ≡ self.old.items }
        ensures room { OnOk result (0 < self.new.room) }
    {
        if self.room > 0 {
            return Ok(());
        }
        self.grow()
    }

    /// Puts an entry behind the others, for which there is room. It is inlined, since of a tick the compiler knows that it read nothing.
    #[inline(always)]
    pub fn push_reserved(&mut self, cpu: CpuId, event: Event, hints: &Option<Hints>)
        requires room { 0 < self.old.room }
        ensures items { self.new.items ≡ self.old.items ++ record { number = length self.old.items; cpu = cpu; event = event; hints = hints.now } ∷ [] }
    {
        let short = shorten(&mut self.bytes, cpu, event, hints);
        self.short.push_reserved(short);
        self.room -= 1;
    }

    /// Puts an idle tick behind the others, for which there is room: the processor has read so many zeros of queues, or nothing.
    #[inline(always)]
    pub fn push_idle(&mut self, cpu: CpuId, count: usize)
        requires room { 0 < self.old.room }
        requires few { count ≤ most_processors }
        ensures items { self.new.items ≡ self.old.items ++ record { number = length self.old.items; cpu = cpu; event = Idle; hints = zeros_read count } ∷ [] }
    {
        self.short.push_reserved(idle(cpu, count));
        self.room -= 1;
    }

    /// The parts of the entry with this number.
    #[inline(always)]
    pub fn parts(&self, number: usize) -> Parts<'_>
        requires { number < length self.now.items }
        ensures whole { slice_get self.now.items number ≡ Some (whole result) }
        ensures few { length (listed result.numbers) ≤ most_processors }
    {
        parts_at(&self.bytes, number, &self.short[number])
    }

    /// The entry with this number.
    pub fn entry(&self, number: usize) -> Entry
        requires { number < length self.now.items }
        ensures { slice_get self.now.items number ≡ Some result }
    {
        self.parts(number).entry()
    }
}
