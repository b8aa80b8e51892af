//! The table as the world of one processor, which sits at it.

ghost use Rattle.std.specs.Prelude.{◌≡◌, ◌<◌, ◌≤◌, length};
ghost use Rattle.sd_hand.specs.Hands.{how_many_held};
ghost use Rattle.sd_types.specs.declared.events.Which.{Which as WhichOf};
ghost use Rattle.sd_types.specs.Limits.{most_processors};
ghost use Rattle.sd_world.specs.Plain.{AreCpus};
ghost use Rattle.sd_world.specs.Worlds.{AllHinted, IsQuiet, ReadsCounts, Rises, Stays};
ghost use Rattle.sd_shared_table.specs.Seats.{Fits, id_of, work_of};
ghost use Rattle.sd_threads.specs.Tables.{Compares, IsTable, ReadsCount, the_work, world_meaning};

use crate::threads::try_lock_thread;
use arrayvec::ArrayVec;
use sd_dispatcher::Reading;
use sd_hand::Acting;
use sd_shared_table::{Seat, Shared};
use sd_types::{CpuId, Event, Hints, HomeId, Stop, ThreadId, Which, Work};
use sd_world::{Behind, Take, ThreadLock, World};

/// The seat of a processor at a table, and how often another processor was in its way, which stays at the greatest `u64`.
#[derive(Drop)]
pub struct TableWorld<'a> {
    pub shared: &'a Shared,
    pub seat: Seat,
    pub stops: u64,
}

impl<'a> TableWorld<'a> {
    /// The table as this seat sees it.
    pub fn new(shared: &'a Shared, seat: Seat) -> TableWorld<'a>
        requires fits { Fits (id_of shared.now) (work_of shared.now) seat }
        ensures good { IsTable result }
        ensures seat { result.seat ≡ seat }
        ensures table { result.shared.now ≡ shared.entry.now }
    {
        TableWorld {
            shared,
            seat,
            stops: 0,
        }
    }

    /// The seat, as it is now.
    pub fn into_seat(self) -> Seat
        ensures { result ≡ self.entry.seat }
    {
        let TableWorld { seat, .. } = self;
        seat
    }

    /// Counts that another processor was in the way.
    fn stop(&mut self)
        ensures stops { self.new ≡ record self.old { stops = self.new.stops } }
        ensures rises { Rises self.old.stops self.new.stops }
    {
        self.stops = self.stops.saturating_add(1);
    }

    /// Reads the count of processor `c`, which the seat notes.
    fn count_of(&mut self, c: CpuId) -> u32
        requires good { IsTable self.old }
        requires cpu { c.0 < (the_work self.old).cpus }
        ensures good { IsTable self.new }
        ensures table { self.new.shared ≡ self.old.shared }
        ensures reads { ReadsCount (world_meaning self.old) (world_meaning self.new) c.0 result }
    {
        self.shared.count_of(&mut self.seat, c)
    }

    /// Whether processor `d` has counted less than the one that acts, as far as it shows it.
    fn compare(&mut self, d: CpuId) -> Option<Behind>
        requires good { IsTable self.old }
        requires cpu { d.0 < (the_work self.old).cpus }
        ensures good { IsTable self.new }
        ensures table { self.new.shared ≡ self.old.shared }
        ensures reads { ReadsCounts (world_meaning self.old) (world_meaning self.new) }
        ensures compares { Compares (world_meaning self.old) (world_meaning self.new) d.0 result }
    {
        let own = self.seat.acting.actor;
        if d.0 == own.cpu.0 {
            return None;
        }
        let count = self.count_of(d);
        if count >= own.count {
            return None;
        }
        Some(Behind { cpu: d, count })
    }

    /// Reads the numbers that these processors show, in their order.
    fn numbers(&mut self, which: Which, cpus: &[CpuId]) -> ArrayVec<u8, 64>
        requires good { IsTable self.old }
        requires fits { length cpus.now ≤ most_processors }
        requires there { AreCpus (the_work self.old) cpus.now }
        ensures good { IsTable self.new }
        ensures table { self.new.shared ≡ self.old.shared }
        ensures stays { Stays (world_meaning self.old) (world_meaning self.new) }
        ensures quiet { IsQuiet (world_meaning self.old) (world_meaning self.new) }
        ensures acting { self.new.seat.acting ≡ self.old.seat.acting }
        ensures hinted { AllHinted (world_meaning self.new) which cpus.now result.items }
    {
        let mut numbers = ArrayVec::new();
        for d in cpus {
            numbers.push(self.shared.hint(&mut self.seat, *d, which));
        }
        numbers
    }
}

impl<'a> World for TableWorld<'a> {
    ghost use Rattle.sd_shared_table.proofs.Fitting.{table_good};
    ghost use Rattle.sd_shared_table.specs.Seats.{id_of, work_of};
    ghost use Rattle.sd_threads.specs.Tables.{IsTable, world_meaning};

    ghost meaning = { λ x. world_meaning x };

    ghost good = { λ x. IsTable x };

    fn acting(&self) -> &Acting {
        &self.seat.acting
    }

    fn has_all(&self) -> bool {
        false
    }

    fn take(&mut self, k: HomeId) -> Take {
        match self.shared.try_take(&mut self.seat, k) {
            Take::Taken => Take::Taken,
            Take::Busy { holder } => {
                self.stop();
                Take::Busy { holder }
            }
        }
    }

    fn lock_thread(&mut self, t: ThreadId) -> ThreadLock {
        match try_lock_thread(self.shared, &mut self.seat, t) {
            ThreadLock::Held { home } => ThreadLock::Held { home },
            ThreadLock::Busy { home, holder } => {
                self.stop();
                ThreadLock::Busy { home, holder }
            }
            ThreadLock::Moved { from, to } => {
                self.stop();
                ThreadLock::Moved { from, to }
            }
        }
    }

    fn hints(&mut self, work: &Work, reading: &Reading) -> Hints {
        Hints {
            which: reading.which,
            numbers: self.numbers(reading.which, reading.cpus.as_slice()),
        }
    }

    fn behind(&mut self, work: &Work) -> Option<Behind> {
        for d in 0..work.cpus {
            match self.compare(CpuId(d)) {
                None => {}
                Some(found) => return Some(found),
            }
        }
        None
    }

    fn reserve(&mut self) -> Result<(), Stop> {
        self.shared.reserve(&mut self.seat)
    }

    fn commit(&mut self, work: &Work, event: Event, hints: Option<Hints>) -> u64 {
        self.shared.commit(work, &mut self.seat, event, hints)
    }

    fn give_all(&mut self) {
        'giving: while self.seat.order.len() > 0 {
            self.shared.give(&mut self.seat);
        }
    }

    ghost sound = { λ x h. table_good (work_of x.shared.now) (id_of x.shared.now) x.seat x.stops h };
}
