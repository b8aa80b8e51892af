//! What a processor asks of a world that follows a plan.

ghost use Rattle.std.specs.Prelude.{◌≡◌, ◌≤◌, length, map};
ghost use Rattle.sd_world.specs.Plain.{AreCpus};
ghost use Rattle.sd_world.specs.Worlds.{CanLock, CanTake, Locks, Takes};
ghost use Rattle.sd_hand_tests.specs.Hostile.{IsHostile, hint_in, hostile_meaning};
ghost use Rattle.sd_hand_tests.specs.Plan.{LocksByPlan, TakesByPlan};
ghost use Rattle.sd_types.specs.Limits.{most_processors};

use crate::hostile_world::HostileWorld;
use crate::plan::What;
use arrayvec::ArrayVec;
use sd_dispatcher::Reading;
use sd_hand::Acting;
use sd_types::{CpuId, Event, Hints, HomeId, MOST_ENTRIES, Stop, ThreadId, Which, Work};
use sd_world::{Behind, Take, ThreadLock, World, reserve_entry};

impl<'a> HostileWorld<'a> {
    /// The numbers that these processors show, in their order.
    fn numbers(&self, which: Which, cpus: &[CpuId]) -> ArrayVec<u8, 64>
        requires good { IsHostile self.now }
        requires fits { length cpus.now ≤ most_processors }
        requires there { AreCpus self.now.inner.work.now cpus.now }
        ensures { result.items ≡ map (hint_in self.now which) cpus.now }
    {
        let mut numbers = ArrayVec::new();
        for d in cpus {
            numbers.push(self.hint(which, *d));
        }
        numbers
    }
}

impl<'a> World for HostileWorld<'a> {
    ghost use Rattle.sd_hand_tests.specs.Hostile.{IsHostile, hostile_meaning};

    ghost meaning = { λ x. hostile_meaning x };

    ghost good = { λ x. IsHostile x };

    fn acting(&self) -> &Acting {
        &self.near
    }

    fn has_all(&self) -> bool {
        false
    }

    fn take(&mut self, k: HomeId) -> Take
        requires good { IsHostile self.old }
        requires can { CanTake (hostile_meaning self.old) k }
        ensures good { IsHostile self.new }
        ensures takes { Takes (hostile_meaning self.old) (hostile_meaning self.new) k result }
        ensures planned { TakesByPlan self.old.plan.items self.new.calls result }
    {
        match self.next_trouble() {
            Some(What::Busy { holder }) => {
                self.stop();
                Take::Busy { holder }
            }
            _ => {
                self.fetch(k);
                Take::Taken
            }
        }
    }

    fn lock_thread(&mut self, t: ThreadId) -> ThreadLock
        requires good { IsHostile self.old }
        requires can { CanLock (hostile_meaning self.old) t }
        ensures good { IsHostile self.new }
        ensures locks { Locks (hostile_meaning self.old) (hostile_meaning self.new) t result }
        ensures planned { LocksByPlan self.old.plan.items self.new.calls result }
    {
        let home = self.home_with(t);
        match self.next_trouble() {
            Some(What::Busy { holder }) => {
                self.stop();
                ThreadLock::Busy { home, holder }
            }
            Some(What::Moved { from, to }) => {
                self.stop();
                ThreadLock::Moved { from, to }
            }
            _ => {
                self.fetch(home);
                ThreadLock::Held { home }
            }
        }
    }

    fn hints(&mut self, work: &Work, reading: &Reading) -> Hints {
        Hints {
            which: reading.which,
            numbers: self.numbers(reading.which, reading.cpus.as_slice()),
        }
    }

    fn behind(&mut self, work: &Work) -> Option<Behind> {
        let count = self.near.actor.count;
        self.inner.find_behind(count)
    }

    fn reserve(&mut self) -> Result<(), Stop> {
        let refused = matches!(self.next_trouble(), Some(What::NoMemory));
        if refused && self.inner.entries.len() < MOST_ENTRIES {
            return Err(Stop::Memory);
        }
        reserve_entry(&mut self.inner.entries)
    }

    fn commit(&mut self, work: &Work, event: Event, hints: Option<Hints>) -> u64 {
        let number = self.inner.entries.len() as u64;
        self.inner.enter_from(work, &mut self.near, event, hints);
        self.inner.acting.actor = self.near.actor;
        number
    }

    fn give_all(&mut self) {
        'giving: while let Some(k) = self.near.hand.any_home() {
            self.give(k);
        }
    }

    ghost sound = { λ x h. h.good };
}
