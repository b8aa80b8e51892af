//! A run on homes as a world: what a processor reads of others, and the entry that it makes.

ghost use Rattle.std.specs.Prelude.{◌≡◌, ◌++◌, ◌<◌, ◌≤◌, ◌∷◌, [], Some, length, map, nat_le, MatchOption};
ghost use Rattle.std.specs.List.{list_all};
ghost use Rattle.sd_hand.specs.Acting.{has_part};
ghost use Rattle.sd_machine.specs.Hints.{hint_shown};
ghost use Rattle.sd_machine.specs.Events.{may_tick, next};
ghost use Rattle.sd_world.specs.Entries.{CanEnter, Enters};
ghost use Rattle.sd_world.specs.Plain.{AreCpus, IsLess, NoneLess, Stands, told};
ghost use Rattle.sd_types.specs.Limits.{most_processors};

use crate::entries::{enter, reserve_entry};
use crate::plain::PlainWorld;
use crate::showing::shown_hint;
use crate::world::{Behind, Take, ThreadLock, World};
use arrayvec::ArrayVec;
use sd_dispatcher::Reading;
use sd_hand::{Acting, Actor};
use sd_homes::home_at;
use sd_types::{CpuId, Event, Hints, HomeId, MOST_ENTRIES, Stop, ThreadId, Which, Work};

/// The first processor that has counted less.
fn first_behind(actors: &[Actor], count: u32) -> Option<Behind>
    ensures { MatchOption result (NoneLess actors.now count) (IsLess actors.now count) }
{
    for i in 0..actors.len() {
        let x = actors[i];
        if x.count < count {
            return Some(Behind {
                cpu: x.cpu,
                count: x.count,
            });
        }
    }
    None
}

/// No processor has counted less.
#[inline(always)]
fn nobody_behind(actors: &[Actor], count: u32) -> bool
    ensures { result ≡ list_all (λ x. nat_le count x.count) actors.now }
{
    actors.iter().all(|x| count <= x.count)
}

impl<'a> PlainWorld<'a> {
    /// Processor `c` acts from now on.
    pub fn act_as(&mut self, work: &Work, c: CpuId)
        requires stands { Stands work.now self.old }
        requires cpu { c.0 < work.now.cpus }
        ensures stands { Stands work.now self.new }
        ensures acts { self.new.acting.actor.cpu ≡ c }
        ensures work { self.new.work ≡ self.old.work }
        ensures entries { self.new.entries.items ≡ self.old.entries.items }
    {
        self.acting.actor = self.actors[c.0 as usize];
    }

    /// The number that processor `d` shows.
    #[inline(always)]
    fn hint(&self, work: &Work, which: Which, d: CpuId) -> u8
        requires stands { Stands work.now self.now }
        requires cpu { d.0 < work.now.cpus }
        ensures { result ≡ hint_shown (told work.now self.now) which d }
    {
        shown_hint(&self.acting, which, d)
    }

    /// The numbers that these processors show, in their order.
    pub fn numbers(&self, work: &Work, which: Which, cpus: &[CpuId]) -> ArrayVec<u8, 64>
        requires stands { Stands work.now self.now }
        requires fits { length cpus.now ≤ most_processors }
        requires there { AreCpus work.now cpus.now }
        ensures { result.items ≡ map (hint_shown (told work.now self.now) which) cpus.now }
    {
        let mut numbers = ArrayVec::new();
        for d in cpus {
            numbers.push(self.hint(work, which, *d));
        }
        numbers
    }

    /// The processor that acts may tick: its count is below the limit, and no processor's is below it.
    #[inline(always)]
    pub fn may_tick(&self, work: &Work) -> bool
        requires stands { Stands work.now self.now }
        ensures { result ≡ may_tick work.now (told work.now self.now) self.now.acting.actor.cpu.0 }
    {
        let count = self.acting.actor.count;
        count < work.limit && nobody_behind(&self.actors, count)
    }

    /// Makes the event, for which the log has room.
    #[inline(always)]
    pub fn make(&mut self, work: &Work, hints: &Option<Hints>, event: Event)
        requires stands { Stands work.now self.old }
        requires next { next work.now (told work.now self.old) self.old.acting.actor.cpu hints.now ≡ Some event }
        requires room { 0 < self.old.entries.room }
        requires few { length self.old.entries.items < MOST_ENTRIES }
        ensures stands { Stands work.now self.new }
        ensures entries { self.new.entries.items ≡ self.old.entries.items
            ++ record { number = length self.old.entries.items; cpu = self.old.acting.actor.cpu; event = event; hints = hints.now } ∷ [] }
        ensures cpu { self.new.acting.actor.cpu ≡ self.old.acting.actor.cpu }
        ensures work { self.new.work ≡ self.old.work }
        ensures has { has_part self.new.acting ≡ has_part self.old.acting }
    {
        enter(
            work,
            &mut self.acting,
            &mut self.actors,
            &mut self.entries,
            event,
            hints,
        );
    }

    /// Makes the event in the homes of a hand that is given, which have all that it touches, as an entry of this run.
    pub fn enter_from(
        &mut self,
        work: &Work,
        acting: &mut Acting,
        event: Event,
        hints: Option<Hints>,
    )
        requires can { CanEnter work.now acting.old self.old.actors.items self.old.entries.items event hints }
        requires room { 0 < self.old.entries.room }
        ensures enters { Enters work.now acting.old acting.new self.old.actors.items self.new.actors.items self.old.entries.items self.new.entries.items event hints }
        ensures rest { self.new ≡ record self.old { actors = self.new.actors; entries = self.new.entries } }
    {
        enter(
            work,
            acting,
            &mut self.actors,
            &mut self.entries,
            event,
            &hints,
        );
    }

    /// The first processor that has counted less than this.
    pub fn find_behind(&self, count: u32) -> Option<Behind>
        ensures { MatchOption result (NoneLess self.now.actors.items count) (IsLess self.now.actors.items count) }
    {
        first_behind(&self.actors, count)
    }
}

impl<'a> World for PlainWorld<'a> {
    ghost use Rattle.sd_world.specs.Plain.{IsPlain, plain_meaning};

    ghost meaning = { λ x. plain_meaning x };

    ghost good = { λ x. IsPlain x };

    fn acting(&self) -> &Acting {
        &self.acting
    }

    fn has_all(&self) -> bool {
        true
    }

    fn take(&mut self, k: HomeId) -> Take {
        Take::Taken
    }

    fn lock_thread(&mut self, t: ThreadId) -> ThreadLock {
        match self.acting.hand.where_is(t) {
            Ok(at) => ThreadLock::Held { home: home_at(at) },
            Err(_) => unreachable!(),
        }
    }

    fn hints(&mut self, work: &Work, reading: &Reading) -> Hints {
        Hints {
            which: reading.which,
            numbers: self.numbers(work, reading.which, reading.cpus.as_slice()),
        }
    }

    fn behind(&mut self, work: &Work) -> Option<Behind> {
        self.find_behind(self.acting.actor.count)
    }

    fn reserve(&mut self) -> Result<(), Stop> {
        reserve_entry(&mut self.entries)
    }

    fn commit(&mut self, work: &Work, event: Event, hints: Option<Hints>) -> u64 {
        let number = self.entries.len() as u64;
        self.make(work, &hints, event);
        number
    }

    fn give_all(&mut self) {}

    ghost sound = { λ x h. h.good };
}
