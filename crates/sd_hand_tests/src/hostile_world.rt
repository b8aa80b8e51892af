//! A world that gives homes out one by one and follows a plan.

ghost use Rattle.std.specs.Prelude.{◌≡◌, ◌+◌, ◌^◌, ◌-◌, ◌<◌, min, IfOk};
ghost use Rattle.sd_homes.specs.declared.home.Home.{Home as HomeOf};
ghost use Rattle.sd_homes.specs.Families.{home_id};
ghost use Rattle.sd_hand.specs.Hands.{AreApart, how_many_held};
ghost use Rattle.sd_world.specs.Plain.{Stands};
ghost use Rattle.sd_world.specs.Worlds.{CanLock, CanTake, Rises};
ghost use Rattle.sd_hand_tests.specs.Hostile.{HasHome, IsHeldNear, IsHostile, Moves, hint_in, hostile_meaning};
ghost use Rattle.sd_hand_tests.specs.Plan.{ArePossible, trouble_at};

use crate::plan::{Trouble, What, trouble_at};
use sd_hand::{Acting, Hand};
use sd_homes::home_at;
use sd_types::{CpuId, HomeId, ThreadId, Which, Work};
use sd_world::{PlainWorld, shown_hint};
use std::alloc::{AllocError, Global};

/// A run on homes that are given out one by one to the processor that acts, and the troubles that it meets. The calls of `take`,
/// `lock_thread` and `reserve` are counted together from 1; `stops` is how often it was answered that somebody is in the way.
#[derive(Drop)]
pub struct HostileWorld<'a> {
    pub inner: PlainWorld<'a>,
    pub near: Acting,
    pub plan: Vec<Trouble>,
    pub calls: u64,
    pub stops: u64,
}

impl<'a> HostileWorld<'a> {
    /// A run that goes on from this one, with these troubles. `Err` only where memory runs out.
    pub fn new(
        alloc: Global,
        inner: PlainWorld<'a>,
        plan: Vec<Trouble>,
    ) -> Result<HostileWorld<'a>, AllocError>
        requires stands { Stands inner.work.now inner }
        requires possible { ArePossible plan.items }
        ensures good { IfOk result (λ x. IsHostile x) }
        ensures empty { IfOk result (λ x. how_many_held x.near.hand.slots ≡ 0) }
        ensures same { IfOk result (λ x. (x.inner ≡ inner.entry) × (x.plan ≡ plan) × (x.calls ≡ 0) × (x.stops ≡ 0)) }
    {
        let near = Acting {
            hand: Hand::new(alloc)?,
            actor: inner.acting.actor,
        };
        Ok(HostileWorld {
            inner,
            near,
            plan,
            calls: 0,
            stops: 0,
        })
    }

    /// The run as it stands, without troubles.
    pub fn into_inner(self) -> PlainWorld<'a>
        requires good { IsHostile self }
        requires empty { how_many_held self.near.hand.slots ≡ 0 }
        ensures stands { Stands self.entry.inner.work.now result }
        ensures same { result ≡ self.entry.inner }
    {
        self.inner
    }

    /// Processor `c` acts from now on. No home is held.
    pub fn act_as(&mut self, work: &Work, c: CpuId)
        requires good { IsHostile self.old }
        requires work { work.now ≡ self.old.inner.work.now }
        requires empty { how_many_held self.old.near.hand.slots ≡ 0 }
        requires cpu { c.0 < work.now.cpus }
        ensures good { IsHostile self.new }
        ensures empty { how_many_held self.new.near.hand.slots ≡ 0 }
        ensures acts { self.new.near.actor.cpu ≡ c }
        ensures work { self.new.inner.work ≡ self.old.inner.work }
        ensures entries { self.new.inner.entries.items ≡ self.old.inner.entries.items }
        ensures plan { (self.new.plan ≡ self.old.plan) × (self.new.calls ≡ self.old.calls) × (self.new.stops ≡ self.old.stops) }
    {
        self.inner.act_as(work, c);
        self.near.actor = self.inner.acting.actor;
    }

    /// Counts a call, and tells what happens at it.
    pub(crate) fn next_trouble(&mut self) -> Option<What>
        ensures counts { self.new ≡ record self.old { calls = min (self.old.calls + 1) (2 ^ 64 - 1) } }
        ensures planned { result ≡ trouble_at self.old.plan.items self.new.calls }
    {
        self.calls = self.calls.saturating_add(1);
        trouble_at(&self.plan, self.calls)
    }

    /// Counts a stop.
    pub(crate) fn stop(&mut self)
        ensures stops { self.new ≡ record self.old { stops = self.new.stops } }
        ensures rises { Rises self.old.stops self.new.stops }
    {
        self.stops = self.stops.saturating_add(1);
    }

    /// The home in which the thread stands, which is not held.
    pub(crate) fn home_with(&self, t: ThreadId) -> HomeId
        requires good { IsHostile self.now }
        requires can { CanLock (hostile_meaning self.now) t }
        ensures { HasHome self.now t result }
    {
        match self.inner.acting.hand.where_is(t) {
            Ok(at) => home_at(at),
            Err(_) => unreachable!(),
        }
    }

    /// Gives out the home of this number.
    pub(crate) fn fetch(&mut self, k: HomeId)
        requires good { IsHostile self.old }
        requires can { CanTake (hostile_meaning self.old) k }
        ensures moves { (home : HomeOf) × (home_id home ≡ k) × Moves self.old self.new home }
        ensures apart { AreApart self.new.inner.acting.hand.slots }
    {
        match self.inner.acting.hand.release(k) {
            None => unreachable!(),
            Some(home) => match self.near.hand.hold(home) {
                Ok(()) => {}
                Err(_) => unreachable!(),
            },
        }
    }

    /// Takes back a home that is held.
    pub(crate) fn give(&mut self, k: HomeId)
        requires good { IsHostile self.old }
        requires held { IsHeldNear self.old k }
        ensures moves { (home : HomeOf) × Moves self.new self.old home }
        ensures apart { AreApart self.new.near.hand.slots }
    {
        match self.near.hand.release(k) {
            None => unreachable!(),
            Some(home) => match self.inner.acting.hand.hold(home) {
                Ok(()) => {}
                Err(_) => unreachable!(),
            },
        }
    }

    /// The number that processor `d` shows, wherever its home is.
    pub(crate) fn hint(&self, which: Which, d: CpuId) -> u8
        requires good { IsHostile self.now }
        requires cpu { d.0 < self.now.inner.work.now.cpus }
        ensures { result ≡ hint_in self.now which d }
    {
        match self.near.hand.home(HomeId::Cpu(d)) {
            Ok(_) => shown_hint(&self.near, which, d),
            Err(_) => shown_hint(&self.inner.acting, which, d),
        }
    }
}
