//! The homes of a run, each in the slot of its number.

ghost use Rattle.std.specs.Prelude.{◌≡◌, ℕ, ◌≤◌, ◌<◌, ◌^◌, ◌⊎◌, None, length, IfErr, IfNone, IfOk, IfSome, MatchOption, OnOk};
ghost use Rattle.sd_machine.specs.Runs.{IsReached};
ghost use Rattle.sd_homes.specs.Families.{home_id, putting};
ghost use Rattle.sd_homes.specs.Standing.{home_at, record_of};
ghost use Rattle.sd_hand.specs.Hands.{HoldsMore, IsHeld, edit, held};
ghost use Rattle.sd_hand.specs.OneHome.{AreAllHomes, lists_with};
ghost use Rattle.sd_hand.specs.Shown.{ShowsState};
ghost use Rattle.sd_types.specs.Willed.{InheritsSoundly};
ghost use Rattle.sd_types.specs.Limits.{most_processors};
ghost use Rattle.sd_world.specs.Homes.{AreAllThere, AreBare, IsNumber, IsNumberAt, ShowsNone, how_many, index_of, sizes_of};

use crate::bare::bare_home;
use sd_hand::{Guide, Hand};
use sd_homes::{Home, ListId, Traveller, home_at, list_at, record_key};
use sd_record::{Record, copied_body};
use sd_state::{State, ThreadState};
use sd_types::{CpuId, HomeId, SetId, ThreadId, Work};
use std::alloc::{AllocError, Global};
use std::marker::Model;

/// All homes of a run, some of which may be given out.
#[derive(Drop)]
pub struct Homes {
    cpus: usize,
    sets: usize,
    slots: Vec<Option<Home>>,
}

impl Model for Homes {
    ghost use Rattle.sd_world.specs.Homes.{AllHomes, ArePlaced};

    ghost Value = { AllHomes };

    ghost view = { λ h. record { sizes = record { cpus = h.cpus; sets = h.sets }; slots = h.slots.items } };

    ghost invariant = { λ h. ArePlaced (record { cpus = h.cpus; sets = h.sets }) h.slots.items };
}

/// The number of the home in this slot.
fn number_at(cpus: usize, sets: usize, i: usize) -> HomeId
    requires few { (cpus ≤ most_processors) × (sets ≤ 256) }
    requires inside { i < how_many (record { cpus = cpus; sets = sets }) }
    ensures { IsNumberAt (record { cpus = cpus; sets = sets }) i result }
{
    if i < cpus {
        HomeId::Cpu(CpuId(i as u16))
    } else if i - cpus < sets {
        HomeId::RealTime(SetId((i - cpus) as u8))
    } else if i - cpus - sets < 64 {
        HomeId::Chain((i - cpus - sets) as u8)
    } else {
        HomeId::Sleepers((i - cpus - sets - 64) as u8)
    }
}

/// A home for each number, without threads.
fn bare_homes(alloc: Global, s: &State) -> Result<Vec<Option<Home>>, AllocError>
    requires few { (length s.now.cpus ≤ most_processors) × (length s.now.open_cpus ≤ 256) }
    ensures { IfOk result (λ v. AreBare s.now (how_many (sizes_of s.now)) v.items) }
{
    let cpus = s.cpus.items().len();
    let sets = s.open_cpus.items().len();
    let mut slots = Vec::new(alloc);
    for i in 0..cpus + sets + 128 {
        slots.push(Some(bare_home(alloc, s, number_at(cpus, sets, i))?))?;
    }
    Ok(slots)
}

/// Thread `t` with a turnstile of its own, on its way to its home.
fn traveller_of(alloc: Global, t: usize, x: &ThreadState) -> Result<Traveller, AllocError>
    requires number { t < 2 ^ 16 }
    requires sound { InheritsSoundly x.now.body }
    ensures { IfOk result (λ r. r ≡ record_of t x.now) }
{
    let record = Record::new(
        alloc,
        ThreadId(t as u16),
        copied_body(&x.body),
        record_key(x.place),
    )?;
    Traveller::new(alloc, record)
}

impl Homes {
    /// The homes of a state of a run of this workload, all of them: a state that `number` entries led to stands in them, and each of
    /// its threads in one list of one of them. `Err` only where memory runs out.
    pub fn new(alloc: Global, work: &Work, number: u64, s: &State) -> Result<Homes, AllocError>
        requires { IsReached work.now number s.now }
        ensures all { IfOk result (λ hs. AreAllHomes number s.now hs.slots) }
        ensures one { IfOk result (λ hs. (t : ℕ) → t < length s.now.threads → lists_with t hs.slots ≡ 1) }
        ensures sizes { IfOk result (λ hs. hs.sizes ≡ sizes_of s.now) }
    {
        let mut homes = Homes {
            cpus: s.cpus.items().len(),
            sets: s.open_cpus.items().len(),
            slots: bare_homes(alloc, s)?,
        };
        homes.settle(alloc, work, number, s)?;
        Ok(homes)
    }

    /// All of them in one hand, which looks for a thread first in the list that it has for it.
    pub fn into_hand(self, lists: Vec<ListId>) -> Hand
        ensures { result.slots ≡ self.slots }
    {
        let guide = Guide::of(self.cpus, self.sets, lists);
        Hand::of(self.slots, guide)
    }

    /// The threads of the state come to their homes.
    fn settle(
        &mut self,
        alloc: Global,
        work: &Work,
        number: u64,
        s: &State,
    ) -> Result<(), AllocError>
        requires reached { IsReached work.now number s.now }
        requires bare { ShowsNone s.now self.old }
        ensures shows { OnOk result (ShowsState number s.now self.new.slots) }
        ensures all { AreAllThere self.new }
        ensures sizes { self.new.sizes ≡ self.old.sizes }
    {
        let threads = s.threads.items();
        for t in 0..threads.len() {
            let x = &threads[t];
            self.put(traveller_of(alloc, t, x)?, list_at(x.body.last, x.place));
        }
        Ok(())
    }

    /// The slot of this number, where it is that of a home of the run.
    fn index(&self, k: HomeId) -> Option<usize>
        ensures number { MatchOption result (IsNumber self.now.sizes k → ⊥) (λ i. (i ≡ index_of self.now.sizes k) × IsNumber self.now.sizes k) }
        ensures inside { IfSome result (λ i. i < length self.now.slots) }
    {
        let sets = self.cpus;
        let chains = self.slots.len() - 128;
        let (inside, index) = match k {
            HomeId::Cpu(c) => ((c.0 as usize) < self.cpus, c.0 as usize),
            HomeId::RealTime(p) => ((p.0 as usize) < self.sets, sets + p.0 as usize),
            HomeId::Chain(i) => (i < 64, chains + i as usize),
            HomeId::Sleepers(i) => (i < 64, chains + 64 + i as usize),
        };
        if inside { Some(index) } else { None }
    }

    /// Puts the thread into the list of those who stand there. Where the home of that list is given out, or no home of the run, the
    /// thread is dropped.
    fn put(&mut self, t: Traveller, at: ListId)
        ensures moved { self.new.slots ≡ edit (home_at at) (putting t at) self.old.slots }
        ensures sizes { self.new.sizes ≡ self.old.sizes }
    {
        if let Some(i) = self.index(home_at(at)) {
            if let Some(home) = &mut self.slots[i] {
                home.is_whole();
                home.put(t, at);
            }
        }
    }

    /// Gives out the home of this number. `None` exactly where it is given out already, or no home of the run.
    pub fn take(&mut self, k: HomeId) -> Option<Home>
        ensures sizes { self.new.sizes ≡ self.old.sizes }
        ensures none { IfNone result ((held k self.old.slots ≡ None) × (self.new.slots ≡ self.old.slots)) }
        ensures some { IfSome result (λ h. (home_id h ≡ k) × HoldsMore self.new.slots h self.old.slots) }
    {
        match self.index(k) {
            None => None,
            Some(i) => self.slots[i].take(),
        }
    }

    /// Takes a home back, where it is one of the run and none of its number is there; else it is the answer.
    pub fn give(&mut self, home: Home) -> Result<(), Home>
        ensures sizes { self.new.sizes ≡ self.old.sizes }
        ensures given { OnOk result (HoldsMore self.old.slots home self.new.slots) }
        ensures refused { IfErr result (λ h. (h ≡ home) × (self.new.slots ≡ self.old.slots)
            × ((IsNumber self.old.sizes (home_id home) → ⊥) ⊎ IsHeld (home_id home) self.old.slots)) }
    {
        match self.index(home.id()) {
            None => Err(home),
            Some(i) => match &self.slots[i] {
                Some(_) => Err(home),
                None => {
                    self.slots[i] = Some(home);
                    Ok(())
                }
            },
        }
    }
}
