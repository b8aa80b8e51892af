//! The index of a home, which is that of its slot and of its lock, and the home of an index.

ghost use Rattle.std.specs.Prelude.{◌≡◌, ◌+◌, ◌<◌, ◌^◌, length};
ghost use Rattle.sd_world.specs.Homes.{IsNumber, IsNumberAt, how_many, index_of};
ghost use Rattle.sd_shared_rule.specs.Places.{home_count, sizes};
ghost use Rattle.sd_shared_table.specs.Seats.{work_of};

use crate::shared::Shared;
use sd_types::{CpuId, HomeId, SetId, Work};

/// How many homes a run of this work has.
pub(crate) fn home_count(work: &Work) -> usize
    ensures { result ≡ home_count work.now }
{
    work.cpus as usize + work.sets.items().len() + 1 + 128
}

/// The index of a home of a run with so many processors and sets.
fn index_of(cpus: usize, sets: usize, k: HomeId) -> usize
    requires there { IsNumber (record { cpus = cpus; sets = sets }) k }
    requires small { cpus + sets < 2 ^ 32 }
    ensures { result ≡ index_of (record { cpus = cpus; sets = sets }) k }
{
    match k {
        HomeId::Cpu(c) => c.0 as usize,
        HomeId::RealTime(p) => cpus + p.0 as usize,
        HomeId::Chain(i) => cpus + sets + i as usize,
        HomeId::Sleepers(i) => cpus + sets + 64 + i as usize,
    }
}

/// The home of an index.
fn number_at(cpus: usize, sets: usize, i: usize) -> HomeId
    requires inside { i < how_many (record { cpus = cpus; sets = sets }) }
    requires small { (cpus < 2 ^ 16) × (sets < 2 ^ 8) }
    ensures { IsNumberAt (record { cpus = cpus; sets = sets }) i result }
{
    let chains = cpus + sets;
    if i < cpus {
        HomeId::Cpu(CpuId(i as u16))
    } else if i < chains {
        HomeId::RealTime(SetId((i - cpus) as u8))
    } else if i - chains < 64 {
        HomeId::Chain((i - chains) as u8)
    } else {
        HomeId::Sleepers((i - chains - 64) as u8)
    }
}

/// The index of a home of a run of this work.
pub(crate) fn index_in(work: &Work, k: HomeId) -> usize
    requires there { IsNumber (sizes work.now) k }
    ensures { result ≡ index_of (sizes work.now) k }
{
    index_of(work.cpus as usize, work.sets.items().len() + 1, k)
}

/// The home of an index of a run of this work.
pub(crate) fn number_in(work: &Work, i: usize) -> HomeId
    requires inside { i < home_count work.now }
    ensures { IsNumberAt (sizes work.now) i result }
{
    number_at(work.cpus as usize, work.sets.items().len() + 1, i)
}

impl Shared {
    /// How many real-time queues the run has: one for each of its sets.
    fn sets(&self) -> usize
        ensures { result ≡ length (work_of self.now).sets + 1 }
    {
        self.homes - 128 - self.cpus
    }

    /// The index of a home: that of its slot and of its lock.
    pub(crate) fn index(&self, k: HomeId) -> usize
        requires there { IsNumber (sizes (work_of self.now)) k }
        ensures index { result ≡ index_of (sizes (work_of self.now)) k }
        ensures inside { result < home_count (work_of self.now) }
    {
        index_of(self.cpus, self.sets(), k)
    }

    /// The home of an index.
    pub fn home_at(&self, i: usize) -> HomeId
        requires inside { i < home_count (work_of self.now) }
        ensures { IsNumberAt (sizes (work_of self.now)) i result }
    {
        number_at(self.cpus, self.sets(), i)
    }
}
