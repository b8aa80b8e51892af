//! The slots in which homes lie whose numbers tell it.

ghost use Rattle.std.specs.Prelude.{◌≡◌, ◌+◌, ◌<◌, ◌≤◌, IfSome};

use sd_types::{CpuId, SetId};

/// So many homes of each kind lie one behind another: those of processors from the first slot on, and those of the other kinds from these slots
/// on; there are as many chains of turnstiles as of sleep queues.
#[derive(Drop)]
pub(crate) struct Order {
    cpus: usize,
    sets: usize,
    chains: usize,
    first_set: usize,
    first_chain: usize,
    first_sleepers: usize,
    ghost small: { (first_set ≤ 256) × (first_chain ≤ 512) × (first_sleepers ≤ 576) },
}

impl Order {
    /// No home lies where its number tells, as far as is known.
    pub(crate) fn none() -> Order
        ensures { (result.cpus ≡ 0) × (result.sets ≡ 0) × (result.chains ≡ 0) }
    {
        Order {
            cpus: 0,
            sets: 0,
            chains: 0,
            first_set: 0,
            first_chain: 0,
            first_sleepers: 0,
        }
    }

    /// So many homes of processors, then of so many sets, then 64 chains of turnstiles and 64 of sleep queues.
    pub(crate) fn of(cpus: usize, sets: usize) -> Order
        requires { (cpus ≤ 256) × (sets ≤ 256) }
        ensures { (result.cpus ≡ cpus) × (result.sets ≡ sets) × (result.chains ≡ 64)
            × (result.first_set ≡ cpus) × (result.first_chain ≡ cpus + sets) × (result.first_sleepers ≡ cpus + sets + 64) }
    {
        Order {
            cpus,
            sets,
            chains: 64,
            first_set: cpus,
            first_chain: cpus + sets,
            first_sleepers: cpus + sets + 64,
        }
    }

    /// The slot of the home of a processor, where its number tells it.
    #[inline(always)]
    pub(crate) fn slot_of_cpu(&self, c: CpuId) -> Option<usize>
        ensures { IfSome result (λ i. (i ≡ c.0) × (c.0 < self.now.cpus)) }
    {
        let i = c.0 as usize;
        if i < self.cpus { Some(i) } else { None }
    }

    /// The slot of the home of a real-time queue, where its number tells it.
    #[inline(always)]
    pub(crate) fn slot_of_real_time(&self, p: SetId) -> Option<usize>
        ensures { IfSome result (λ i. (i ≡ self.now.first_set + p.0) × (p.0 < self.now.sets)) }
    {
        let i = p.0 as usize;
        if i < self.sets {
            Some(self.first_set + i)
        } else {
            None
        }
    }

    /// The slot of a chain of turnstiles, where its number tells it.
    #[inline(always)]
    pub(crate) fn slot_of_chain(&self, n: u8) -> Option<usize>
        ensures { IfSome result (λ i. (i ≡ self.now.first_chain + n) × (n < self.now.chains)) }
    {
        let i = n as usize;
        if i < self.chains {
            Some(self.first_chain + i)
        } else {
            None
        }
    }

    /// The slot of a chain of sleep queues, where its number tells it.
    #[inline(always)]
    pub(crate) fn slot_of_sleepers(&self, n: u8) -> Option<usize>
        ensures { IfSome result (λ i. (i ≡ self.now.first_sleepers + n) × (n < self.now.chains)) }
    {
        let i = n as usize;
        if i < self.chains {
            Some(self.first_sleepers + i)
        } else {
            None
        }
    }
}
