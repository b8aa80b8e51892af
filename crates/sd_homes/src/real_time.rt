//! The home of the real-time queue of a partition.

ghost use Rattle.std.specs.Prelude.{◌≡◌, ◌≤◌, false, length, slice_get, IfErr, IfOk, MatchOption};
ghost use Rattle.std.specs.Option.{option_copied};
ghost use Rattle.sd_boxq.specs.Order.{find_id, drop_id, insert_ranked};
ghost use Rattle.sd_machine.specs.Changes.{with_cpu_in, without_cpu};
ghost use Rattle.sd_homes.specs.Standing.{id_of, key_in, rank_of};
ghost use Rattle.sd_types.specs.declared.numbers.HomeId.TheVariants.{RealTime};
ghost use Rattle.sd_types.specs.Limits.{most_processors};
ghost use Rattle.sd_homes.specs.Kinds.{IsListed, set_has, set_list};
ghost use Rattle.sd_homes.specs.Homes.{OfSet, empty_set, with_open_cpus, with_urgent};

use crate::ListId;
use crate::ready::ReadyQueue;
use crate::traveller::{Traveller, equipped};
use arrayvec::ArrayVec;
use sd_flat::{with_cpu_in, without_cpu};
use sd_record::Record;
use sd_turnstile::Rack;
use sd_types::{CpuId, MOST_PROCESSORS, SetId, ThreadId};
use std::alloc::{AllocError, Global};
use std::marker::Model;

/// A set has 64 open processors, and no room for another.
#[derive(Debug, Clone, Copy)]
pub struct IsFull;

/// The real-time queue of a partition, and the open processors of its set in rising order, with a spare turnstile for each
/// thread.
///
/// Source: Solaris Internals (`cpupart_t`, `cp_kp_queue`), psrset(8).
#[derive(Drop)]
pub struct RealTimeHome {
    set: SetId,
    queue: ReadyQueue,
    open_cpus: ArrayVec<CpuId, 64>,
    rack: Rack<Record>,
}

impl Model for RealTimeHome {
    ghost use Rattle.std.specs.Prelude.{◌≡◌, length};
    ghost use Rattle.sd_homes.specs.Homes.{OfSet};

    ghost Value = { OfSet };

    ghost view = { λ h. record { set = h.set; queue = h.queue; open_cpus = h.open_cpus.items } };

    ghost invariant = { λ h. h.rack ≡ length h.queue };
}

#[tactic(auto, using(crate::proofs::Lengths::length_dropped, crate::proofs::Lengths::length_inserted))]
impl RealTimeHome {
    /// The home of a partition with no real-time thread, whose set has these open processors. A thread on its queue is sought by its
    /// number, if that is below `threads`, in the level where it stands.
    pub fn new(
        alloc: Global,
        set: SetId,
        open_cpus: ArrayVec<CpuId, 64>,
        threads: u16,
    ) -> Result<RealTimeHome, AllocError>
        ensures { IfOk result (λ h. h ≡ empty_set set open_cpus.items) }
    {
        Ok(RealTimeHome {
            set,
            queue: ReadyQueue::new(alloc, threads)?,
            open_cpus,
            rack: Rack::new(),
        })
    }

    #[inline(always)]
    pub fn set(&self) -> SetId
        ensures { result ≡ self.now.set }
    {
        self.set
    }

    /// The open processors of the set, in rising order: at most 64.
    #[inline(always)]
    pub fn open_cpus(&self) -> &[CpuId]
        ensures value { result.now ≡ self.now.open_cpus }
        ensures fits { length result.now ≤ most_processors }
    {
        self.open_cpus.as_slice()
    }

    /// Processor `c` is one of the open ones from now on, unless their list is full.
    pub fn open(&mut self, c: CpuId) -> Result<(), IsFull>
        ensures opened { IfOk result (λ _. self.new ≡ with_open_cpus (with_cpu_in c self.old.open_cpus) self.old) }
        ensures full { IfErr result (λ _. (length self.old.open_cpus ≡ most_processors) × (self.new ≡ self.old)) }
    {
        if self.open_cpus.len() == MOST_PROCESSORS {
            return Err(IsFull);
        }
        with_cpu_in(c, &mut self.open_cpus);
        Ok(())
    }

    /// Processor `c` is no more one of the open ones.
    pub fn close(&mut self, c: CpuId)
        ensures shut { self.new ≡ with_open_cpus (without_cpu c self.old.open_cpus) self.old }
    {
        self.open_cpus = without_cpu(c, &self.open_cpus);
    }

    /// Takes the first thread with this number from the queue.
    pub fn take_queued(&mut self, t: ThreadId) -> Option<Traveller>
        ensures taken { result ≡ find_id id_of t.0 self.old.queue }
        ensures rest { self.new ≡ with_urgent (drop_id id_of t.0 self.old.queue) self.old }
    {
        match self.queue.take(u32::from(t.0)) {
            None => None,
            Some(node) => Some(equipped(node, &mut self.rack)),
        }
    }

    /// Puts the thread on the queue, by its priority and key.
    pub fn put_queued(&mut self, t: Traveller)
        ensures { self.new ≡ with_urgent (insert_ranked rank_of key_in t self.old.queue) self.old }
    {
        let _rank = t.effective();
        let (node, own) = t.into_parts();
        self.queue.put(node);
        self.rack.put(own);
    }

    /// The list in which the thread stands. `None` exactly where it stands in none of this home.
    pub fn where_is(&self, t: ThreadId) -> Option<ListId>
        ensures { MatchOption result (set_has t.0 self.now ≡ false) (IsListed t.0 (RealTime self.now.set) (set_list self.now) (set_has t.0 self.now)) }
    {
        if self.find_queued(t).is_some() {
            return Some(ListId::Urgent(self.set));
        }
        None
    }

    /// The best thread on the queue.
    #[inline(always)]
    pub fn best(&self) -> Option<&Record>
        ensures { option_copied result ≡ slice_get self.now.queue 0 }
    {
        self.queue.threads().best()
    }

    pub fn find_queued(&self, t: ThreadId) -> Option<&Record>
        ensures { option_copied result ≡ find_id id_of t.0 self.now.queue }
    {
        self.queue.find(u32::from(t.0))
    }
}
