//! Where the threads of a dispatch queue stand, by their numbers: a thread is looked up in the one level of the queue on which it stands, and the
//! next one to age in a bitmap of those that age.

ghost use Rattle.std.specs.Prelude.{◌≡◌, List, [], IfOk, option_map, true};
ghost use Rattle.sd_boxq.specs.Order.{find_id, drop_id, insert_ranked};
ghost use Rattle.sd_record.specs.Records.{ThreadRecord};
ghost use Rattle.sd_homes.specs.Standing.{id_of, key_in, least_to_age, rank_of};
ghost use Rattle.sd_homes.specs.ReadyIndexes.{Indexes, Tells, priority_at};

use sd_dispq::Bitmap;
use sd_flat::is_ts;
use sd_record::Record;
use sd_types::ThreadId;
use std::alloc::{AllocError, Global};

/// For each number the priority of the thread with it that stands on a queue, and whether that is a time-sharing one, which ages there. It is exact
/// as long as no two threads on the queue have one number and none has a number that is too great for it; then it tells exactly what a scan of
/// the queue would, and else it says so.
#[derive(Drop)]
pub(crate) struct ReadyIndex {
    priorities: Vec<Option<u8>>,
    ageing: Bitmap,
    is_exact: bool,
}

/// Where on its queue a thread stands.
pub(crate) enum Found {
    /// Among those of this priority.
    At(u8),
    Nowhere,
    Unknown,
}

impl ReadyIndex {
    /// Of a queue with no thread, for so many numbers.
    pub(crate) fn new(alloc: Global, count: u16) -> Result<ReadyIndex, AllocError>
        ensures { IfOk result (λ k. Indexes k []) }
    {
        let mut priorities = Vec::with_capacity(alloc, count as usize)?;
        for _ in 0..count {
            priorities.push_reserved(None);
        }
        Ok(ReadyIndex {
            priorities,
            ageing: Bitmap::new(alloc, count)?,
            is_exact: true,
        })
    }

    /// Whether it is known where each thread of the queue stands.
    #[inline(always)]
    pub(crate) fn is_exact(&self) -> bool
        ensures { result ≡ self.now.is_exact }
    {
        self.is_exact
    }

    /// The priority that is noted under a number.
    #[inline(always)]
    fn priority_at(&self, i: usize) -> Option<u8>
        ensures { result ≡ priority_at self.now.priorities.items i }
    {
        if i < self.priorities.len() {
            self.priorities[i]
        } else {
            None
        }
    }

    /// Where the first thread with this number stands.
    #[inline(always)]
    pub(crate) fn place_of(&self, id: u32) -> Found
        ensures { (rs : List ThreadRecord) → Indexes self.now rs → Tells result (find_id id_of id rs) }
    {
        if !self.is_exact {
            return Found::Unknown;
        }
        match self.priority_at(id as usize) {
            None => Found::Nowhere,
            Some(priority) => Found::At(priority),
        }
    }

    /// Notes a thread that comes to the queue.
    #[inline(always)]
    pub(crate) fn note(&mut self, thread: &Record)
        ensures { (rs : List ThreadRecord) → Indexes self.old rs → Indexes self.new (insert_ranked rank_of key_in thread.now rs) }
    {
        let i = thread.kept.id.0 as usize;
        if self.priorities.len() <= i || self.priorities[i].is_some() {
            self.is_exact = false;
            return;
        }
        self.priorities[i] = Some(thread.effective());
        if is_ts(&thread.kept.body.class) {
            self.ageing.set(i);
        }
    }

    /// Forgets the first thread with this number, which leaves the queue.
    #[inline(always)]
    pub(crate) fn forget(&mut self, id: u32)
        ensures { (rs : List ThreadRecord) → Indexes self.old rs → Indexes self.new (drop_id id_of id rs) }
    {
        let i = id as usize;
        if i < self.priorities.len() {
            self.priorities[i] = None;
            self.ageing.clear(i);
        }
    }

    /// The least number, from `u` on, of a time-sharing thread on the queue, where the index is exact.
    #[inline(always)]
    pub(crate) fn next_to_age(&self, u: ThreadId) -> Option<ThreadId>
        ensures { (rs : List ThreadRecord) → self.now.is_exact ≡ true → Indexes self.now rs → option_map (λ t. t.0) result ≡ least_to_age u.0 rs }
    {
        match self.ageing.next_set(u.0 as usize) {
            None => None,
            Some(i) => Some(ThreadId(i as u16)),
        }
    }
}
