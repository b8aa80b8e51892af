//! A dispatch queue of threads, in which one that comes behind all that came before it is put at the back of its priority at once, and one
//! that is sought by its number is sought in the level on which it stands, as long as no two have one number (`ready_index.rt`).

ghost use Rattle.std.specs.Prelude.{◌≡◌, ◌<◌, ◌≤ℤ◌, [], IfOk, None, Some, MatchOption, option_map};
ghost use Rattle.std.specs.Option.{option_copied};
ghost use Rattle.sd_boxq.specs.Order.{find_id, drop_id, insert_ranked};
ghost use Rattle.sd_homes.specs.Standing.{ages, earlier, id_of, key_in, least_to_age, rank_of};
ghost use Rattle.sd_homes.specs.Newest.{KeysAtMost};

use crate::ready_index::{Found, ReadyIndex};
use sd_boxq::Node;
use sd_dispq::{DispQueue, Items};
use sd_flat::is_ts;
use sd_record::Record;
use sd_types::ThreadId;
use std::alloc::{AllocError, Global};
use std::marker::Model;

/// A dispatch queue of threads, and a number that none of their keys passes. A key tells when a thread came, so that most threads have a
/// greater one than all before them, and no search is made for their place.
#[derive(Drop)]
pub(crate) struct ReadyQueue {
    queue: DispQueue<Record>,
    newest: i64,
    index: ReadyIndex,
}

impl Model for ReadyQueue {
    ghost use Rattle.std.specs.Prelude.{List};
    ghost use Rattle.sd_record.specs.Records.{ThreadRecord};
    ghost use Rattle.sd_homes.specs.Newest.{KeysAtMost};
    ghost use Rattle.sd_homes.specs.ReadyIndexes.{Indexes};

    ghost Value = { List ThreadRecord };

    ghost view = { λ q. q.queue };

    ghost invariant = { λ q. KeysAtMost q.newest q.queue × Indexes q.index q.queue };
}

/// The greater of two keys.
fn later(key: i64, other: i64) -> i64
    ensures { (key ≤ℤ result) × (other ≤ℤ result) }
{
    if key < other { other } else { key }
}

/// Puts the thread by its priority and key among threads whose keys are at most `newest`.
#[inline(always)]
fn put_among(queue: &mut DispQueue<Record>, newest: i64, node: Node<Record>)
    requires rank { rank_of node < 160 }
    requires keys { KeysAtMost newest queue.old }
    ensures { queue.new ≡ insert_ranked rank_of key_in node queue.old }
{
    if newest < node.item().kept.key {
        queue.put_back(node);
    } else {
        queue.put_ranked(node);
    }
}

impl ReadyQueue {
    /// A queue with no thread, which looks up so many threads by their numbers.
    pub(crate) fn new(alloc: Global, threads: u16) -> Result<ReadyQueue, AllocError>
        ensures { IfOk result (λ q. q ≡ []) }
    {
        Ok(ReadyQueue {
            queue: DispQueue::new(alloc)?,
            newest: i64::MIN,
            index: ReadyIndex::new(alloc, threads)?,
        })
    }

    /// The threads.
    #[inline(always)]
    pub(crate) fn threads(&self) -> &DispQueue<Record>
        ensures { result.now ≡ self.now }
    {
        &self.queue
    }

    /// The first thread with this number. `None` exactly where there is none.
    pub(crate) fn find(&self, id: u32) -> Option<&Record>
        ensures { option_copied result ≡ find_id id_of id self.now }
    {
        match self.index.place_of(id) {
            Found::At(priority) => self.queue.find_ranked(priority, id),
            Found::Nowhere => None,
            Found::Unknown => self.queue.find(id),
        }
    }

    /// Takes the first thread with this number. `None` exactly where there is none.
    pub(crate) fn take(&mut self, id: u32) -> Option<Node<Record>>
        ensures taken { result ≡ find_id id_of id self.old }
        ensures rest { self.new ≡ drop_id id_of id self.old }
    {
        let found = self.index.place_of(id);
        self.index.forget(id);
        match found {
            Found::At(priority) => self.queue.take_ranked(priority, id),
            Found::Nowhere => None,
            Found::Unknown => self.queue.take(id),
        }
    }

    /// The least number, from `u` on, of a time-sharing thread.
    pub(crate) fn next_to_age(&self, u: ThreadId) -> Option<ThreadId>
        ensures { option_map (λ t. t.0) result ≡ least_to_age u.0 self.now }
    {
        if self.index.is_exact() {
            self.index.next_to_age(u)
        } else {
            least_to_age(&self.queue, u)
        }
    }

    /// Puts the thread by its priority and key.
    pub(crate) fn put(&mut self, node: Node<Record>)
        requires { rank_of node < 160 }
        ensures { self.new ≡ insert_ranked rank_of key_in node self.old }
    {
        let key = node.item().kept.key;
        self.index.note(node.item());
        put_among(&mut self.queue, self.newest, node);
        self.newest = later(self.newest, key);
    }
}

/// Whether the thread is a time-sharing one with this number or a greater one.
fn ages(u: ThreadId, thread: &Record) -> bool
    ensures { result ≡ ages u.0 thread.now }
{
    u.0 <= thread.kept.id.0 && is_ts(&thread.kept.body.class)
}

/// The number of the first time-sharing thread with this number or a greater one, and the threads behind it.
fn first_to_age(
    mut threads: Items<'_, Record>,
    u: ThreadId,
) -> Option<(ThreadId, Items<'_, Record>)>
    ensures { MatchOption result (least_to_age u.0 threads.entry ≡ None) (λ r. least_to_age u.0 threads.entry ≡ Some (earlier r.0.0 (least_to_age u.0 r.1))) }
{
    while let Some(thread) = threads.next() {
        if ages(u, thread) {
            return Some((thread.kept.id, threads));
        }
    }
    None
}

/// The least of a number and those, from `u` on, of the time-sharing threads. None is less than `u`, so that the search ends there; and a
/// number is compared before the class is read, which lies elsewhere.
#[tactic(auto, using(crate::proofs::AgeLemmas::from_least, crate::proofs::AgeLemmas::least_stays, crate::proofs::AgeLemmas::least_comes, crate::proofs::AgeLemmas::least_ends))]
fn earliest(threads: Items<'_, Record>, u: ThreadId, t: ThreadId) -> ThreadId
    ensures { result.0 ≡ earlier t.0 (least_to_age u.0 threads.entry) }
{
    if t.0 == u.0 {
        return u;
    }
    let mut least = t;
    for thread in threads {
        if thread.kept.id.0 < least.0 && ages(u, thread) {
            if thread.kept.id.0 == u.0 {
                return u;
            }
            least = thread.kept.id;
        }
    }
    least
}

#[inline(never)]
fn least_to_age(queue: &DispQueue<Record>, u: ThreadId) -> Option<ThreadId>
    ensures { option_map (λ t. t.0) result ≡ least_to_age u.0 queue.now }
{
    match first_to_age(queue.items(), u) {
        None => None,
        Some((first, rest)) => Some(earliest(rest, u, first)),
    }
}
