//! The levels of a dispatch queue, with a bit for each that is set exactly where it is not empty.
ghost use Rattle.std.specs.Prelude.{◌≡◌, ◌<◌, [], ◌∷◌, ◌++◌, length, set, drop, slice_get, replicate, IfOk, IfSome, MatchOption};
ghost use Rattle.std.specs.Option.{option_copied};
ghost use Rattle.sd_boxq.specs.Order.{insert_by_key, find_id, drop_id, replace_id, IsAlike};
ghost use Rattle.sd_dispq.specs.Levels.{all_of, level_at, AreIdleFrom, IsLevelled, IsNextBusy};

use crate::bitmap::Bitmap;
use sd_boxq::{BoxQueue, Node, Ranked};
use std::alloc::{AllocError, Global};
use std::marker::Model;

/// The number of levels: ranks are below it (Solaris Internals: 160 global priorities).
pub(crate) const LEVELS: usize = 160;

/// The levels by their indices, which are counted from the greatest rank down.
#[derive(Drop)]
pub(crate) struct Levels<T> {
    queues: Vec<BoxQueue<T>>,
    busy: Bitmap,
}

impl<T> Model for Levels<T> {
    ghost use Rattle.std.specs.Prelude.{◌≡◌, ◌<◌, ◌*◌, ℕ, List, length};
    ghost use Rattle.std.specs.Coded.{coded_list};
    ghost use Rattle.sd_dispq.specs.Bitmap.{bit_of};
    ghost use Rattle.sd_dispq.specs.Levels.{level_at, mark_of};

    ghost Value = { List (List T) };

    ghost coded = { coded_list (coded_list T.code) };

    ghost view = { λ a. a.queues.items };

    ghost invariant = { λ a. (length a.queues.items ≡ 160) × (160 < 64 * length a.busy) × ((i : ℕ) → bit_of a.busy i ≡ mark_of (level_at a.queues.items i)) };
}

impl<T> Levels<T> {
    /// Empty levels.
    pub(crate) fn new(alloc: Global) -> Result<Levels<T>, AllocError>
    where
        T: Drop,
        ensures { IfOk result (λ levels. levels ≡ replicate 160 []) }
    {
        let mut queues = Vec::with_capacity(alloc, LEVELS)?;
        for _ in 0..LEVELS {
            queues.push_reserved(BoxQueue::new());
        }
        Ok(Levels {
            queues,
            busy: Bitmap::new(alloc, LEVELS as u16)?,
        })
    }

    /// Puts the box before all others of the level at this index.
    pub(crate) fn push_front(&mut self, index: usize, n: Node<T>)
        requires { index < 160 }
        ensures { self.new ≡ set self.old index (n ∷ level_at self.old index) }
    {
        let queue = &mut self.queues[index];
        queue.push_front(n);
        self.busy.set(index);
    }

    /// Puts the box behind all others of the level at this index.
    pub(crate) fn push_back(&mut self, index: usize, n: Node<T>)
        requires { index < 160 }
        ensures { self.new ≡ set self.old index (level_at self.old index ++ n ∷ []) }
    {
        let queue = &mut self.queues[index];
        queue.push_back(n);
        self.busy.set(index);
    }

    /// Takes the first box of the level at this index.
    pub(crate) fn pop_front(&mut self, index: usize) -> Option<Node<T>>
        requires { index < 160 }
        ensures taken { result ≡ slice_get (level_at self.old index) 0 }
        ensures rest { self.new ≡ set self.old index (drop 1 (level_at self.old index)) }
    {
        let queue = &mut self.queues[index];
        let taken = queue.pop_front();
        if queue.is_empty() {
            self.busy.clear(index);
        }
        taken
    }

    /// The level at this index.
    pub(crate) fn level(&self, index: usize) -> &BoxQueue<T>
        requires { index < 160 }
        ensures { result.now ≡ level_at self.now index }
    {
        &self.queues[index]
    }

    /// The index of the first level that is not empty, of those from `from` on, by the bitmap.
    pub(crate) fn next_busy(&self, from: usize) -> Option<usize>
        ensures within { IfSome result (λ i. i < 160) }
        ensures next { MatchOption result (AreIdleFrom self.now from) (IsNextBusy self.now from) }
    {
        self.busy.next_set(from)
    }
}

impl<T: Ranked> Levels<T> {
    /// Puts the box by its key into the level at this index.
    pub(crate) fn insert_by_key(&mut self, index: usize, n: Node<T>)
        requires { index < 160 }
        ensures { self.new ≡ set self.old index (insert_by_key T.key n (level_at self.old index)) }
    {
        let queue = &mut self.queues[index];
        queue.insert_by_key(n);
        self.busy.set(index);
    }

    /// Takes the box of the first item with this id of the level at this index.
    pub(crate) fn take_first(&mut self, index: usize, id: u32) -> Option<Node<T>>
        requires { index < 160 }
        ensures taken { result ≡ find_id T.id id (level_at self.old index) }
        ensures rest { self.new ≡ set self.old index (drop_id T.id id (level_at self.old index)) }
    {
        let queue = &mut self.queues[index];
        let taken = queue.take_first(id);
        if queue.is_empty() {
            self.busy.clear(index);
        }
        taken
    }

    /// Puts `item` at the index of the first item with this id of the level at this index.
    pub(crate) fn replace(&mut self, index: usize, id: u32, item: T) -> Option<T>
    where
        T: Drop,
        requires within { index < 160 }
        requires alike { IfSome (find_id T.id id (level_at self.old index)) (λ x. IsAlike T.rank T.key T.id x item) }
        ensures old { result ≡ find_id T.id id (level_at self.old index) }
        ensures rest { self.new ≡ set self.old index (replace_id T.id id item (level_at self.old index)) }
    {
        let queue = &mut self.queues[index];
        queue.replace(id, item)
    }

    /// The first item with this id. Only levels with items are searched, each once.
    pub(crate) fn find(&self, id: u32) -> Option<&T>
        ensures { option_copied result ≡ find_id T.id id (all_of self.now) }
    {
        let mut from = 0;
        while let Some(index) = self.next_busy(from) {
            if let Some(item) = self.level(index).find(id) {
                return Some(item);
            }
            from = index + 1;
        }
        None
    }

    /// Takes the box of the first item with this id. Only levels with items are searched, each once.
    pub(crate) fn take(&mut self, id: u32) -> Option<Node<T>>
        ensures taken { result ≡ find_id T.id id (all_of self.old) }
        ensures rest { all_of self.new ≡ drop_id T.id id (all_of self.old) }
        ensures count { length self.new ≡ length self.old }
        ensures levelled { IsLevelled T.rank self.old → IsLevelled T.rank self.new }
    {
        let mut from = 0;
        while let Some(index) = self.next_busy(from) {
            if let Some(n) = self.take_first(index, id) {
                return Some(n);
            }
            from = index + 1;
        }
        None
    }
}
