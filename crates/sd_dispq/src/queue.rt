//! The dispatch queue: a list in order of rank, kept in levels.
ghost use Rattle.std.specs.Prelude.{◌≡◌, ◌+◌, ◌<◌, ◌^◌, [], ◌∷◌, length, slice_get, IfOk, IfSome, MatchOption, true};
ghost use Rattle.std.specs.Option.{option_copied};
ghost use Rattle.sd_boxq.specs.Order.{precedes, insert_ranked, find_id, drop_id, replace_id, IsAlike, IsBest, IsRanked};
ghost use Rattle.sd_dispq.specs.Levels.{all_of, IsLevelled};
ghost use Rattle.sd_dispq.specs.Ranks.{put_front, put_back, IsByRank, greatest_rank, raised};

use crate::items::Items;
use crate::levels::{LEVELS, Levels};
use sd_boxq::{Node, Ranked};
use std::alloc::{AllocError, Global};
use std::marker::Model;

/// A dispatch queue of 160 ranks, which contracts see as the list of its items: the greatest rank
/// first, and of one rank as they were put (Solaris Internals, dispatch queues).
///
/// A bit is set exactly where a level is not empty, and the maximum is the rank of the first such level,
/// so the best and the greatest rank are found without a scan of levels.
#[derive(Drop)]
pub struct DispQueue<T: Ranked> {
    levels: Levels<T>,
    greatest: Option<u8>,
}

impl<T: Ranked> Model for DispQueue<T> {
    ghost use Rattle.std.specs.Prelude.{◌≡◌, List, length};
    ghost use Rattle.std.specs.Coded.{coded_list};
    ghost use Rattle.sd_dispq.specs.Levels.{all_of, IsLevelled};
    ghost use Rattle.sd_dispq.specs.Ranks.{greatest_rank};

    ghost Value = { List T };

    ghost coded = { coded_list T.code };

    ghost view = { λ q. all_of q.levels };

    ghost invariant = { λ q. (length q.levels ≡ 160) × (IsLevelled T.rank q.levels) × (q.greatest ≡ greatest_rank T.rank (all_of q.levels)) };
}

// The index of the level of this rank.
fn level_of(rank: u8) -> usize
    requires { rank < 160 }
    ensures { result + rank + 1 ≡ 160 }
{
    LEVELS - 1 - rank as usize
}

// The greatest rank when an item of this rank has come.
fn raise(greatest: Option<u8>, rank: u8) -> Option<u8>
    ensures { result ≡ raised greatest rank }
{
    match greatest {
        None => Some(rank),
        Some(other) => Some(other.max(rank)),
    }
}

// The rank of the first level that is not empty, by the bitmap.
fn greatest_of<T: Ranked>(levels: &Levels<T>) -> Option<u8>
    requires count { length levels.now ≡ 160 }
    requires levelled { IsLevelled T.rank levels.now }
    ensures { result ≡ greatest_rank T.rank (all_of levels.now) }
{
    match levels.next_busy(0) {
        None => None,
        Some(level) => Some((LEVELS - 1 - level) as u8),
    }
}

impl<T: Ranked> DispQueue<T> {
    /// An empty queue. No other call takes memory.
    pub fn new(alloc: Global) -> Result<DispQueue<T>, AllocError>
    where
        T: Drop,
        ensures { IfOk result (λ queue. queue ≡ []) }
    {
        Ok(DispQueue {
            levels: Levels::new(alloc)?,
            greatest: None,
        })
    }

    /// Puts the box before all others of its rank.
    pub fn put_front(&mut self, n: Node<T>)
        requires { T.rank n < 160 }
        ensures { self.new ≡ put_front T.rank n self.old }
    {
        let rank = n.item().rank();
        self.levels.push_front(level_of(rank), n);
        self.greatest = raise(self.greatest, rank);
    }

    /// Puts the box behind all others of its rank.
    pub fn put_back(&mut self, n: Node<T>)
        requires { T.rank n < 160 }
        ensures { self.new ≡ put_back T.rank n self.old }
    {
        let rank = n.item().rank();
        self.levels.push_back(level_of(rank), n);
        self.greatest = raise(self.greatest, rank);
    }

    /// Puts the box before the first item whose rank is smaller, or whose rank is equal and whose key is
    /// greater, and at the back where there is none. All items of its level have its rank, so that it goes there by its key.
    pub fn put_ranked(&mut self, n: Node<T>)
        requires { T.rank n < 160 }
        ensures { self.new ≡ insert_ranked T.rank T.key n self.old }
    {
        let rank = n.item().rank();
        self.levels.insert_by_key(level_of(rank), n);
        self.greatest = raise(self.greatest, rank);
    }

    /// The first item, which has the greatest rank. `None` exactly where the queue is empty.
    pub fn best(&self) -> Option<&T>
        ensures value { option_copied result ≡ slice_get self.now 0 }
        ensures order { IsByRank T.rank self.now }
    {
        match self.greatest {
            None => None,
            Some(rank) => self.levels.level(level_of(rank)).first(),
        }
    }

    /// The greatest rank, by the maximum that the bitmap gave. `None` exactly where the queue is empty.
    pub fn max(&self) -> Option<u8>
        ensures { result ≡ greatest_rank T.rank self.now }
    {
        self.greatest
    }

    /// Takes the box of the first item, which is the best where the items are in order of rank and key:
    /// none has a greater rank, or an equal rank and a smaller key. `None` exactly where the queue is empty.
    pub fn take_best(&mut self) -> Option<Node<T>>
        ensures taken { MatchOption result ((self.old ≡ []) × (self.new ≡ [])) (λ n. self.old ≡ n ∷ self.new) }
        ensures order { IsByRank T.rank self.old }
        ensures best { IsRanked T.rank T.key self.old → IfSome result (λ n. IsBest (λ _. true) (precedes T.rank T.key) n self.old) }
    {
        match self.greatest {
            None => None,
            Some(rank) => {
                let taken = self.levels.pop_front(level_of(rank));
                self.greatest = greatest_of(&self.levels);
                taken
            }
        }
    }

    /// Takes the box of the first item with this id. `None` exactly where there is none.
    pub fn take(&mut self, id: u32) -> Option<Node<T>>
        ensures taken { result ≡ find_id T.id id self.old }
        ensures rest { self.new ≡ drop_id T.id id self.old }
    {
        let levels = &mut self.levels;
        let taken = levels.take(id);
        self.greatest = greatest_of(levels);
        taken
    }

    /// The first item with this id. `None` exactly where there is none.
    pub fn find(&self, id: u32) -> Option<&T>
        ensures { option_copied result ≡ find_id T.id id self.now }
    {
        self.levels.find(id)
    }

    /// The first item with this id, where that has this rank: only the level of the rank is searched.
    pub fn find_ranked(&self, rank: u8, id: u32) -> Option<&T>
        ensures { IfSome (find_id T.id id self.now) (λ x. T.rank x ≡ rank) → option_copied result ≡ find_id T.id id self.now }
    {
        let levels = &self.levels;
        // No item has such a rank.
        if rank as usize >= LEVELS {
            return None;
        }
        levels.level(level_of(rank)).find(id)
    }

    /// Takes the box of the first item with this id, where that has this rank: only the level of the rank is searched.
    pub fn take_ranked(&mut self, rank: u8, id: u32) -> Option<Node<T>>
        ensures taken { IfSome (find_id T.id id self.old) (λ x. T.rank x ≡ rank) → result ≡ find_id T.id id self.old }
        ensures rest { IfSome (find_id T.id id self.old) (λ x. T.rank x ≡ rank) → self.new ≡ drop_id T.id id self.old }
    {
        let levels = &mut self.levels;
        // No item has such a rank.
        if rank as usize >= LEVELS {
            return None;
        }
        let taken = levels.take_first(level_of(rank), id);
        self.greatest = greatest_of(levels);
        taken
    }

    /// Puts `item` at the index of the first item with this id, which is returned. `None` exactly where
    /// there is none; then `item` is dropped.
    pub fn replace(&mut self, id: u32, item: T) -> Option<T>
    where
        T: Drop,
        requires alike { IfSome (find_id T.id id self.old) (λ x. IsAlike T.rank T.key T.id x item) }
        ensures old { result ≡ find_id T.id id self.old }
        ensures rest { self.new ≡ replace_id T.id id item self.old }
    {
        let rank = item.rank();
        let levels = &mut self.levels;
        // No item has such a rank.
        if rank as usize >= LEVELS {
            return None;
        }
        levels.replace(level_of(rank), id, item)
    }

    /// The items from the first one on.
    pub fn items(&self) -> Items<'_, T>
        ensures { result ≡ self.now }
    {
        self.levels.items()
    }

    /// The item at this index of the list, counted from 0. `None` exactly where there is none.
    pub fn item(&self, index: usize) -> Option<&T>
        ensures { option_copied result ≡ slice_get self.now index }
    {
        let mut left = index;
        let mut from = 0;
        while let Some(level) = self.levels.next_busy(from) {
            match self.levels.level(level).seek(left) {
                Ok(item) => return Some(item),
                Err(rest) => left = rest,
            }
            from = level + 1;
        }
        None
    }

    /// The number of items.
    pub fn len(&self) -> usize
        requires { length self.now < 2 ^ 32 }
        ensures { result ≡ length self.now }
    {
        let mut count = 0;
        for _ in self.items() {
            count += 1;
        }
        count
    }
}
