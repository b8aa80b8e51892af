//! The queue: one chain of boxes, reached at its front and at its back.
ghost use Rattle.std.specs.Prelude.{◌≡◌, ◌<◌, ◌^◌, ◌↔◌, IsTrue, MatchOption, MatchResult, ◌+◌, [], ◌∷◌, ◌++◌, length, slice_get, Some, IfSome};
ghost use Rattle.std.specs.Option.{option_copied};
ghost use Rattle.sd_boxq.specs.Search.{is_wanted};
ghost use Rattle.sd_boxq.specs.Order.{find_first, drop_first, insert_ranked, insert_by_key, insert_keyed, find_id, drop_id, find_below, drop_below, replace_id, IsAlike};

use crate::node::Node;
use crate::nodes::Nodes;
use crate::nodes::items::Items;
use crate::nodes::walk::Walk;
use crate::ranked::Ranked;
use crate::search::Wanted;
use std::alloc::Global;
use std::marker::Model;

/// A queue of boxes, which contracts see as the list of its items. No call takes memory. A queue that is
/// dropped drops its items, and frees their boxes.
///
/// Each box points to the next one, and the queue to the first and the last one. So a box is put at
/// either end, and taken from the front, in a bounded number of steps; elsewhere a search goes from the
/// first box to the index once, and the box is linked in or taken out there.
pub struct BoxQueue<T> {
    nodes: Nodes<T, Global>,
}

impl<T> Model for BoxQueue<T> {
    ghost use Rattle.std.specs.Prelude.{List};

    ghost Value = { List T };

    ghost view = { λ q. q.nodes.items };
}

impl<T> BoxQueue<T> {
    /// An empty queue.
    pub fn new() -> BoxQueue<T>
        ensures { result ≡ [] }
    {
        BoxQueue {
            nodes: Nodes::new(),
        }
    }

    /// Puts the box behind all others.
    pub fn push_back(&mut self, n: Node<T>)
        ensures { self.new ≡ self.old ++ n ∷ [] }
    {
        let (item, block) = n.into_parts();
        self.nodes.put_back(block, item);
    }

    /// Puts the box before all others.
    pub fn push_front(&mut self, n: Node<T>)
        ensures { self.new ≡ n ∷ self.old }
    {
        let (item, block) = n.into_parts();
        self.nodes.put_front(block, item);
    }

    /// The first box, which leaves the queue. `None` exactly where the queue is empty.
    pub fn pop_front(&mut self) -> Option<Node<T>>
        ensures { MatchOption result ((self.old ≡ []) × (self.new ≡ [])) (λ n. self.old ≡ n ∷ self.new) }
    {
        let (item, block) = self.nodes.take_front()?;
        Some(Node::of_parts(item, block))
    }

    // Lets an empty queue go.
    fn close(self)
        requires { self ≡ [] }
    {
        let BoxQueue { nodes } = self;
        drop(nodes);
    }

    /// The item at this index, counted from 0. `None` exactly where there is none.
    pub fn item(&self, index: usize) -> Option<&T>
        ensures { option_copied result ≡ slice_get self.now index }
    {
        match self.seek(index) {
            Ok(item) => Some(item),
            Err(_) => None,
        }
    }

    /// The item at this index, counted from 0, or how far the index lies behind the last item.
    pub fn seek(&self, index: usize) -> Result<&T, usize>
        ensures { MatchResult result (λ x. slice_get self.now index ≡ Some x.now) (λ left. index ≡ length self.now + left) }
    {
        let mut left = index;
        for item in self.items() {
            if left == 0 {
                return Ok(item);
            }
            left -= 1;
        }
        Err(left)
    }

    /// The first item. `None` exactly where the queue is empty.
    pub fn first(&self) -> Option<&T>
        ensures { option_copied result ≡ slice_get self.now 0 }
    {
        self.items().next()
    }

    /// Whether there is no item.
    pub fn is_empty(&self) -> bool
        ensures { IsTrue result ↔ (self.now ≡ []) }
    {
        !self.nodes.is_any()
    }

    /// The number of items.
    pub fn len(&self) -> usize
        requires { length self.now < 2 ^ 32 }
        ensures { result ≡ length self.now }
    {
        let mut count = 0;
        for _ in self.items() {
            count += 1;
        }
        count
    }

    /// The items from the first one on.
    pub fn items(&self) -> Items<'_, T>
        ensures { result ≡ self.now }
    {
        self.nodes.items()
    }

    /// A walk along the items from the first one on.
    pub fn walk(&self) -> Walk<'_, T>
        ensures { result ≡ self.now }
    {
        self.nodes.walk()
    }
}

impl<T: Ranked> BoxQueue<T> {
    /// Puts the box before the first item whose rank is smaller, or whose rank is equal and whose key is
    /// greater, and at the back where there is none.
    #[tactic(auto, using(crate::proofs::Counts::ranked_counted))]
    pub fn insert_ranked(&mut self, n: Node<T>)
        ensures { self.new ≡ insert_ranked T.rank T.key n self.old }
    {
        let rank = n.item().rank();
        let key = n.item().key();
        let gap = self.nodes.gap(&Wanted::BehindRanked(rank, key));
        let (item, block) = n.into_parts();
        self.nodes.put(gap, block, item);
    }

    /// Puts the box before the first item whose key is greater, and at the back where there is none. The ranks
    /// are not looked at.
    #[tactic(auto, using(crate::proofs::Counts::insert_counted))]
    pub fn insert_by_key(&mut self, n: Node<T>)
        ensures { self.new ≡ insert_by_key T.key n self.old }
    {
        let gap = self.nodes.gap(&Wanted::BehindKey(n.item()));
        let (item, block) = n.into_parts();
        self.nodes.put(gap, block, item);
    }

    /// Puts the box before the first item whose key is greater, or whose key is equal and whose id is
    /// greater, and at the back where there is none. The ranks are not looked at.
    #[tactic(auto, using(crate::proofs::Counts::insert_counted))]
    pub fn insert_keyed(&mut self, n: Node<T>)
        ensures { self.new ≡ insert_keyed T.key T.id n self.old }
    {
        let gap = self.nodes.gap(&Wanted::BehindKeyed(n.item()));
        let (item, block) = n.into_parts();
        self.nodes.put(gap, block, item);
    }

    // Takes the box of the first wanted item. `None` exactly where there is none.
    #[tactic(auto, using(crate::proofs::Counts::find_counted, crate::proofs::Counts::drop_counted))]
    #[inline(always)]
    fn take(&mut self, wanted: &Wanted<'_, T>) -> Option<Node<T>>
        ensures taken { result ≡ find_first (is_wanted T.rank T.key T.id wanted.now) self.old }
        ensures rest { self.new ≡ drop_first (is_wanted T.rank T.key T.id wanted.now) self.old }
    {
        let gap = self.nodes.gap(wanted);
        let (item, block) = self.nodes.take(gap)?;
        Some(Node::of_parts(item, block))
    }

    /// Takes the box of the first item with this id. `None` exactly where there is none.
    pub fn take_first(&mut self, id: u32) -> Option<Node<T>>
        ensures taken { result ≡ find_id T.id id self.old }
        ensures rest { self.new ≡ drop_id T.id id self.old }
    {
        match self.first() {
            Some(item) if item.id() == id => self.pop_front(),
            _ => self.take(&Wanted::Id(id)),
        }
    }

    /// Takes the box of the first item whose key is smaller than `below`. `None` exactly where there is
    /// none.
    pub fn take_below(&mut self, below: i64) -> Option<Node<T>>
        ensures taken { result ≡ find_below T.key below self.old }
        ensures rest { self.new ≡ drop_below T.key below self.old }
    {
        self.take(&Wanted::Below(below))
    }

    /// The first item with this id. `None` exactly where there is none.
    pub fn find(&self, id: u32) -> Option<&T>
        ensures { option_copied result ≡ find_id T.id id self.now }
    {
        self.nodes.find(id)
    }

    /// Puts `item` at the index of the first item with this id, which is returned. `None` exactly where
    /// there is none; then `item` is dropped.
    #[tactic(auto, using(crate::proofs::Counts::find_counted, crate::proofs::Counts::replace_counted))]
    pub fn replace(&mut self, id: u32, item: T) -> Option<T>
    where
        T: Drop,
        requires alike { IfSome (find_id T.id id self.old) (λ x. IsAlike T.rank T.key T.id x item) }
        ensures old { result ≡ find_id T.id id self.old }
        ensures rest { self.new ≡ replace_id T.id id item self.old }
    {
        let gap = self.nodes.gap(&Wanted::Id(id));
        self.nodes.exchange_found(gap, item)
    }
}

// Box by box: the boxes free neither themselves nor one another.
impl<T: Drop> Drop for BoxQueue<T> {
    fn drop(mut self) {
        while let Some(n) = self.pop_front() {
            drop(n);
        }
        self.close();
    }
}
