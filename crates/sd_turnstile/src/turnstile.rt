//! A turnstile: the writers and the readers that wait for one lock.
ghost use Rattle.std.specs.Prelude.{◌≡◌, ◌<◌, ◌^◌, ◌↔◌, IfOk, IsTrue, MatchOption, [], ◌∷◌, slice_get, drop, is_some, true, None};
ghost use Rattle.std.specs.Option.{option_copied, option_map};
ghost use Rattle.sd_boxq.specs.Order.{insert_ranked, find_id, drop_id, IsRanked};
ghost use Rattle.sd_turnstile.specs.Waiters.{nobody, IsIdle, on_side, with_side, waiter_count, find_in, higher, highest_waiter, without_id};

use sd_boxq::{BoxQueue, Boxed, Node, Ranked};
use sd_types::Side;
use std::alloc::{AllocError, Global};
use std::marker::Model;

/// The two queues of a turnstile.
#[derive(Drop)]
pub(crate) struct Sides<T> {
    writers: BoxQueue<T>,
    readers: BoxQueue<T>,
}

impl<T> Model for Sides<T> {
    ghost use Rattle.sd_turnstile.specs.Waiters.{Waiters};

    ghost Value = { Waiters T };

    ghost view = { λ s. record { writers = s.writers; readers = s.readers } };
}

/// The queue of the writers and the queue of the readers that wait for one lock. They lie behind a box of their own, so that a turnstile goes
/// from place to place by its addresses.
#[derive(Drop)]
pub struct Turnstile<T> {
    sides: Node<Boxed<Sides<T>>>,
}

impl<T> Model for Turnstile<T> {
    ghost use Rattle.sd_turnstile.specs.Waiters.{Waiters};

    ghost Value = { Waiters T };

    ghost view = { λ t. t.sides };
}

impl<T> Sides<T> {
    fn is_idle(&self) -> bool
        ensures { IsTrue result ↔ IsIdle self.now }
    {
        self.writers.is_empty() && self.readers.is_empty()
    }

    fn first(&self, side: Side) -> Option<&T>
        ensures { option_copied result ≡ slice_get (on_side self.now side) 0 }
    {
        match side {
            Side::Writer => self.writers.first(),
            Side::Reader => self.readers.first(),
        }
    }

    fn pop(&mut self, side: Side) -> Option<Node<T>>
        ensures taken { result ≡ slice_get (on_side self.old side) 0 }
        ensures rest { self.new ≡ with_side self.old side (drop 1 (on_side self.old side)) }
    {
        match side {
            Side::Writer => self.writers.pop_front(),
            Side::Reader => self.readers.pop_front(),
        }
    }

    fn len(&self) -> usize
        requires { waiter_count self.now < 2 ^ 32 }
        ensures { result ≡ waiter_count self.now }
    {
        self.writers.len() + self.readers.len()
    }
}

impl<T: Ranked> Sides<T> {
    fn insert(&mut self, side: Side, n: Node<T>)
        ensures { self.new ≡ with_side self.old side (insert_ranked T.rank T.key n (on_side self.old side)) }
    {
        match side {
            Side::Writer => self.writers.insert_ranked(n),
            Side::Reader => self.readers.insert_ranked(n),
        }
    }

    fn take_first(&mut self, side: Side, id: u32) -> Option<Node<T>>
        ensures taken { result ≡ find_id T.id id (on_side self.old side) }
        ensures rest { self.new ≡ with_side self.old side (drop_id T.id id (on_side self.old side)) }
    {
        match side {
            Side::Writer => self.writers.take_first(id),
            Side::Reader => self.readers.take_first(id),
        }
    }

    fn find(&self, side: Side, id: u32) -> Option<&T>
        ensures { option_copied result ≡ find_id T.id id (on_side self.now side) }
    {
        match side {
            Side::Writer => self.writers.find(id),
            Side::Reader => self.readers.find(id),
        }
    }

    fn first_but(&self, side: Side, id: u32) -> Option<&T>
        ensures { option_copied result ≡ slice_get (drop_id T.id id (on_side self.now side)) 0 }
    {
        match side {
            Side::Writer => first_but(&self.writers, id),
            Side::Reader => first_but(&self.readers, id),
        }
    }
}

// The first item once the first one with this id has left.
fn first_but<T: Ranked>(queue: &BoxQueue<T>, id: u32) -> Option<&T>
    ensures { option_copied result ≡ slice_get (drop_id T.id id queue.now) 0 }
{
    let mut items = queue.items();
    match items.next() {
        None => None,
        Some(first) => {
            if first.id() == id {
                items.next()
            } else {
                Some(first)
            }
        }
    }
}

impl<T> Turnstile<T> {
    /// A turnstile without waiters. No other call takes memory.
    pub fn new(alloc: Global) -> Result<Turnstile<T>, AllocError>
    where
        T: Drop,
        ensures { IfOk result (λ t. t ≡ nobody) }
    {
        let sides = Boxed::new(
            alloc,
            Sides {
                writers: BoxQueue::new(),
                readers: BoxQueue::new(),
            },
        )?;
        let sides = Node::node(alloc, sides)?;
        Ok(Turnstile { sides })
    }

    /// Whether both queues are empty.
    pub(crate) fn is_idle(&self) -> bool
        ensures { IsTrue result ↔ IsIdle self.now }
    {
        self.sides.item().get().is_idle()
    }

    /// The first waiter at a side.
    pub(crate) fn first(&self, side: Side) -> Option<&T>
        ensures { option_copied result ≡ slice_get (on_side self.now side) 0 }
    {
        self.sides.item().get().first(side)
    }

    /// Takes the first waiter at a side.
    pub(crate) fn pop(&mut self, side: Side) -> Option<Node<T>>
        ensures taken { result ≡ slice_get (on_side self.old side) 0 }
        ensures rest { self.new ≡ with_side self.old side (drop 1 (on_side self.old side)) }
    {
        let sides = self.sides.item_mut().get_mut();
        sides.pop(side)
    }

    /// The number of waiters, on both sides.
    pub(crate) fn len(&self) -> usize
        requires { waiter_count self.now < 2 ^ 32 }
        ensures { result ≡ waiter_count self.now }
    {
        self.sides.item().get().len()
    }

    /// The box of the two queues.
    pub(crate) fn into_sides(self) -> Node<Boxed<Sides<T>>>
        ensures { result ≡ self }
    {
        let Turnstile { sides } = self;
        sides
    }

    /// A turnstile of this box.
    pub(crate) fn from_sides(sides: Node<Boxed<Sides<T>>>) -> Turnstile<T>
        ensures { result ≡ sides }
    {
        Turnstile { sides }
    }
}

impl<T: Ranked> Turnstile<T> {
    /// Puts the waiter at a side, by its rank and key.
    pub(crate) fn insert(&mut self, side: Side, n: Node<T>)
        ensures { self.new ≡ with_side self.old side (insert_ranked T.rank T.key n (on_side self.old side)) }
    {
        let sides = self.sides.item_mut().get_mut();
        sides.insert(side, n);
    }

    /// Takes the first waiter with this id at a side.
    pub(crate) fn take_first(&mut self, side: Side, id: u32) -> Option<Node<T>>
        ensures taken { result ≡ find_id T.id id (on_side self.old side) }
        ensures rest { self.new ≡ with_side self.old side (drop_id T.id id (on_side self.old side)) }
    {
        let sides = self.sides.item_mut().get_mut();
        sides.take_first(side, id)
    }

    /// The first waiter with this id at a side.
    pub(crate) fn find(&self, side: Side, id: u32) -> Option<&T>
        ensures { option_copied result ≡ find_id T.id id (on_side self.now side) }
    {
        self.sides.item().get().find(side, id)
    }

    /// The greatest rank of the waiters.
    pub(crate) fn greatest(&self) -> Option<u8>
        requires writers { IsRanked T.rank T.key self.now.writers }
        requires readers { IsRanked T.rank T.key self.now.readers }
        ensures { result ≡ highest_waiter T.rank self.now }
    {
        higher(
            self.rank_of_first(Side::Writer),
            self.rank_of_first(Side::Reader),
        )
    }

    fn rank_of_first(&self, side: Side) -> Option<u8>
        ensures { result ≡ option_map T.rank (slice_get (on_side self.now side) 0) }
    {
        match self.first(side) {
            None => None,
            Some(item) => Some(item.rank()),
        }
    }

    /// The greatest rank of the waiters once the first one with this id has left each side.
    pub(crate) fn greatest_but(&self, id: u32) -> Option<u8>
        requires writers { IsRanked T.rank T.key self.now.writers }
        requires readers { IsRanked T.rank T.key self.now.readers }
        ensures { result ≡ highest_waiter T.rank (without_id T.id id self.now) }
    {
        higher(
            self.rank_of_first_but(Side::Writer, id),
            self.rank_of_first_but(Side::Reader, id),
        )
    }

    fn rank_of_first_but(&self, side: Side, id: u32) -> Option<u8>
        ensures { result ≡ option_map T.rank (slice_get (drop_id T.id id (on_side self.now side)) 0) }
    {
        match self.sides.item().get().first_but(side, id) {
            None => None,
            Some(item) => Some(item.rank()),
        }
    }

    /// The side on which the first waiter with this id waits, the writers before the readers.
    pub(crate) fn side_of(&self, id: u32) -> Option<Side>
        ensures { MatchOption result (find_in T.id id self.now ≡ None) (λ side. (is_some (find_in T.id id self.now) ≡ true) × (find_id T.id id (on_side self.now side) ≡ find_in T.id id self.now)) }
    {
        if self.find(Side::Writer, id).is_some() {
            return Some(Side::Writer);
        }
        if self.find(Side::Reader, id).is_some() {
            return Some(Side::Reader);
        }
        None
    }
}

// The greater of two ranks, where there are any.
fn higher(one: Option<u8>, other: Option<u8>) -> Option<u8>
    ensures { result ≡ higher one other }
{
    match (one, other) {
        (None, other) => other,
        (one, None) => one,
        (Some(one), Some(other)) => Some(one.max(other)),
    }
}
