//! One box of its own, in no queue.
ghost use Rattle.std.specs.Prelude.{◌≡◌, IfOk};
ghost use Rattle.std.specs.Borrow.{sem};

use crate::nodes::Cell;
use std::alloc::{AllocError, Allocator, Global};
use std::marker::{Model, Send};
use std_alloc::room::Vacant;

/// The block of one box. It takes the item once the box is in a queue.
pub struct Room<T, A: Allocator> {
    block: Vacant<Cell<T, A>, A>,
}

// The block is all that it owns.
impl<T, A: Allocator> Model for Room<T, A> {
    ghost use base.Fml.{ftrue};

    ghost also_owns = { λ _. ftrue };
}

// It holds no item.
unsafe impl<T, A: Allocator + Send> Send for Room<T, A> {}

impl<T, A: Allocator> Room<T, A> {
    fn of_block(block: Vacant<Cell<T, A>, A>) -> Room<T, A>
        ensures { result.block ≡ block }
    {
        Room { block }
    }

    fn into_block(self) -> Vacant<Cell<T, A>, A>
        ensures { result ≡ self.block }
    {
        let Room { block } = self;
        block
    }
}

/// One box of its own, with one item, which contracts see as the item. A box goes from queue to queue
/// and takes no memory on the way: the item moves into the block where the box is linked, and out of it
/// where the box is taken.
pub struct Node<T> {
    item: T,
    room: Room<T, Global>,
}

impl<T> Model for Node<T> {
    ghost Value = { T };

    ghost view = { λ n. n.item };
}

impl<T> Node<T> {
    /// A box for this item. Where memory runs out, the item is dropped.
    pub fn node(alloc: Global, item: T) -> Result<Node<T>, AllocError>
    where
        T: Drop,
        ensures { IfOk result (λ n. n ≡ item) }
    {
        match Vacant::take(alloc) {
            Ok(block) => Ok(Node::of_parts(item, block)),
            Err(_) => Err(AllocError),
        }
    }

    pub(crate) fn of_parts(item: T, block: Vacant<Cell<T, Global>, Global>) -> Node<T>
        ensures { result ≡ item }
    {
        Node {
            item,
            room: Room::of_block(block),
        }
    }

    pub(crate) fn into_parts(self) -> (T, Vacant<Cell<T, Global>, Global>)
        ensures { result.0 ≡ self }
    {
        let Node { item, room } = self;
        (item, room.into_block())
    }

    /// The item.
    pub fn item(&self) -> &T
        ensures { result.now ≡ self.now }
    {
        &self.item
    }

    ghost use Rattle.sd_boxq.specs.Lends.{lends_item};

    /// The item, to be changed.
    pub fn item_mut(&mut self) -> &mut T
        ensures* writes_back { sem 𝓛 (lends_item T.row self.entry result) }
        ensures value { result.now ≡ self.old }
    {
        &mut self.item
    }
}

impl<T: Drop> Drop for Node<T> {
    fn drop(self) {
        let (item, block) = self.into_parts();
        drop(item);
        block.free();
    }
}
